// Steps and replies in plain words.
use crate::steps::{Deed, Parcel, Span, Step};
use board::Shown;
use play::Reply;
use protocol::{Answer, Choice, Intake};
use refusals::Refusal;
use std::fmt;

// Cards by the word for one of them, which has a capital at the head of a sentence.
#[derive(Clone, Copy)]
pub struct Named(pub &'static str, pub Span);

impl fmt::Display for Named {
    fn fmt<W: fmt::Write>(&self, f: &mut fmt::Formatter<W>) -> fmt::Result {
        let Named(word, Span { first, last }) = *self;
        match last.saturating_sub(first) {
            0 => write!(f, "{word} {first}"),
            1 => write!(f, "{word}s {first} and {last}"),
            _ => write!(f, "{word}s {first} to {last}"),
        }
    }
}

impl fmt::Display for Step {
    fn fmt<W: fmt::Write>(&self, f: &mut fmt::Formatter<W>) -> fmt::Result {
        let cards = Named("card", self.cards);
        let head = Named("Card", self.cards);
        match self.deed {
            Deed::Stand => write!(f, "{head} stood for leader"),
            Deed::Hear(from) => write!(f, "{head} saw the vote of card {from} and chose"),
            Deed::VoteTo(to) => write!(f, "{head} showed card {to} the vote"),
            Deed::CountVotes => write!(f, "{head} counted the votes"),
            Deed::Book(payload) => {
                let asked = Shown(payload);
                write!(f, "{head} was asked to {asked}")
            }
            Deed::HandedBy(from, parcel) => {
                write!(f, "Card {from} {parcel} to {cards}, which reported back")
            }
            Deed::SentBy(from) => write!(f, "Card {from} sent the entry off to {cards}"),
            Deed::Reads(from) => write!(
                f,
                "{head} read what card {from} had sent, and reported back"
            ),
            Deed::Confirm => write!(f, "{head} tried to confirm"),
            Deed::Follow(from) => write!(f, "Card {from} told {cards} how far to confirm"),
            Deed::Stop => write!(f, "{head} stopped"),
        }
    }
}

impl fmt::Display for Parcel {
    fn fmt<W: fmt::Write>(&self, f: &mut fmt::Formatter<W>) -> fmt::Result {
        f.write_str(match self {
            Parcel::Log => "handed its log",
            Parcel::Entry => "sent the entry",
        })
    }
}

// A reply to a deed.
#[derive(Clone, Copy)]
pub struct Told(pub Deed, pub Reply);

impl fmt::Display for Told {
    fn fmt<W: fmt::Write>(&self, f: &mut fmt::Formatter<W>) -> fmt::Result {
        match (self.0, self.1) {
            (Deed::CountVotes, Ok(Answer::ForEpoch((round, leader)))) => {
                write!(f, "elected, leads term {round}.{leader}")
            }
            (_, Ok(Answer::ForEpoch((round, leader)))) => write!(f, "term {round}.{leader}"),
            (_, Ok(Answer::Chose(choice))) => f.write_str(choice_words(choice)),
            (_, Ok(Answer::Placed((round, leader, count)))) => {
                write!(f, "written down as entry {round}.{leader}.{count}")
            }
            (Deed::SentBy(_), Ok(Answer::Count(1))) => write!(f, "on its way"),
            (Deed::SentBy(_), Ok(Answer::Count(count))) => {
                write!(f, "{count} frames on their way")
            }
            (_, Ok(Answer::Count(1))) => write!(f, "1 entry confirmed"),
            (_, Ok(Answer::Count(count))) => write!(f, "{count} entries confirmed"),
            (_, Ok(Answer::Took(intake))) => f.write_str(intake_words(intake)),
            (_, Ok(Answer::Done)) => f.write_str("done"),
            (Deed::Confirm, Err(Refusal::NothingDue)) => {
                let number = Refusal::NothingDue.number();
                write!(f, "refused by {number}, nothing may be confirmed yet")
            }
            (_, Err(refusal)) => {
                let number = refusal.number();
                let reason = reason_words(refusal);
                write!(f, "refused by {number}, {reason}")
            }
        }
    }
}

fn choice_words(choice: Choice) -> &'static str {
    match choice {
        Choice::Kept => "answer 0, kept to the vote already given",
        Choice::Stood =>
            "answer 1, stood itself, for its log holds more than the highest candidate's",
        Choice::Joined => "answer 2, joined the highest candidate",
    }
}

fn intake_words(intake: Intake) -> &'static str {
    match intake {
        Intake::PassedOver => "passed over, it came from a term already left",
        Intake::Appended => "added to the log",
        Intake::Installed => "taken over",
    }
}

fn reason_words(refusal: Refusal) -> &'static str {
    match refusal {
        Refusal::NoSuchCard => "no such card",
        Refusal::WrongSize => "sizes do not fit",
        Refusal::OutOfRange => "out of range",
        Refusal::Stopped => "the card has stopped",
        Refusal::WrongRole => "that is not the card's role",
        Refusal::NothingDue => "nothing is due",
        Refusal::NotElected => "not elected",
        Refusal::Malformed => "what came is malformed",
        Refusal::OutOfTurn => "what came is out of turn",
        Refusal::LogFull => "the log is full",
        Refusal::LaneFull => "the lane is full",
        Refusal::UsedUp => "the numbers are used up",
    }
}
