// How an election goes for a card, in words.
use crate::cases::Case;
use marks::rows::{count_between, largest};
use marks::{Vote, least_epoch};
use protocol::{Choice, is_majority};
use std::fmt;

impl fmt::Display for Case {
    fn fmt<W: fmt::Write>(&self, f: &mut fmt::Formatter<W>) -> fmt::Result {
        let (round, leader) = self.newest;
        let (r, l, count) = self.accepted;
        let (cards, card) = (self.cards, self.card);
        write!(
            f,
            "card {card} of {cards}: new epoch {round}.{leader}, accepted {r}.{l}.{count}"
        )?;
        let most = largest(self.own, self.votes.as_slice());
        show_vote(f, "own vote", self.own)?;
        show_vote(f, "largest vote", most)?;
        show_choice(f, self, most)?;
        show_count(f, self)
    }
}

// Kept: functions of a formatter. They are parts of one `Display`, cut at what they say; a type for each would hold the
// same arguments only to be shown once.
fn show_vote<W: fmt::Write>(f: &mut fmt::Formatter<W>, name: &str, vote: Vote) -> fmt::Result {
    let ((round, leader), (r, l, count)) = vote;
    write!(f, "\n  {name}: {round}.{leader} with {r}.{l}.{count}")
}

fn show_choice<W: fmt::Write>(f: &mut fmt::Formatter<W>, case: &Case, most: Vote) -> fmt::Result {
    match Choice::of(case.accepted, case.own, most) {
        Choice::Kept => write!(f, "\n  elect answers 0: the largest vote is the card's own"),
        Choice::Joined => write!(
            f,
            "\n  elect answers 2: it is above the card's own, which becomes the same"
        ),
        Choice::Stood => show_standing(f, case, most),
    }
}

fn show_standing<W: fmt::Write>(f: &mut fmt::Formatter<W>, case: &Case, most: Vote) -> fmt::Result {
    let above = most.0.max(case.newest);
    match least_epoch(case.card, above) {
        Ok((round, leader)) => {
            write!(
                f,
                "\n  elect answers 1: accepted is above its header, so the card stands itself"
            )?;
            write!(
                f,
                "\n  in the least epoch that it leads above {}.{}: {round}.{leader}",
                above.0, above.1
            )
        }
        Err(refusal) => {
            write!(
                f,
                "\n  elect answers {refusal}: accepted is above its header, and no epoch of the card's own is left"
            )
        }
    }
}

fn show_count<W: fmt::Write>(f: &mut fmt::Formatter<W>, case: &Case) -> fmt::Result {
    let own = case.own;
    let count = count_between(own, own, case.votes.as_slice());
    let cards = case.cards;
    if is_majority(count, cards) && own.0.1 == case.card {
        write!(
            f,
            "\n  {count} of {cards} rows equal its vote, and it leads that epoch: it may win"
        )
    } else {
        write!(
            f,
            "\n  {count} of {cards} rows equal its vote: it may not win now"
        )
    }
}
