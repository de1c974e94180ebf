// What a call answers when it is not refused.
ghost use Rattle.std.specs.Prelude.{◌≡◌};
ghost use Rattle.protocol.specs.Numbers.{choice_number, intake_number};
ghost use Rattle.protocol.specs.Voting.{choice_by};

use marks::{Epoch, Header, Vote};
use std::fmt;

// What elect chose: to keep its vote, to stand itself, or to join the largest vote.
#[derive(Clone, Copy, PartialEq, Eq, Debug)]
pub enum Choice {
    Kept = 0,
    Stood = 1,
    Joined = 2,
}

impl Choice {
    // Of the accepted header, the card's own vote and the largest one.
    pub fn of(accepted: Header, own: Vote, largest: Vote) -> Choice
        ensures { result ≡ choice_by accepted own largest }
    {
        if largest.1 < accepted {
            Choice::Stood
        } else if largest <= own {
            Choice::Kept
        } else {
            Choice::Joined
        }
    }

    pub fn number(self) -> u8
        ensures { result ≡ choice_number self }
    {
        self as u8
    }
}

impl fmt::Display for Choice {
    fn fmt<W: fmt::Write>(&self, f: &mut fmt::Formatter<W>) -> fmt::Result {
        let number = self.number();
        write!(f, "{number}")
    }
}

// What take did with a message or diff.
#[derive(Clone, Copy, PartialEq, Eq, Debug)]
pub enum Intake {
    PassedOver = 0,
    Appended = 1,
    Installed = 2,
}

impl Intake {
    pub fn number(self) -> u8
        ensures { result ≡ intake_number self }
    {
        self as u8
    }
}

impl fmt::Display for Intake {
    fn fmt<W: fmt::Write>(&self, f: &mut fmt::Formatter<W>) -> fmt::Result {
        let number = self.number();
        write!(f, "{number}")
    }
}

#[derive(Clone, Copy, PartialEq, Eq, Debug)]
pub enum Answer {
    // timeout, win
    ForEpoch(Epoch),
    // elect
    Chose(Choice),
    // submit
    Placed(Header),
    // ship: frames; commit: entries
    Count(u32),
    // take
    Took(Intake),
    // push, look, stop
    Done,
}

impl fmt::Display for Answer {
    fn fmt<W: fmt::Write>(&self, f: &mut fmt::Formatter<W>) -> fmt::Result {
        match *self {
            Answer::ForEpoch((round, leader)) => write!(f, "ok {round} {leader}"),
            Answer::Chose(choice) => write!(f, "ok {choice}"),
            Answer::Placed((round, leader, count)) => write!(f, "ok {round} {leader} {count}"),
            Answer::Count(count) => write!(f, "ok {count}"),
            Answer::Took(intake) => write!(f, "ok {intake}"),
            Answer::Done => write!(f, "ok"),
        }
    }
}
