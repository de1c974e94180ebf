// Why a call is refused. Every layer's faults lead to one of these, so a number has one meaning in the whole rack.
#![tactic(auto)]

ghost use Rattle.std.specs.Prelude.{◌≡◌};
ghost use Rattle.refusals.specs.Numbers.{refusal_number};

use std::fmt;

#[derive(Clone, Copy, PartialEq, Eq, Debug)]
pub enum Refusal {
    NoSuchCard = 1,
    WrongSize = 2,
    OutOfRange = 3,
    Stopped = 4,
    WrongRole = 5,
    NothingDue = 6,
    NotElected = 7,
    Malformed = 8,
    OutOfTurn = 9,
    LogFull = 10,
    LaneFull = 11,
    UsedUp = 12,
}

impl Refusal {
    // The number by which a caller is told.
    // Kept: a method, here and at other enums with numbers. Its name says which number it is; a `From` for u8 would not.
    pub fn number(self) -> u8
        ensures { result ≡ refusal_number self }
    {
        self as u8
    }
}

impl fmt::Display for Refusal {
    fn fmt<W: fmt::Write>(&self, f: &mut fmt::Formatter<W>) -> fmt::Result {
        let number = self.number();
        write!(f, "no {number}")
    }
}
