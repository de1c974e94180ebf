// Acts by their numbers, bookings from numbers of any size, and what they print.
ghost use Rattle.std.specs.Prelude.{◌≡◌};
ghost use Rattle.std.specs.Option.{ok_or};
ghost use Rattle.refusals.specs.declared.Refusal.TheVariants.{OutOfRange};
ghost use Rattle.board.specs.Bookings.{act_number, act_of, booking};
ghost use Rattle.board.specs.Ranges.{bookable};

use crate::bookings::{Act, BoardPayload, Booking};
use refusals::Refusal;
use std::fmt;

impl Act {
    pub fn number(self) -> u8
        ensures { result ≡ act_number self }
    {
        self as u8
    }
}

impl TryFrom<u64> for Act {
    type Error = Refusal;

    ghost try_from_gives = { λ n r. r ≡ ok_or (act_of n) OutOfRange };

    fn try_from(number: u64) -> Result<Act, Refusal> {
        match number {
            1 => Ok(Act::Book),
            2 => Ok(Act::Release),
            _ => Err(Refusal::OutOfRange),
        }
    }
}

fn in_range(load: u64, carrier: u64) -> bool
    ensures { result ≡ bookable load carrier }
{
    load < 64 && (1..65536).contains(&carrier)
}

impl Booking {
    pub fn new(load: u64, act: Act, carrier: u64) -> Result<Booking, Refusal>
        ensures { result ≡ ok_or (booking (load, act, carrier)) OutOfRange }
    {
        if !in_range(load, carrier) {
            return Err(Refusal::OutOfRange);
        }
        Ok(Booking {
            load: load as u8,
            act,
            carrier: carrier as u16,
        })
    }
}

impl fmt::Display for Booking {
    fn fmt<W: fmt::Write>(&self, f: &mut fmt::Formatter<W>) -> fmt::Result {
        let load = self.load;
        let carrier = self.carrier;
        match self.act {
            Act::Book => write!(f, "book load {load} for carrier {carrier}"),
            Act::Release => write!(f, "release load {load} by carrier {carrier}"),
        }
    }
}

// A payload for a reader.
#[derive(Clone, Copy, PartialEq, Eq, Debug)]
pub struct Shown(pub BoardPayload);

impl fmt::Display for Shown {
    fn fmt<W: fmt::Write>(&self, f: &mut fmt::Formatter<W>) -> fmt::Result {
        match self.0 {
            Some(booking) => write!(f, "{booking}"),
            None => write!(f, "blank"),
        }
    }
}
