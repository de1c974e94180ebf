// What a line says of a payload, and what is printed of one.
use board::{Act, Board, BoardPayload, Shown};
use ledger::{Ledger, Posting};
use machines::Machine;
use refusals::Refusal;
use std::fmt;

// A machine whose payloads are written as numbers, and which is printed by what has changed in it since the start.
pub(crate) trait Printed: Machine + Drop {
    type Shown: fmt::Display + Drop;

    type Change: fmt::Display + Drop;

    // The draft of these numbers, refused where no type holds one of them; none where there are too many or too few.
    fn draft(numbers: &[i128]) -> Option<Result<Self::Draft, Refusal>>;

    fn shown(payload: Self::Payload) -> Self::Shown;

    // What stands on a line for a payload.
    fn form() -> &'static str;

    fn name() -> &'static str;

    fn items() -> u8;

    // None where the item is as it was at the start.
    fn change(&self, item: u8) -> Option<Self::Change>;

    // What is printed where no item has changed.
    fn unchanged() -> &'static str;
}

#[derive(Clone, Copy, Drop)]
pub(crate) struct Balance {
    carrier: u8,
    cents: i64,
}

#[derive(Clone, Copy, Drop)]
pub(crate) struct Held {
    load: u8,
    carrier: u16,
}

impl fmt::Display for Balance {
    fn fmt<W: fmt::Write>(&self, f: &mut fmt::Formatter<W>) -> fmt::Result {
        let Balance { carrier, cents } = *self;
        write!(f, "carrier {carrier} at {cents} cents")
    }
}

impl fmt::Display for Held {
    fn fmt<W: fmt::Write>(&self, f: &mut fmt::Formatter<W>) -> fmt::Result {
        let Held { load, carrier } = *self;
        write!(f, "load {load} held by carrier {carrier}")
    }
}

// None where a type does not hold its number.
fn posting(carrier: i128, cents: i128) -> Option<(u64, i64)> {
    Some((u64::try_from(carrier).ok()?, i64::try_from(cents).ok()?))
}

fn booking(load: i128, act: i128, carrier: i128) -> Option<(u64, Act, u64)> {
    let act = Act::try_from(u64::try_from(act).ok()?).ok()?;
    Some((u64::try_from(load).ok()?, act, u64::try_from(carrier).ok()?))
}

impl Printed for Ledger {
    type Shown = Posting;

    type Change = Balance;

    fn draft(numbers: &[i128]) -> Option<Result<(u64, i64), Refusal>> {
        match numbers {
            &[carrier, cents] => Some(posting(carrier, cents).ok_or(Refusal::OutOfRange)),
            _ => None,
        }
    }

    fn shown(payload: Posting) -> Posting {
        payload
    }

    fn form() -> &'static str {
        "CARRIER CENTS"
    }

    fn name() -> &'static str {
        "ledger"
    }

    fn items() -> u8 {
        32
    }

    fn change(&self, carrier: u8) -> Option<Balance> {
        let cents = self.balance_cents(carrier).unwrap_or(0);
        (cents != 0).then_some(Balance { carrier, cents })
    }

    fn unchanged() -> &'static str {
        "every balance is 0"
    }
}

impl Printed for Board {
    type Shown = Shown;

    type Change = Held;

    fn draft(numbers: &[i128]) -> Option<Result<(u64, Act, u64), Refusal>> {
        match numbers {
            &[load, act, carrier] => Some(booking(load, act, carrier).ok_or(Refusal::OutOfRange)),
            _ => None,
        }
    }

    fn shown(payload: BoardPayload) -> Shown {
        Shown(payload)
    }

    fn form() -> &'static str {
        "LOAD ACT CARRIER"
    }

    fn name() -> &'static str {
        "board"
    }

    fn items() -> u8 {
        64
    }

    fn change(&self, load: u8) -> Option<Held> {
        self.holder(load).map(|carrier| Held { load, carrier })
    }

    fn unchanged() -> &'static str {
        "every load is open"
    }
}
