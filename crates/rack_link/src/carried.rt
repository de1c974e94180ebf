// A machine as words: what makes a payload, and its whole state.
use crate::out::Out;
use board::{Act, Board};
use ledger::Ledger;
use machines::{Machine, Words};
use refusals::Refusal;

pub(crate) trait Carried: Machine + Drop {
    fn draft(numbers: Words) -> Result<Self::Draft, Refusal>;

    fn dump(&self, out: &mut Out<'_>);
}

impl Carried for Ledger {
    fn draft(numbers: Words) -> Result<(u64, i64), Refusal> {
        Ok((numbers.0, i64::from_le_bytes(numbers.1.to_le_bytes())))
    }

    fn dump(&self, out: &mut Out<'_>) {
        for carrier in 0..32 {
            let cents = self.balance_cents(carrier).unwrap_or(0);
            out.put(u64::from_le_bytes(cents.to_le_bytes()));
        }
    }
}

impl Carried for Board {
    fn draft(numbers: Words) -> Result<(u64, Act, u64), Refusal> {
        Ok((numbers.0, Act::try_from(numbers.1)?, numbers.2))
    }

    fn dump(&self, out: &mut Out<'_>) {
        for load in 0..64 {
            out.put(self.holder(load).unwrap_or(0) as u64);
        }
    }
}
