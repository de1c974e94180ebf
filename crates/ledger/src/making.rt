// Postings from numbers of any size, and what they print.
ghost use Rattle.std.specs.Prelude.{◌≡◌};
ghost use Rattle.std.specs.Option.{ok_or};
ghost use Rattle.refusals.specs.declared.Refusal.TheVariants.{OutOfRange};
ghost use Rattle.ledger.specs.Postings.{drafted};
ghost use Rattle.ledger.specs.Ranges.{postable};

use crate::postings::Posting;
use refusals::Refusal;
use std::fmt;

// What an amount is raised by, so that its word is never negative.
pub const BIAS: i64 = 2147483648;

fn in_range(carrier: u64, cents: i64) -> bool
    ensures { result ≡ postable carrier cents }
{
    carrier < 32 && (-BIAS..BIAS).contains(&cents)
}

impl Posting {
    pub fn new(carrier: u64, cents: i64) -> Result<Posting, Refusal>
        ensures { result ≡ ok_or (drafted (carrier, cents)) OutOfRange }
    {
        if !in_range(carrier, cents) {
            return Err(Refusal::OutOfRange);
        }
        Ok(Posting {
            carrier: carrier as u8,
            cents,
        })
    }
}

impl fmt::Display for Posting {
    fn fmt<W: fmt::Write>(&self, f: &mut fmt::Formatter<W>) -> fmt::Result {
        write!(f, "post {} cents to carrier {}", self.cents, self.carrier)
    }
}
