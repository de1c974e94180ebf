// The ledger that stands alone, and the words of a sample posting.
ghost use Rattle.std.specs.Prelude.{◌≡◌};
ghost use Rattle.machines.specs.Lone.{alone};
ghost use Rattle.ledger.specs.Postings.{unpacked};
ghost use Rattle.ledger.specs.Balances.{opening, posted};
ghost use Rattle.ledger.specs.Laws.{RunsWithin, SampleWords, SampleSlot};

use crate::balances::Ledger;
use crate::postings::Posting;
use machines::{Item, Machine, Words, lone};

pub fn lone_ledger(items: &[Item]) -> Ledger
    ensures value { result.balances ≡ alone opening posted unpacked items.now }
    ensures law { RunsWithin }
{
    lone::<Ledger>(items)
}

// The words of the posting of −500 cents to carrier 2.
pub fn sample_words() -> Words
    ensures value { result ≡ (2, 2147483148, 0) }
    ensures law { SampleWords }
    ensures slot { SampleSlot }
{
    <Ledger as Machine>::pack(Posting {
        carrier: 2,
        cents: -500,
    })
}
