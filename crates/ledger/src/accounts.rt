// The ledger as a machine.
ghost use Rattle.std.specs.Prelude.{◌≡◌, ℕ, true, List as Listing, ℤ, Some};
ghost use Rattle.ledger.specs.Ranges.{bearable};
ghost use Rattle.ledger.specs.Laws.{ExactOrNone};
ghost use Rattle.ledger.specs.Postings.{drafted, blank_posting, packed, unpacked};
ghost use Rattle.ledger.specs.Balances.{reported, opening, posted};
ghost use Rattle.ledger.specs.Packed.{back, other};

use crate::balances::Ledger;
use crate::making::BIAS;
use crate::postings::Posting;
use machines::{Machine, Words};
use refusals::Refusal;

// The largest distance of a balance from 0.
const BOUND_CENTS: i64 = 9000000000000;

fn within_bounds(cents: i64) -> bool
    ensures { result ≡ bearable cents }
{
    (-BOUND_CENTS..=BOUND_CENTS).contains(&cents)
}

impl Ledger {
    // A carrier's balance; there is none above carrier 31.
    pub fn balance_cents(&self, carrier: u8) -> Option<i64>
        ensures value { result ≡ reported self.now.balances carrier }
        ensures within { (cents : ℤ) → result ≡ Some cents → bearable cents ≡ true }
    {
        self.balances.get(carrier as usize).copied()
    }
}

impl Machine for Ledger {
    type Draft = (u64, i64);

    type Payload = Posting;

    ghost State = { Listing ℤ };

    ghost state = { λ s. s.balances };

    ghost initial = { opening };

    ghost applied = { posted };

    ghost drafted = { drafted };

    ghost packed = { packed };

    ghost unpacked = { unpacked };

    ghost blank = { blank_posting };

    ghost returned = { back };

    ghost otherwise = { other };

    fn start() -> Ledger {
        Ledger { balances: [0; 32] }
    }

    fn apply(&mut self, queue: u8, payload: Posting)
        ensures after { self.new.balances ≡ posted queue payload self.old.balances }
        ensures law { ExactOrNone }
    {
        let index = payload.carrier as usize;
        let sum = self.balances[index] + payload.cents;
        if within_bounds(sum) {
            self.balances[index] = sum;
        }
    }

    fn make(draft: (u64, i64)) -> Result<Posting, Refusal> {
        Posting::new(draft.0, draft.1)
    }

    fn pack(payload: Posting) -> Words {
        (payload.carrier as u64, (payload.cents + BIAS) as u64, 0)
    }

    fn unpack(words: Words) -> Posting {
        let (carrier, raised, 0) = words else {
            return Self::blank();
        };
        let Ok(raised) = u32::try_from(raised) else {
            return Self::blank();
        };
        Posting::new(carrier, raised as i64 - BIAS).unwrap_or(Self::blank())
    }

    fn blank() -> Posting {
        Posting {
            carrier: 0,
            cents: 0,
        }
    }
}
