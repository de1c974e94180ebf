// Why the rack refuses a call: the card's fault, or the caller's.
ghost use Rattle.std.specs.Prelude.{◌≡◌};
ghost use Rattle.rack.specs.Faults.{rack_refusal};
ghost use Rattle.rack.specs.declared.fault.RackFault.TheVariants.{Card as OfCard};

use cards::CardFault;
use refusals::Refusal;

#[derive(Clone, Copy, PartialEq, Eq, Debug)]
pub enum RackFault {
    Card(CardFault),
    NoSuchCard,
    WrongSize,
    OutOfRange,
}

impl RackFault {
    pub fn refusal(self) -> Refusal
        ensures { result ≡ rack_refusal self }
    {
        match self {
            RackFault::Card(fault) => fault.refusal(),
            RackFault::NoSuchCard => Refusal::NoSuchCard,
            RackFault::WrongSize => Refusal::WrongSize,
            RackFault::OutOfRange => Refusal::OutOfRange,
        }
    }
}

impl From<CardFault> for RackFault {
    ghost from_gives = { λ f r. r ≡ OfCard f };

    fn from(fault: CardFault) -> RackFault {
        RackFault::Card(fault)
    }
}

impl From<RackFault> for Refusal {
    ghost from_gives = { λ f r. r ≡ rack_refusal f };

    fn from(fault: RackFault) -> Refusal {
        fault.refusal()
    }
}
