// Why a card refuses a call: the lane's fault, or its own.
ghost use Rattle.std.specs.Prelude.{◌≡◌};
ghost use Rattle.cards.specs.Faults.{card_refusal};
ghost use Rattle.cards.specs.declared.fault.CardFault.TheVariants.{Lane};

use backplane::LaneFault;
use refusals::Refusal;

#[derive(Clone, Copy, PartialEq, Eq, Debug)]
pub enum CardFault {
    Lane(LaneFault),
    Stopped,
    WrongRole,
    NothingDue,
    NotElected,
    Malformed,
    OutOfTurn,
    LogFull,
    UsedUp,
}

impl CardFault {
    pub fn refusal(self) -> Refusal
        ensures { result ≡ card_refusal self }
    {
        match self {
            CardFault::Lane(fault) => fault.refusal(),
            CardFault::Stopped => Refusal::Stopped,
            CardFault::WrongRole => Refusal::WrongRole,
            CardFault::NothingDue => Refusal::NothingDue,
            CardFault::NotElected => Refusal::NotElected,
            CardFault::Malformed => Refusal::Malformed,
            CardFault::OutOfTurn => Refusal::OutOfTurn,
            CardFault::LogFull => Refusal::LogFull,
            CardFault::UsedUp => Refusal::UsedUp,
        }
    }
}

impl From<LaneFault> for CardFault {
    ghost from_gives = { λ f r. r ≡ Lane f };

    fn from(fault: LaneFault) -> CardFault {
        CardFault::Lane(fault)
    }
}
