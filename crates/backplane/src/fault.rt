// Why a lane refuses a call.
ghost use Rattle.std.specs.Prelude.{◌≡◌};
ghost use Rattle.refusals.specs.Numbers.{refusal_number};
ghost use Rattle.backplane.specs.Faults.{fault_refusal};

use refusals::Refusal;

#[derive(Clone, Copy, PartialEq, Eq, Debug)]
pub enum LaneFault {
    NoSuchLane,
    Full,
    NothingThere,
}

impl LaneFault {
    // Kept: `?` and `into` give the same; by this name it is asked for where nothing is returned.
    pub fn refusal(self) -> Refusal
        ensures { result ≡ fault_refusal self }
    {
        match self {
            LaneFault::NoSuchLane => Refusal::NoSuchCard,
            LaneFault::Full => Refusal::LaneFull,
            LaneFault::NothingThere => Refusal::NothingDue,
        }
    }

    // The number by which a caller is told.
    pub fn number(self) -> u8
        ensures { result ≡ refusal_number (fault_refusal self) }
    {
        self.refusal().number()
    }
}

impl From<LaneFault> for Refusal {
    ghost from_gives = { λ a r. r ≡ fault_refusal a };

    fn from(fault: LaneFault) -> Refusal {
        fault.refusal()
    }
}
