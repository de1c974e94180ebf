// A rack has three, five or seven cards.
ghost use Rattle.std.specs.Prelude.{◌≡◌};
ghost use Rattle.cards.specs.Sizes.{card_count, size_of};

use refusals::Refusal;

#[derive(Clone, Copy, PartialEq, Eq, Debug)]
pub enum RackSize {
    Three = 3,
    Five = 5,
    Seven = 7,
}

// 2 for any other number.
impl TryFrom<u8> for RackSize {
    type Error = Refusal;

    ghost try_from_gives = { λ n r. r ≡ size_of n };

    fn try_from(cards: u8) -> Result<RackSize, Refusal> {
        match cards {
            3 => Ok(RackSize::Three),
            5 => Ok(RackSize::Five),
            7 => Ok(RackSize::Seven),
            _ => Err(Refusal::WrongSize),
        }
    }
}

impl RackSize {
    pub fn cards(self) -> u8
        ensures { result ≡ card_count self }
    {
        self as u8
    }
}
