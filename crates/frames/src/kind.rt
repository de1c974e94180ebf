// The kinds of frame.
ghost use Rattle.std.specs.Prelude.{◌≡◌};
ghost use Rattle.frames.specs.Kinds.{kind_number, kind_from};

use refusals::Refusal;

#[derive(Clone, Copy, PartialEq, Eq, Debug)]
pub enum Kind {
    Message = 1,
    DiffHead = 2,
    DiffEntry = 3,
    AcceptRow = 4,
    VoteRow = 5,
    CommitRow = 6,
}

impl Kind {
    pub fn number(self) -> u8
        ensures { result ≡ kind_number self }
    {
        self as u8
    }
}

// The kind of a number; 8 where it is no kind's.
impl TryFrom<u8> for Kind {
    type Error = Refusal;

    ghost try_from_gives = { λ n r. r ≡ kind_from n };

    fn try_from(number: u8) -> Result<Kind, Refusal> {
        match number {
            1 => Ok(Kind::Message),
            2 => Ok(Kind::DiffHead),
            3 => Ok(Kind::DiffEntry),
            4 => Ok(Kind::AcceptRow),
            5 => Ok(Kind::VoteRow),
            6 => Ok(Kind::CommitRow),
            _ => Err(Refusal::Malformed),
        }
    }
}
