// The board as a machine.
ghost use Rattle.std.specs.Prelude.{◌≡◌, ℕ, List as Listing};
ghost use Rattle.board.specs.Bookings.{drafted, blank_payload, packed, unpacked};
ghost use Rattle.board.specs.Loads.{reported, all_open, acted};
ghost use Rattle.board.specs.Laws.{OneHolder, HeldUntilReleased};
ghost use Rattle.board.specs.Packed.{back, other};

use crate::bookings::{Act, BoardPayload, Booking};
use crate::loads::Board;
use machines::{Machine, Words};
use refusals::Refusal;

impl Board {
    // Who holds a load; none where it is open.
    pub fn holder(&self, load: u8) -> Option<u16>
        ensures value { result ≡ reported self.now.holders load }
        ensures once { OneHolder }
    {
        let holder = self.holders.get(load as usize).copied();
        holder.filter(|carrier| *carrier != 0)
    }
}

impl Machine for Board {
    type Draft = (u64, Act, u64);

    type Payload = BoardPayload;

    ghost State = { Listing ℕ };

    ghost state = { λ s. s.holders };

    ghost initial = { all_open };

    ghost applied = { acted };

    ghost drafted = { drafted };

    ghost packed = { packed };

    ghost unpacked = { unpacked };

    ghost blank = { blank_payload };

    ghost returned = { back };

    ghost otherwise = { other };

    fn start() -> Board {
        Board { holders: [0; 64] }
    }

    fn apply(&mut self, queue: u8, payload: BoardPayload)
        ensures after { self.new.holders ≡ acted queue payload self.old.holders }
        ensures law { HeldUntilReleased }
    {
        let Some(booking) = payload else {
            return;
        };
        let index = booking.load as usize;
        let holder = self.holders[index];
        match booking.act {
            Act::Book if holder == 0 => self.holders[index] = booking.carrier,
            Act::Release if holder == booking.carrier => self.holders[index] = 0,
            _ => {}
        }
    }

    fn make(draft: (u64, Act, u64)) -> Result<BoardPayload, Refusal> {
        Ok(Some(Booking::new(draft.0, draft.1, draft.2)?))
    }

    fn pack(payload: BoardPayload) -> Words {
        match payload {
            None => (0, 0, 0),
            Some(booking) => (
                booking.load as u64,
                booking.act as u64,
                booking.carrier as u64,
            ),
        }
    }

    fn unpack(words: Words) -> BoardPayload {
        let act = Act::try_from(words.1).ok()?;
        Booking::new(words.0, act, words.2).ok()
    }

    fn blank() -> BoardPayload {
        None
    }
}
