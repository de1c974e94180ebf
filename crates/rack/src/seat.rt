// A card in its place of the rack.
ghost use Rattle.std.specs.Prelude.{◌≡◌};
ghost use Rattle.rack.specs.Seats.{opened_seat};

use protocol::Card;

#[derive(Clone, Copy, PartialEq, Eq, Debug)]
pub struct Seat {
    pub card: Card,
    // how many places of its log are used
    pub used: usize,
}

impl Seat {
    // All marks null, and an empty log.
    pub(crate) fn opened() -> Seat
        ensures { result ≡ opened_seat }
    {
        Seat {
            card: Card::opened(),
            used: 0,
        }
    }
}
