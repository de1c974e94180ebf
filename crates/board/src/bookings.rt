// A booking or a release of a load by a carrier, always within its ranges.
ghost use Rattle.std.specs.Prelude.{◌≡◌, true};
ghost use Rattle.board.specs.Ranges.{bookable};

#[derive(Clone, Copy, PartialEq, Eq, Debug)]
pub enum Act {
    Book = 1,
    Release = 2,
}

#[derive(Clone, Copy, PartialEq, Eq, Debug)]
pub struct Booking {
    pub load: u8,
    pub act: Act,
    pub carrier: u16,
    ghost inside: { bookable load carrier ≡ true },
}

// What the board is asked, if anything: the blank payload asks nothing. Its words, load 0, act 0 and carrier 0, are outside
// the ranges of a booking.
pub type BoardPayload = Option<Booking>;
