// What a story is made of: who does what, and what is expected of it.
use board::BoardPayload;
use play::Reply;
use std::ops::RangeInclusive;

// Cards in a row, from the first to the last.
#[derive(Clone, Copy)]
pub struct Span {
    pub first: u8,
    pub last: u8,
}

impl Span {
    pub(crate) fn new(first: u8, last: u8) -> Span {
        Span { first, last }
    }

    pub(crate) fn one(card: u8) -> Span {
        Span::new(card, card)
    }

    // Those of the cards whose numbers are higher, if there are any.
    pub(crate) fn above(self, card: u8) -> Option<Span> {
        (card < self.last).then_some(Span::new(card.saturating_add(1), self.last))
    }

    pub(crate) fn numbers(self) -> RangeInclusive<u8> {
        self.first..=self.last
    }
}

// What a leader hands on.
#[derive(Clone, Copy)]
pub enum Parcel {
    Log,
    Entry,
}

// What each card of a span does. A number is the one card at the other end.
#[derive(Clone, Copy)]
pub enum Deed {
    Stand,
    // hears that card's vote, and chooses
    Hear(u8),
    // tells that card its vote
    VoteTo(u8),
    CountVotes,
    Book(BoardPayload),
    // takes what that card ships, and tells it how far its log reaches
    HandedBy(u8, Parcel),
    // has it shipped by that card, and takes it later
    SentBy(u8),
    Reads(u8),
    Confirm,
    // hears how far that card has confirmed, and confirms the same
    Follow(u8),
    Stop,
}

// The reply that is expected; None where any will do that is no refusal.
pub type Hope = Option<Reply>;

#[derive(Clone, Copy)]
pub struct Step {
    pub cards: Span,
    pub deed: Deed,
    pub hope: Hope,
}

impl Step {
    pub(crate) fn new(cards: Span, deed: Deed, hope: Hope) -> Step {
        Step { cards, deed, hope }
    }

    pub(crate) fn is_met_by(self, reply: Reply) -> bool {
        self.hope.map_or(reply.is_ok(), |wanted| reply == wanted)
    }
}
