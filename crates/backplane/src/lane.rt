// Which lane: from a card, to a card, and its number.
#[derive(Clone, Copy, PartialEq, Eq, Debug)]
pub struct Lane {
    pub from: u8,
    pub to: u8,
    pub number: u8,
}
