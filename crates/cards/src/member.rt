// A card's place in a rack: of how many cards it is one, and which.
use crate::size::RackSize;

#[derive(Clone, Copy, PartialEq, Eq, Debug)]
pub struct Member {
    pub size: RackSize,
    pub number: u8,
}
