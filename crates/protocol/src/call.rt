// The ten calls, with any numbers.
use frames::Words;

#[derive(Clone, Copy, PartialEq, Eq, Debug)]
pub enum Call {
    // card
    Timeout(u8),
    Elect(u8),
    Win(u8),
    // card, queue, payload
    Submit(u8, u8, Words),
    // card, peer
    Ship(u8, u8),
    Take(u8, u8),
    // card, peer, row kind
    Push(u8, u8, u8),
    Look(u8, u8, u8),
    // card
    Commit(u8),
    Stop(u8),
}
