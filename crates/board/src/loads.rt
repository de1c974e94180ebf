// Who holds each load: a carrier, or 0 where the load is open.
// Kept: 0 for an open load. The board's state in its definitions and laws is this list of numbers; with an Option of each,
// every clause would have to go from these to those.
#[derive(Drop)]
pub struct Board {
    pub(crate) holders: [u16; 64],
}
