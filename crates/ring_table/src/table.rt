// A ring of slots for each lane.
ghost use Rattle.std.specs.Prelude.{◌≡◌, ℕ, ◌<◌, ◌≤◌, length};
ghost use Rattle.ring_table.specs.Ring.{ring_at};

use crate::ring::Ring;
use crate::shape::Shape;

mod calls;

// seven cards, and four lanes for each pair
pub const RINGS: usize = 196;

#[derive(Drop)]
pub struct RingTable {
    shape: Shape,
    rings: [Ring; RINGS],
    ghost long: { length rings ≡ 196 },
    ghost headed: { (i : ℕ) → (ring_at rings i).head < shape.room },
    ghost held: { (i : ℕ) → (ring_at rings i).count ≤ shape.room },
}
