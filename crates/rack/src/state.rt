// The numbers of a rack. Entries, machines and backplane are lent for each call.
ghost use Rattle.std.specs.Prelude.{◌≡◌, ℕ, ◌≤◌, true, length, slice_index, slice_index_or};
ghost use Rattle.protocol.specs.Rack.{opened_card};
ghost use Rattle.rack.specs.Seats.{cards_in, used_in};
ghost use Rattle.rack.specs.Sound.{sound_card};

use crate::seat::Seat;
use cards::RackSize;

// Kept: seven seats beside the size, as a card's table has seven rows: fixed memory, and no heap.
#[derive(Drop)]
pub struct Rack {
    pub(crate) size: RackSize,
    // of each log
    pub(crate) places: usize,
    pub(crate) tally: u64,
    pub(crate) seats: [Seat; 7],
    ghost few: { places ≤ 1024 },
    ghost seven: { length seats ≡ 7 },
    ghost fit: { (k : ℕ) → slice_index (used_in seats) k ≤ places },
    ghost sound: { (k : ℕ) → sound_card (slice_index_or (cards_in seats) k opened_card) ≡ true },
}
