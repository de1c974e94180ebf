// The rings: which slot holds which frame is the table's, the bytes are the caller's.
ghost use Rattle.std.specs.Prelude.{◌≡◌, ℕ, ◌*◌, ◌≤◌, true, length};
ghost use Rattle.ring_table.specs.Rings.{through};
ghost use Rattle.ring_table.specs.Shapes.{slots_of};
ghost use Rattle.ring_table.specs.Table.{slots};
ghost use Rattle.rings.specs.Slots.{is_frame_at, every};

use crate::store::Store;
use ring_table::RingTable;

mod calls;

pub use calls::{bytes_for, shape_for};

#[derive(Drop)]
pub struct Rings<'a> {
    store: Store<'a>,
    table: RingTable,
    ghost long: { slots_of table.shape.cards table.shape.room * 48 ≤ length store.bytes.now },
    ghost frames: { (f t l : ℕ) → every (through (is_frame_at store.bytes.now) (slots table) f t l) ≡ true },
}
