// The frames of every lane, each in a slot that the table of rings chose.
ghost use Rattle.std.specs.Prelude.{◌≡◌, length};

use frames::Frame;
use ring_table::RingTable;

mod calls;

// three cards, four lanes for each pair, eight frames to a lane
pub const SLOTS: usize = 288;

#[derive(Drop)]
pub struct FrameBox {
    table: RingTable,
    frames: [Frame; SLOTS],
    ghost three: { table.shape.cards ≡ 3 },
    ghost eight: { table.shape.room ≡ 8 },
    ghost long: { length frames ≡ 288 },
}
