// What is asked of the rings.
ghost use Rattle.std.specs.Prelude.{◌≡◌, ◌*◌, length, if◌then◌else◌, nat_eq};
ghost use Rattle.backplane.specs.Lanes.{empty_lanes, frame_out};
ghost use Rattle.ring_table.specs.Rings.{held};
ghost use Rattle.ring_table.specs.Shapes.{slots_of};
ghost use Rattle.ring_table.specs.Table.{slots};
ghost use Rattle.rings.specs.Slots.{SlotAt, ShapeFor};
ghost use Rattle.rings.specs.Rings.{rings_bytes, rings_lanes, rings_within, rings_nowhere};

use crate::ring::Rings;
use crate::store::Store;
use backplane::{Backplane, Lane, LaneFault};
use frames::Frame;
use frames::slot::SLOT;
use refusals::Refusal;
use ring_table::{RingTable, Shape};

// How many bytes the slots of all lanes take.
pub fn bytes_for(shape: Shape) -> usize
    ensures { result ≡ slots_of shape.cards shape.room * 48 }
{
    shape.slots() * SLOT
}

// The shape of rings over a buffer of this length.
pub fn shape_for(cards: u8, room: usize, len: usize) -> Result<Shape, Refusal>
    ensures { ShapeFor cards room len result }
{
    let shape = Shape::of(cards, room)?;
    if len != bytes_for(shape) {
        return Err(Refusal::WrongSize);
    }
    Ok(shape)
}

impl<'a> Rings<'a> {
    // Empty rings over the caller's bytes; where the buffer has not the shape's length, a backplane without cards.
    pub fn over(bytes: &'a mut [u8], shape: Shape) -> Rings<'a>
        ensures cards { result.table.shape.cards ≡ (if nat_eq (length bytes.old) (slots_of shape.cards shape.room * 48) then shape.cards else 0) }
        ensures room { result.table.shape.room ≡ shape.room }
        ensures lanes { rings_lanes result ≡ empty_lanes }
        ensures bytes { rings_bytes result ≡ bytes.old }
    {
        let cards = if bytes.len() == bytes_for(shape) {
            shape.cards
        } else {
            0
        };
        let table = RingTable::new(Shape {
            cards,
            room: shape.room,
        });
        let store = Store { bytes };
        Rings { store, table }
    }

    // Where the slot of a waiting frame begins. Which slot that is, is free; the bytes that stand there are not.
    pub fn slot_start(&self, lane: Lane, position: usize) -> Result<usize, LaneFault>
        ensures value { result ≡ held (λ j. j * 48) (frame_out self.now.table.shape.cards (slots self.now.table) lane.from lane.to lane.number position) }
        ensures bytes { SlotAt self.now.table.shape.cards (rings_lanes self.now) (rings_bytes self.now) lane.from lane.to lane.number position result }
    {
        let slot = self.table.slot_at(lane, position)?;
        Ok(slot * SLOT)
    }
}

// Kept: two impls, this and that of the frame box. A generic `Slotted<S: SlotStore>` would be wrapped here for `over` and
// `slot_start`, and each wrapper calls its six methods as this one calls the table's.
impl Backplane for Rings<'_> {
    ghost count = { λ s. s.table.shape.cards };

    ghost room = { λ s. s.table.shape.room };

    ghost lanes = { rings_lanes };

    ghost within = { rings_within };

    ghost nowhere = { rings_nowhere };

    fn cards(&self) -> u8 {
        self.table.cards()
    }

    fn capacity(&self) -> usize {
        self.table.capacity()
    }

    fn waiting(&self, lane: Lane) -> Result<usize, LaneFault> {
        self.table.waiting(lane)
    }

    // Inlined, as `send` below: a frame that is handed over by a call goes through memory.
    #[inline(always)]
    fn frame_at(&self, lane: Lane, position: usize) -> Result<Frame, LaneFault> {
        let slot = self.table.slot_at(lane, position)?;
        Ok(self.store.read(slot).unwrap())
    }

    #[tactic(auto, using(crate::proofs::Frames::sent_lanes, crate::proofs::Frames::kept_frames, crate::proofs::Frames::kept_lanes, crate::proofs::Frames::long_kept))]
    #[inline(always)]
    fn send(&mut self, lane: Lane, frame: Frame) -> Result<(), LaneFault> {
        let slot = self.table.enter(lane)?;
        self.store.write(slot, frame);
        Ok(())
    }

    #[tactic(auto, using(crate::proofs::Frames::left_frames, crate::proofs::Frames::left_lanes, crate::proofs::Frames::long_kept))]
    fn drop_first(&mut self, lane: Lane, k: usize) -> Result<(), LaneFault> {
        self.table.leave(lane, k)
    }
}
