// What is asked of the box.
ghost use Rattle.std.specs.Prelude.{◌≡◌};
ghost use Rattle.backplane.specs.Lanes.{empty_lanes};
ghost use Rattle.frame_box.specs.Box.{box_lanes, box_within, box_nowhere};

use crate::boxed::{FrameBox, SLOTS};
use backplane::{Backplane, Lane, LaneFault};
use frames::{Frame, Kind};
use ring_table::{RingTable, Shape};

impl FrameBox {
    pub fn new() -> FrameBox
        ensures { box_lanes result ≡ empty_lanes }
    {
        let blank = Frame {
            kind: Kind::AcceptRow,
            round: 0,
            leader: 0,
            count: 0,
            w1: 0,
            w2: 0,
            w3: 0,
            w4: 0,
        };
        FrameBox {
            table: RingTable::new(Shape { cards: 3, room: 8 }),
            frames: [blank; SLOTS],
        }
    }
}

// Kept: two impls, this and that of the rings. A generic `Slotted<S: SlotStore>` would be wrapped here for `new` and the 3
// cards of every box, and again there for `over` and `slot_start`, and each wrapper calls its six methods as this one calls
// the table's.
impl Backplane for FrameBox {
    ghost count = { λ s. 3 };

    ghost room = { λ s. 8 };

    ghost lanes = { box_lanes };

    ghost within = { box_within };

    ghost nowhere = { box_nowhere };

    fn cards(&self) -> u8 {
        self.table.cards()
    }

    fn capacity(&self) -> usize {
        self.table.capacity()
    }

    #[tactic(auto, using(crate::proofs::Box::box_waiting))]
    fn waiting(&self, lane: Lane) -> Result<usize, LaneFault> {
        self.table.waiting(lane)
    }

    fn frame_at(&self, lane: Lane, position: usize) -> Result<Frame, LaneFault> {
        let slot = self.table.slot_at(lane, position)?;
        Ok(self.frames[slot])
    }

    #[tactic(auto, using(crate::proofs::Box::box_send, crate::proofs::Box::box_refuse))]
    fn send(&mut self, lane: Lane, frame: Frame) -> Result<(), LaneFault> {
        let slot = self.table.enter(lane)?;
        self.frames[slot] = frame;
        Ok(())
    }

    #[tactic(auto, using(crate::proofs::Box::box_drop))]
    fn drop_first(&mut self, lane: Lane, k: usize) -> Result<(), LaneFault> {
        self.table.leave(lane, k)
    }
}
