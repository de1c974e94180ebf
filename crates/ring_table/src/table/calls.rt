// What is asked of the rings. The slot of a frame that enters is the table's choice; that it is free is not.
ghost use Rattle.std.specs.Prelude.{◌≡◌, ◌<◌, IfOk};
ghost use Rattle.backplane.specs.Lanes.{empty_lanes, waiting_out, frame_out, drop_out, drop_lanes};
ghost use Rattle.ring_table.specs.Ring.{ring_at};
ghost use Rattle.ring_table.specs.Rings.{wrapped, ring_slot, Entered};
ghost use Rattle.ring_table.specs.Shapes.{slots_of};
ghost use Rattle.ring_table.specs.Table.{slots};

use crate::ring::Ring;
use crate::shape::Shape;
use crate::table::{RINGS, RingTable};
use backplane::{Lane, LaneFault};

impl RingTable {
    pub fn new(shape: Shape) -> RingTable
        ensures cards { result.shape.cards ≡ shape.cards }
        ensures room { result.shape.room ≡ shape.room }
        ensures slots { slots result ≡ empty_lanes }
    {
        RingTable {
            shape,
            rings: [Ring { head: 0, count: 0 }; RINGS],
        }
    }

    pub fn cards(&self) -> u8
        ensures { result ≡ self.now.shape.cards }
    {
        self.shape.cards
    }

    pub fn capacity(&self) -> usize
        ensures { result ≡ self.now.shape.room }
    {
        self.shape.room as usize
    }

    #[tactic(auto, using(crate::proofs::Calls::waiting_there))]
    pub fn waiting(&self, lane: Lane) -> Result<usize, LaneFault>
        ensures { result ≡ waiting_out self.now.shape.cards (slots self.now) lane.from lane.to lane.number }
    {
        let place = self.shape.place(lane)?;
        Ok(self.rings[place].count as usize)
    }

    #[tactic(auto, using(crate::proofs::Calls::slot_there, crate::proofs::Calls::slot_past, crate::proofs::Calls::slot_below))]
    pub fn slot_at(&self, lane: Lane, position: usize) -> Result<usize, LaneFault>
        ensures value { result ≡ frame_out self.now.shape.cards (slots self.now) lane.from lane.to lane.number position }
        ensures below { IfOk result (λ j. j < slots_of self.now.shape.cards self.now.shape.room) }
    {
        let place = self.shape.place(lane)?;
        if position >= self.rings[place].count as usize {
            return Err(LaneFault::NothingThere);
        }
        Ok(self.slot(place, position as u16))
    }

    #[tactic(auto, using(crate::proofs::Calls::full_there))]
    pub fn enter(&mut self, lane: Lane) -> Result<usize, LaneFault>
        ensures entered { Entered self.old.shape.cards self.old.shape.room (slots self.old) (slots self.new) lane.from lane.to lane.number result }
        ensures cards { self.new.shape.cards ≡ self.old.shape.cards }
        ensures room { self.new.shape.room ≡ self.old.shape.room }
    {
        let place = self.shape.place(lane)?;
        let ring = self.rings[place];
        if ring.count >= self.shape.room {
            return Err(LaneFault::Full);
        }
        let slot = self.slot(place, ring.count);
        self.rings[place] = Ring {
            count: ring.count + 1,
            ..ring
        };
        Ok(slot)
    }

    pub fn leave(&mut self, lane: Lane, k: usize) -> Result<(), LaneFault>
        ensures answer { result ≡ drop_out self.old.shape.cards (slots self.old) lane.from lane.to lane.number k }
        ensures slots { slots self.new ≡ drop_lanes self.old.shape.cards (slots self.old) lane.from lane.to lane.number k }
        ensures cards { self.new.shape.cards ≡ self.old.shape.cards }
        ensures room { self.new.shape.room ≡ self.old.shape.room }
    {
        let place = self.shape.place(lane)?;
        let ring = self.rings[place];
        if k > ring.count as usize {
            return Err(LaneFault::NothingThere);
        }
        let gone = k as u16;
        self.rings[place] = Ring {
            head: wrap(self.shape.room, ring.head + gone),
            count: ring.count - gone,
        };
        Ok(())
    }

    // The slot so many places behind a ring's head.
    fn slot(&self, place: usize, position: u16) -> usize
        requires place { place < 196 }
        requires position { position < self.now.shape.room }
        ensures { result ≡ ring_slot self.now.shape.room place (ring_at self.now.rings place).head position }
    {
        let behind = wrap(self.shape.room, self.rings[place].head + position);
        place * self.shape.room as usize + behind as usize
    }
}

fn wrap(room: u16, place: u16) -> u16
    ensures { result ≡ wrapped room place }
{
    if place < room { place } else { place - room }
}
