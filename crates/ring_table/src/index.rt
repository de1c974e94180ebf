// Where a lane's ring stands.
ghost use Rattle.ring_table.specs.Index.{Indexed};

use crate::shape::Shape;
use backplane::{Lane, LaneFault};

impl Shape {
    // A lane's place in a table of cards × cards × 4 rings.
    pub(crate) fn place(self, lane: Lane) -> Result<usize, LaneFault>
        ensures { Indexed self.cards lane.from lane.to lane.number result }
    {
        let cards = 1..=self.cards;
        if !cards.contains(&lane.from) || !cards.contains(&lane.to) || lane.from == lane.to {
            return Err(LaneFault::NoSuchLane);
        }
        let row = match lane.number {
            0 => 0,
            4..=6 => lane.number - 3,
            _ => return Err(LaneFault::NoSuchLane),
        };
        let sender = (lane.from - 1) as usize;
        let receiver = (lane.to - 1) as usize;
        Ok((sender * self.cards as usize + receiver) * 4 + row as usize)
    }
}
