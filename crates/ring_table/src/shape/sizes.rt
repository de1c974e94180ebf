// The sizes that are served.
ghost use Rattle.std.specs.Prelude.{◌≡◌, ◌≤◌};
ghost use Rattle.ring_table.specs.Shapes.{ShapeOf, slots_of};

use crate::shape::Shape;
use refusals::Refusal;

impl Shape {
    // Three, five or seven cards, and room for 1 to 2048 frames in a lane.
    pub fn of(cards: u8, room: usize) -> Result<Shape, Refusal>
        ensures { ShapeOf cards room result }
    {
        match (cards, room) {
            (3 | 5 | 7, 1..=2048) => Ok(Shape {
                cards,
                room: room as u16,
            }),
            _ => Err(Refusal::WrongSize),
        }
    }

    #[tactic(auto, using(crate::proofs::Bounds::slots_most))]
    pub fn slots(self) -> usize
        ensures value { result ≡ slots_of self.cards self.room }
        ensures most { result ≤ 401408 }
    {
        let cards = self.cards as usize;
        cards * cards * 4 * self.room as usize
    }
}
