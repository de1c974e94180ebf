// How many cards a backplane has, and how many frames fit in a lane.
ghost use Rattle.std.specs.Prelude.{◌≤◌};

mod sizes;

#[derive(Clone, Copy, PartialEq, Eq, Debug)]
pub struct Shape {
    pub cards: u8,
    pub room: u16,
    ghost few: { cards ≤ 7 },
    ghost some: { 1 ≤ room },
    ghost most: { room ≤ 2048 },
}
