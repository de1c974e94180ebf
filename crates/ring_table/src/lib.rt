// Which slot each frame of a lane takes: a ring of slots for each lane, whatever the slots hold.
#![tactic(auto)]

mod index;
pub mod ring;
pub mod shape;
pub mod table;

pub use ring::Ring;
pub use shape::Shape;
pub use table::RingTable;
