// The load board: 64 loads, each open or held by one carrier, changed by bookings and releases.
#![tactic(auto)]

mod acts;
mod bookings;
mod loads;
mod making;
mod runs;

pub use bookings::{Act, BoardPayload, Booking};
pub use loads::Board;
pub use making::Shown;
pub use runs::lone_board;
