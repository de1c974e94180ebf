// The rack: the ten calls over any backplane and any machine.
#![tactic(auto)]

mod access;
pub mod booking;
pub mod carrying;
pub mod fault;
pub mod opening;
pub mod reading;
pub mod rows;
pub mod seat;
pub mod state;
pub mod voting;

pub use fault::RackFault;
pub use seat::Seat;
pub use state::Rack;
