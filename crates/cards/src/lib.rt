// What each call does to its own card.
#![tactic(auto)]

pub mod booking;
pub mod exchange;
pub mod fault;
pub mod member;
pub mod rows;
pub mod size;
pub mod voting;

pub use fault::CardFault;
pub use member::Member;
pub use size::RackSize;
