// A card's log in its part of lent places. One that is only read is a slice of its entries, the oldest first; one that
// is edited is a `Log`.
#![tactic(auto)]

mod delivery;
mod edits;
mod log;
mod reads;

pub use delivery::{Delivered, deliver, deliver_one};
pub use log::Log;
pub use reads::{count_up_to, entry_at, inside_count, read_up_to};
