// What a backplane means, and what can be done over any of them.
#![tactic(auto)]

pub mod fault;
pub mod lane;
pub mod lanes;
pub mod port;
mod quiet;
pub mod sending;

pub use fault::LaneFault;
pub use lane::Lane;
pub use lanes::Backplane;
pub use port::Port;
pub use quiet::is_quiet;
pub use sending::{find_room, send_all};
