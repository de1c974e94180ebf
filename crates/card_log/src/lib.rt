// submit and commit, on one card and its log.
#![tactic(auto)]

mod booking;
mod delivery;

pub use booking::submit;
pub use delivery::commit;
