// What every machine of the rack is, and the machine that stands alone.
#![tactic(auto)]

mod meaning;
mod runs;
mod turns;

// A packed payload.
pub use frames::Words;
pub use meaning::Machine;
pub use runs::{Item, lone};
pub use turns::{apply_words, perform, through_words};
