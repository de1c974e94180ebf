// push and look: rows between cards, over any backplane.
#![tactic(auto)]

mod rows;

pub use rows::{look, push};
