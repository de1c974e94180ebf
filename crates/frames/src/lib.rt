// Entries, frames, and the 48 bytes of a frame's slot.
#![tactic(auto)]

pub mod carried;
pub mod entry;
pub mod frame;
pub mod kind;
pub mod make;
pub mod slot;

pub use entry::{Entry, Words};
pub use frame::Frame;
pub use kind::Kind;
