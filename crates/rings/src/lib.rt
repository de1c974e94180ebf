// A backplane in bytes that the caller lends: a ring of 48-byte slots for each lane.
#![tactic(auto)]

pub mod ring;
mod store;

pub use ring::{Rings, bytes_for, shape_for};
