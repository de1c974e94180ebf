// A backplane for three cards that keeps whole frames, eight to a lane.
#![tactic(auto)]

pub mod boxed;

pub use boxed::FrameBox;
