// What C and Rust reach of the rack: a static library of functions on numbers.
#![tactic(auto)]

mod alone;
mod benches;
mod calls;
mod carried;
mod desk;
mod dump;
pub mod exports;
mod lanes;
mod out;
mod session;
pub mod slots;
mod step;
mod told;
