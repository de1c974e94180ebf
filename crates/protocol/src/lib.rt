// The cards of a rack, and what each of the ten calls does to them.
#![tactic(auto)]

ghost use Rattle.protocol.specs.Samples.{CutSample, StandSample};

pub mod answer;
pub mod call;
pub mod card;
pub mod peers;

pub use answer::{Answer, Choice, Intake};
pub use call::Call;
pub use card::{Card, Role, is_majority};
pub use peers::{Copied, PeerRow, PeerTable};

// The definitions at small values.
pub fn samples<S>()
    ensures cut { CutSample }
    ensures stand { StandSample S }
{}
