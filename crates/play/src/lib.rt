// Carries out a list of calls, and hands back every answer.
#![tactic(auto)]

mod calls;
mod playing;
mod telling;

pub use playing::play;
use protocol::Answer;
use refusals::Refusal;

// What a call answers, or the refusal.
pub type Reply = Result<Answer, Refusal>;
