// A call on a backplane as a value, and its answer.
#![tactic(auto)]

ghost use Rattle.std.specs.Prelude.{◌≡◌};
ghost use Rattle.lane_calls.specs.Calls.{call_out, call_lanes};

use backplane::Backplane;
pub use backplane::Lane;
use frames::Frame;
use refusals::Refusal;
use std::fmt;

// Numbers that are no frame's are a call too, with the refusal that they meet.
#[derive(Clone, Copy, PartialEq, Eq, Debug)]
pub enum Call {
    Send(Lane, Result<Frame, Refusal>),
    Drop(Lane, usize),
    Waiting(Lane),
    At(Lane, usize),
}

#[derive(Clone, Copy, PartialEq, Eq, Debug)]
pub enum Answer {
    Done,
    Count(usize),
    Shown(Frame),
}

pub type Reply = Result<Answer, Refusal>;

pub fn apply<B: Backplane>(backplane: &mut B, call: Call) -> Reply
    ensures answer { result ≡ call_out (B.Backplane.count backplane.old) (B.Backplane.room backplane.old) (B.Backplane.lanes backplane.old) call }
    ensures lanes { B.Backplane.lanes backplane.new ≡ call_lanes (B.Backplane.count backplane.old) (B.Backplane.room backplane.old) (B.Backplane.lanes backplane.old) call }
{
    // Kept: a call is a value read from a line, so which call it is is found by a match.
    match call {
        Call::Send(lane, frame) => {
            // A lane that is missing is found before a frame that is malformed.
            backplane.waiting(lane)?;
            backplane.send(lane, frame?)?;
            Ok(Answer::Done)
        }
        Call::Drop(lane, k) => {
            backplane.drop_first(lane, k)?;
            Ok(Answer::Done)
        }
        Call::Waiting(lane) => Ok(Answer::Count(backplane.waiting(lane)?)),
        Call::At(lane, position) => Ok(Answer::Shown(backplane.frame_at(lane, position)?)),
    }
}

impl fmt::Display for Answer {
    fn fmt<W: fmt::Write>(&self, f: &mut fmt::Formatter<W>) -> fmt::Result {
        match self {
            Answer::Done => write!(f, "ok"),
            Answer::Count(count) => write!(f, "ok {count}"),
            Answer::Shown(frame) => write!(f, "ok {frame}"),
        }
    }
}
