// A call's result as its caller is told it.
ghost use Rattle.std.specs.Prelude.{◌≡◌};
ghost use Rattle.protocol.specs.declared.answer.Answer.TheVariants.{ForEpoch, Chose, Placed, Count, Took, Done};
ghost use Rattle.rack.specs.Faults.{told};

use crate::Reply;
use marks::{Epoch, Header};
use protocol::{Answer, Choice, Intake};
use rack::RackFault;
use refusals::Refusal;

// Kept: a function for each answer. One over a closure is no plainer: its contract could only speak of what the closure
// answers, and each of the ten calls would have to show that of its own. Nor is a `From` for each of the six results: the
// conversions would be these six functions, each with a type's name for its own.
pub(crate) fn tell_epoch(res: Result<Epoch, RackFault>) -> Reply
    ensures { result ≡ told ForEpoch res }
{
    Ok(Answer::ForEpoch(res?))
}

pub(crate) fn tell_choice(res: Result<Choice, RackFault>) -> Reply
    ensures { result ≡ told Chose res }
{
    Ok(Answer::Chose(res?))
}

pub(crate) fn tell_place(res: Result<Header, RackFault>) -> Reply
    ensures { result ≡ told Placed res }
{
    Ok(Answer::Placed(res?))
}

pub(crate) fn tell_count(res: Result<u32, RackFault>) -> Reply
    ensures { result ≡ told Count res }
{
    Ok(Answer::Count(res?))
}

pub(crate) fn tell_intake(res: Result<Intake, RackFault>) -> Reply
    ensures { result ≡ told Took res }
{
    Ok(Answer::Took(res?))
}

pub(crate) fn tell_done(res: Result<(), RackFault>) -> Reply
    ensures { result ≡ told (λ _. Done) res }
{
    res?;
    Ok(Answer::Done)
}
