// What any machine does with one payload.
ghost use Rattle.std.specs.Prelude.{◌≡◌};
ghost use Rattle.std.specs.Option.{ok_or};
ghost use Rattle.refusals.specs.declared.Refusal.TheVariants.{OutOfRange};
ghost use Rattle.machines.specs.Turn.{performed};

use crate::meaning::Machine;
use frames::Words;
use refusals::Refusal;

// Makes a payload and applies it; what cannot be made leaves the machine as it is.
pub fn perform<M: Machine>(
    machine: &mut M,
    queue: u8,
    draft: M::Draft,
) -> Result<M::Payload, Refusal>
    ensures value { result ≡ ok_or (M.Machine.drafted draft) OutOfRange }
    ensures after { M.Machine.state machine.new ≡ performed M.Machine.applied queue (M.Machine.drafted draft) (M.Machine.state machine.old) }
{
    let payload = M::make(draft)?;
    machine.apply(queue, payload);
    Ok(payload)
}

// Applies what words unpack to, and gives that payload back.
pub fn apply_words<M: Machine>(machine: &mut M, queue: u8, words: Words) -> M::Payload
    ensures value { result ≡ M.Machine.unpacked words }
    ensures after { M.Machine.state machine.new ≡ M.Machine.applied queue (M.Machine.unpacked words) (M.Machine.state machine.old) }
{
    let unpacked = M::unpack(words);
    machine.apply(queue, unpacked);
    unpacked
}

// A payload that travels as words arrives as it left.
pub fn through_words<M: Machine>(payload: M::Payload) -> M::Payload
    ensures { result ≡ payload }
{
    M::unpack(M::pack(payload))
}
