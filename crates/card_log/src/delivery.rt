// commit: what is due goes to the card's machine.
ghost use Rattle.std.specs.Prelude.{◌≡◌, ◌+◌, ◌<◌, ◌≤◌, length, IfOk, OnErr, OnOk};
ghost use Rattle.protocol.specs.declared.answer.Answer.TheVariants.{Count};
ghost use Rattle.logs.specs.Log.{entries_of};
ghost use Rattle.cards.specs.Faults.{replied};
ghost use Rattle.card_log.specs.Parts.{delivery_of, machine_after, commit_log};

use cards::{CardFault, Member};
use frames::Entry;
use logs::{Delivered, deliver, deliver_one, entry_at};
use machines::Machine;
use marks::Span;
use protocol::{Card, Role};

// With next's count 0 every entry above committed and below next, otherwise the entry at next, which must be there.
fn deliver_due<M: Machine>(
    card: &Card,
    log: &[Entry],
    machine: &mut M,
) -> Result<Delivered, CardFault>
    ensures answer { result ≡ delivery_of card.now (entries_of log.now) }
    ensures state { M.Machine.state machine.new ≡ machine_after (λ q w. M.Machine.applied q (M.Machine.unpacked w)) card.now (entries_of log.now) (M.Machine.state machine.old) }
    ensures more { OnOk result (card.now.next.2 < 4294967295) }
    ensures few { IfOk result (λ d. d.count ≤ length log.now + 1) }
    ensures stays { OnErr result (machine.new ≡ machine.old) }
{
    if card.next.2 == 0 {
        let span = Span {
            low: card.committed,
            high: card.next,
        };
        return Ok(deliver(log, span, machine));
    }
    let Some(entry) = entry_at(log, card.next) else {
        return Err(CardFault::NothingDue);
    };
    deliver_one(entry, machine);
    Ok(Delivered {
        count: 1,
        last: entry.header,
    })
}

// Kept: a call's checks stand in it one by one, in the order of their refusals' numbers, as its definition lists them. A
// function for each would take the order out of sight.
// Delivers what is due, once it is supported, and moves committed and next on.
pub fn commit<M: Machine>(
    card: &mut Card,
    log: &[Entry],
    machine: &mut M,
    member: Member,
) -> Result<usize, CardFault>
    ensures part { (replied Count result, (card.new, M.Machine.state machine.new)) ≡ commit_log (λ q w. M.Machine.applied q (M.Machine.unpacked w)) member.size member.number (entries_of log.now) (card.old, M.Machine.state machine.old) }
    ensures few { IfOk result (λ k. k ≤ length log.now + 1) }
    ensures stays { OnErr result (machine.new ≡ machine.old) }
{
    if card.stopped {
        return Err(CardFault::Stopped);
    }
    if card.role == Role::Electing {
        return Err(CardFault::WrongRole);
    }
    if !member.is_supported(card) {
        return Err(CardFault::NothingDue);
    }
    let delivered = deliver_due(card, log, machine)?;
    card.committed = delivered.last;
    card.next.2 += 1;
    Ok(delivered.count)
}
