// One call on the rack that it names.
ghost use Rattle.std.specs.Prelude.{◌≡◌, true};
ghost use Rattle.protocol.specs.Step.{step};
ghost use Rattle.cards.specs.Sizes.{card_count};
ghost use Rattle.rack.specs.View.{view, sizes, machines_of, entries_fit, machines_fit, cards_fit};

use crate::Reply;
use crate::telling::{tell_choice, tell_count, tell_done, tell_epoch, tell_intake, tell_place};
use backplane::Backplane;
use frames::Entry;
use machines::Machine;
use protocol::Call;
use rack::Rack;

// Kept: rack, entries, machines and backplane as four. Each call is lent other ones of them, and a struct of all would have to
// be taken apart for each.
pub(crate) fn perform<B: Backplane, M: Machine>(
    rack: &mut Rack,
    entries: &mut [Entry],
    machines: &mut [M],
    backplane: &mut B,
    call: Call,
) -> Reply
    requires entries { entries_fit rack.old entries.old ≡ true }
    requires machines { machines_fit rack.old machines.old ≡ true }
    requires cards { cards_fit rack.old (B.Backplane.count backplane.old) ≡ true }
    ensures step { (result, view rack.new entries.new (machines_of (card_count rack.old.size) M.Machine.state M.Machine.initial machines.new) (B.Backplane.lanes backplane.new)) ≡ step (λ q w. M.Machine.applied q (M.Machine.unpacked w)) (sizes rack.old (B.Backplane.room backplane.old)) call (view rack.old entries.old (machines_of (card_count rack.old.size) M.Machine.state M.Machine.initial machines.old) (B.Backplane.lanes backplane.old)) }
    ensures sizes { sizes rack.new 0 ≡ sizes rack.old 0 }
    ensures count { B.Backplane.count backplane.new ≡ B.Backplane.count backplane.old }
    ensures room { B.Backplane.room backplane.new ≡ B.Backplane.room backplane.old }
{
    // Kept: a call is a value that comes from a list, so which function it names is found by a match; a list of closures would
    // say the same once more, and could not be printed or compared.
    match call {
        Call::Timeout(card) => tell_epoch(rack.timeout(card)),
        Call::Elect(card) => tell_choice(rack.elect(card)),
        Call::Win(card) => tell_epoch(rack.win(card)),
        Call::Submit(card, queue, payload) => tell_place(rack.submit(
            entries, card, queue, payload,
        )),
        Call::Ship(card, peer) => tell_count(rack.ship(entries, backplane, card, peer)),
        Call::Take(card, peer) => tell_intake(rack.take(entries, backplane, card, peer)),
        Call::Push(card, peer, kind) => tell_done(rack.push(backplane, card, peer, kind)),
        Call::Look(card, peer, kind) => tell_done(rack.look(backplane, card, peer, kind)),
        Call::Commit(card) => tell_count(rack.commit(entries, machines, card)),
        Call::Stop(card) => tell_done(rack.stop(card)),
    }
}
