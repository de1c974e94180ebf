// A list of calls, one after the other.
ghost use Rattle.std.specs.Prelude.{◌≡◌, List as Listing, ◌++◌, length, OnErr, OnOk};
ghost use Rattle.protocol.specs.declared.call.Call.{Call as AnyCall};
ghost use Rattle.laws.specs.Runs.{state_at};
ghost use Rattle.play.specs.Runs.{Played, play_fits, Reached};
ghost use Rattle.cards.specs.Sizes.{card_count};
ghost use Rattle.rack.specs.View.{view, sizes, machines_of};

use crate::Reply;
use crate::calls::perform;
use backplane::Backplane;
use frames::Entry;
use machines::Machine;
use protocol::Call;
use rack::{Rack, RackFault};

// Writes the reply to each call into its place. Refused by 2, before the first call, where a size does not fit.
// Kept: calls and replies as two slices of one length: the caller lends the places, since nothing allocates.
pub fn play<B: Backplane, M: Machine>(
    rack: &mut Rack,
    entries: &mut [Entry],
    machines: &mut [M],
    backplane: &mut B,
    calls: &[Call],
    replies: &mut [Reply],
) -> Result<(), RackFault>
    ensures played { Played M.Machine.initial (λ q w. M.Machine.applied q (M.Machine.unpacked w)) (sizes rack.old (B.Backplane.room backplane.old)) (play_fits rack.old entries.old machines.old (B.Backplane.count backplane.old) calls.now replies.old) calls.now (view rack.old entries.old (machines_of (card_count rack.old.size) M.Machine.state M.Machine.initial machines.old) (B.Backplane.lanes backplane.old)) (view rack.new entries.new (machines_of (card_count rack.old.size) M.Machine.state M.Machine.initial machines.new) (B.Backplane.lanes backplane.new)) replies.old replies.new result }
    ensures laws { OnOk result ((earlier : Listing AnyCall) → view rack.old entries.old (machines_of (card_count rack.old.size) M.Machine.state M.Machine.initial machines.old) (B.Backplane.lanes backplane.old) ≡ state_at M.Machine.initial (λ q w. M.Machine.applied q (M.Machine.unpacked w)) (sizes rack.old (B.Backplane.room backplane.old)) earlier (length earlier) → Reached M.Machine.initial M.Machine.applied M.Machine.unpacked (sizes rack.old (B.Backplane.room backplane.old)) (earlier ++ calls.now) (view rack.new entries.new (machines_of (card_count rack.old.size) M.Machine.state M.Machine.initial machines.new) (B.Backplane.lanes backplane.new))) }
    ensures stays { OnErr result ((entries.new ≡ entries.old) × (machines.new ≡ machines.old)) }
    ensures sizes { sizes rack.new 0 ≡ sizes rack.old 0 }
    ensures count { B.Backplane.count backplane.new ≡ B.Backplane.count backplane.old }
    ensures room { B.Backplane.room backplane.new ≡ B.Backplane.room backplane.old }
{
    if !rack.fits(entries.len(), machines.len(), backplane.cards())
        || replies.len() != calls.len()
    {
        return Err(RackFault::WrongSize);
    }
    // Kept: a place by its index. Of a slice that is gone over by an adapter of `iter_mut` it is not known what was written.
    for (k, call) in calls.iter().enumerate() {
        replies[k] = perform(rack, entries, machines, backplane, *call);
    }
    Ok(())
}
