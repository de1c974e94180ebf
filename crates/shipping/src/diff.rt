// A diff: its head, then every entry of the log above the base and below the epoch.
ghost use Rattle.std.specs.Prelude.{◌≡◌, ◌+◌, ◌≤◌, map, length, filter};
ghost use Rattle.backplane.specs.Ports.{SamePort, lanes_of, room_of, waits};
ghost use Rattle.frames.specs.Carried.{entry_frame, head_frame};
ghost use Rattle.frames.specs.Made.{frame_from};
ghost use Rattle.protocol.specs.Booking.{inside, diff_entries, diff_frames};
ghost use Rattle.protocol.specs.declared.answer.Answer.TheVariants.{Count};
ghost use Rattle.logs.specs.Log.{entries_of};
ghost use Rattle.cards.specs.Faults.{replied};
ghost use Rattle.cards.specs.Parts.{framed};
ghost use Rattle.cards.specs.LaneViews.{lane_fields};
ghost use Rattle.shipping.specs.Lanes.{lanes_with};
ghost use Rattle.shipping.specs.Shipping.{no_head, enter_part};

use crate::lane::put;
use backplane::{Backplane, Lane, Port, find_room};
use cards::CardFault;
use frames::{Entry, Frame};
use logs::inside_count;
use marks::{Epoch, Header, Span, header_in};

// Sends the entries that a span holds, in turn, where there is room for all.
fn send_entries<B: Backplane>(log: &[Entry], span: Span, port: &mut Port<'_, B>)
    requires { length (waits port.old) + length (filter (inside span.low span.high) (entries_of log.now)) ≤ room_of port.old }
    ensures same { SamePort port.old port.new }
    ensures lanes { lane_fields (lanes_of port.new) ≡ lanes_with port.old.lane.from port.old.lane.to port.old.lane.number (map (entry_frame 3) (filter (inside span.low span.high) (entries_of log.now))) (lane_fields (lanes_of port.old)) }
{
    for entry in log {
        if span.holds(entry.header) {
            put(port, Frame::diff_entry(*entry));
        }
    }
}

fn head_of(epoch: Epoch, base: Header, entries: usize) -> Result<Frame, CardFault>
    ensures { result ≡ framed (frame_from (head_frame epoch base entries)) }
{
    Frame::diff_head(epoch, base, entries).map_err(|_| CardFault::Malformed)
}

// Sends the diff of an epoch from a base, and says how many frames it has.
pub(crate) fn send_diff<B: Backplane>(
    epoch: Epoch,
    base: Header,
    log: &[Entry],
    backplane: &mut B,
    lane: Lane,
) -> Result<u32, CardFault>
    ensures part { (replied Count result, lane_fields (B.Backplane.lanes backplane.new)) ≡ enter_part (B.Backplane.count backplane.old) (B.Backplane.room backplane.old) lane.from lane.to lane.number (no_head epoch base (entries_of log.now)) (diff_frames epoch base (diff_entries epoch base (entries_of log.now))) (lane_fields (B.Backplane.lanes backplane.old)) }
    ensures count { B.Backplane.count backplane.new ≡ B.Backplane.count backplane.old }
    ensures room { B.Backplane.room backplane.new ≡ B.Backplane.room backplane.old }
{
    let span = Span {
        low: base,
        high: header_in(epoch, 0),
    };
    let entries = inside_count(log, span);
    let head = head_of(epoch, base, entries)?;
    find_room(backplane, lane, entries + 1)?;
    let mut port = Port { backplane, lane };
    put(&mut port, head);
    send_entries(log, span, &mut port);
    Ok(entries as u32 + 1)
}
