// A message: the entry of one header.
ghost use Rattle.std.specs.Prelude.{◌≡◌, false};
ghost use Rattle.protocol.specs.Booking.{entry_at, message_frames};
ghost use Rattle.protocol.specs.declared.answer.Answer.TheVariants.{Count};
ghost use Rattle.logs.specs.Log.{entries_of};
ghost use Rattle.cards.specs.Faults.{replied};
ghost use Rattle.cards.specs.LaneViews.{lane_fields};
ghost use Rattle.shipping.specs.Shipping.{enter_part};

use crate::lane::put;
use backplane::{Backplane, Lane, Port, find_room};
use cards::CardFault;
use frames::{Entry, Frame};
use logs::entry_at;
use marks::Header;

pub(crate) fn send_message<B: Backplane>(
    header: Header,
    log: &[Entry],
    backplane: &mut B,
    lane: Lane,
) -> Result<u32, CardFault>
    ensures part { (replied Count result, lane_fields (B.Backplane.lanes backplane.new)) ≡ enter_part (B.Backplane.count backplane.old) (B.Backplane.room backplane.old) lane.from lane.to lane.number false (message_frames (entry_at header (entries_of log.now))) (lane_fields (B.Backplane.lanes backplane.old)) }
    ensures count { B.Backplane.count backplane.new ≡ B.Backplane.count backplane.old }
    ensures room { B.Backplane.room backplane.new ≡ B.Backplane.room backplane.old }
{
    let entry = entry_at(log, header).ok_or(CardFault::NothingDue)?;
    find_room(backplane, lane, 1)?;
    put(&mut Port { backplane, lane }, Frame::message(entry));
    Ok(1)
}
