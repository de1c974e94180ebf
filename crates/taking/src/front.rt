// What waits in front of a lane.
ghost use Rattle.std.specs.Prelude.{◌≡◌, true};
ghost use Rattle.frames.specs.Views.{frame_fields};
ghost use Rattle.protocol.specs.Taking.{is_diff};
ghost use Rattle.taking.specs.Openings.{Opens, OpensDiff, lane_of};

use crate::diff::OpenedDiff;
use backplane::{Backplane, LaneFault, Port};
use cards::CardFault;
use frames::{Entry, Frame, Kind};

pub(crate) enum Front {
    Message(Entry),
    Diff(OpenedDiff),
}

fn open_diff<B: Backplane>(port: &Port<'_, B>, head: Frame) -> Result<OpenedDiff, CardFault>
    requires { is_diff (frame_fields head) ≡ true }
    ensures { OpensDiff (frame_fields head) (lane_of port.now) result }
{
    let diff = OpenedDiff::of(head);
    if diff.is_whole(port) {
        Ok(diff)
    } else {
        diff.put_back();
        Err(CardFault::Malformed)
    }
}

// The message or whole diff in front, if its sender leads its epoch.
pub(crate) fn open<B: Backplane>(port: &Port<'_, B>) -> Result<Front, CardFault>
    ensures { Opens port.now.lane.from (lane_of port.now) result }
{
    let frame = port.frame_at(0).ok_or(LaneFault::NothingThere)?;
    match frame.kind {
        _ if frame.leader != port.lane.from => Err(CardFault::Malformed),
        Kind::Message => Ok(Front::Message(frame.entry().unwrap())),
        Kind::DiffHead => Ok(Front::Diff(open_diff(port, frame)?)),
        _ => Err(CardFault::Malformed),
    }
}
