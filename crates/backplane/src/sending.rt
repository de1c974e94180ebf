// Sending several frames at once, over any backplane.
ghost use Rattle.std.specs.Prelude.{◌≡◌, length};
ghost use Rattle.backplane.specs.Lanes.{room_out, send_all_out, send_all_lanes};

use crate::fault::LaneFault;
use crate::lane::Lane;
use crate::lanes::Backplane;
use frames::Frame;

// Whether so many frames more fit.
pub fn find_room<B: Backplane>(backplane: &B, lane: Lane, count: usize) -> Result<(), LaneFault>
    ensures { result ≡ room_out (B.Backplane.count backplane.now) (B.Backplane.room backplane.now) lane.from lane.to lane.number (length (B.Backplane.lanes backplane.now lane.from lane.to lane.number)) count }
{
    let waiting = backplane.waiting(lane)?;
    if backplane.capacity().saturating_sub(waiting) < count {
        return Err(LaneFault::Full);
    }
    Ok(())
}

// All frames enter the lane, or none does.
pub fn send_all<B: Backplane>(
    backplane: &mut B,
    lane: Lane,
    frames: &[Frame],
) -> Result<(), LaneFault>
    ensures answer { result ≡ send_all_out (B.Backplane.count backplane.old) (B.Backplane.room backplane.old) (B.Backplane.lanes backplane.old) lane.from lane.to lane.number frames.now }
    ensures lanes { B.Backplane.lanes backplane.new ≡ send_all_lanes (B.Backplane.count backplane.old) (B.Backplane.room backplane.old) (B.Backplane.lanes backplane.old) lane.from lane.to lane.number frames.now }
    ensures count { B.Backplane.count backplane.new ≡ B.Backplane.count backplane.old }
    ensures room { B.Backplane.room backplane.new ≡ B.Backplane.room backplane.old }
{
    find_room(backplane, lane, frames.len())?;
    for frame in frames {
        backplane.send(lane, *frame)?;
    }
    Ok(())
}
