// The meaning of a backplane: a number of cards, a capacity, and the list of frames that wait in each lane.
ghost use Rattle.std.specs.Prelude.{◌≡◌, ℕ, ◌≤◌, false, [], length};
ghost use Rattle.backplane.specs.Lanes.{Lanes, is_lane, waiting_out, frame_out, send_out, send_lanes, drop_out, drop_lanes};

use crate::fault::LaneFault;
use crate::lane::Lane;
use frames::Frame;

pub trait Backplane {
    // how many cards there are, numbered from 1
    ghost count: { Self → ℕ };

    // how many frames fit in a lane
    ghost room: { Self → ℕ };

    // the frames that wait from a card, to a card, in a lane: the one that was sent first stands first
    ghost lanes: { Self → Lanes };

    // no lane holds more than fit
    ghost within: { (s : Self) (f t l : ℕ) → length (lanes s f t l) ≤ room s };

    // where there is no lane, nothing waits
    ghost nowhere: { (s : Self) (f t l : ℕ) → is_lane (count s) f t l ≡ false → lanes s f t l ≡ [] };

    fn cards(&self) -> u8
        ensures { result ≡ count self.now };

    fn capacity(&self) -> usize
        ensures { result ≡ room self.now };

    fn waiting(&self, lane: Lane) -> Result<usize, LaneFault>
        ensures { result ≡ waiting_out (count self.now) (lanes self.now) lane.from lane.to lane.number };

    // The frame at a position counted from 0.
    fn frame_at(&self, lane: Lane, position: usize) -> Result<Frame, LaneFault>
        ensures { result ≡ frame_out (count self.now) (lanes self.now) lane.from lane.to lane.number position };

    // Kept: `count` and `room` stand at each function that takes a backplane as `&mut`, here and above, as the contracts of the
    // rack's calls have them. Where a port is lent, `SamePort` says both.
    fn send(&mut self, lane: Lane, frame: Frame) -> Result<(), LaneFault>
        ensures answer { result ≡ send_out (count self.old) (room self.old) (lanes self.old) lane.from lane.to lane.number }
        ensures lanes { lanes self.new ≡ send_lanes (count self.old) (room self.old) (lanes self.old) lane.from lane.to lane.number frame }
        ensures count { count self.new ≡ count self.old }
        ensures room { room self.new ≡ room self.old };

    fn drop_first(&mut self, lane: Lane, k: usize) -> Result<(), LaneFault>
        ensures answer { result ≡ drop_out (count self.old) (lanes self.old) lane.from lane.to lane.number k }
        ensures lanes { lanes self.new ≡ drop_lanes (count self.old) (lanes self.old) lane.from lane.to lane.number k }
        ensures count { count self.new ≡ count self.old }
        ensures room { room self.new ≡ room self.old };
}
