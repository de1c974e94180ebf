// What can be done at a lane that there is.
ghost use Rattle.std.specs.Prelude.{◌≡◌, [], ◌∷◌, ◌++◌, if◌then◌else◌, length, drop, Ok, Err, nat_lt, nat_le};
ghost use Rattle.std.specs.List.{slice_get};
ghost use Rattle.backplane.specs.declared.fault.LaneFault.TheVariants.{Full, NothingThere};

use crate::fault::LaneFault;
use crate::lanes::Backplane;
use crate::port::Port;
use frames::Frame;

impl<B: Backplane> Port<'_, B> {
    ghost use Rattle.backplane.specs.Ports.{room_of, lanes_of, waits, lanes_at, SamePort};

    pub fn send(&mut self, frame: Frame) -> Result<(), LaneFault>
        ensures same { SamePort self.old self.new }
        ensures answer { result ≡ (if nat_le (room_of self.old) (length (waits self.old)) then Err Full else Ok tt) }
        ensures lanes { lanes_of self.new ≡ (if nat_lt (length (waits self.old)) (room_of self.old) then lanes_at self.old (waits self.old ++ frame ∷ []) else lanes_of self.old) }
    {
        self.backplane.send(self.lane, frame)
    }

    // The frame at a position counted from 0.
    pub fn frame_at(&self, position: usize) -> Option<Frame>
        ensures { result ≡ slice_get (waits self.now) position }
    {
        self.backplane.frame_at(self.lane, position).ok()
    }

    pub fn drop_first(&mut self, k: usize) -> Result<(), LaneFault>
        ensures same { SamePort self.old self.new }
        ensures answer { result ≡ (if nat_lt (length (waits self.old)) k then Err NothingThere else Ok tt) }
        ensures lanes { lanes_of self.new ≡ (if nat_le k (length (waits self.old)) then lanes_at self.old (drop k (waits self.old)) else lanes_of self.old) }
    {
        self.backplane.drop_first(self.lane, k)
    }
}
