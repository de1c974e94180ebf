// The lane that frames enter.
ghost use Rattle.std.specs.Prelude.{◌≡◌, ◌<◌, [], ◌∷◌, ◌++◌, length};
ghost use Rattle.backplane.specs.Ports.{SamePort, lanes_of, lanes_at, room_of, waits};

use backplane::{Backplane, Port};
use frames::Frame;

// Sends a frame for which there is room.
pub(crate) fn put<B: Backplane>(port: &mut Port<'_, B>, frame: Frame)
    requires { length (waits port.old) < room_of port.old }
    ensures same { SamePort port.old port.new }
    ensures lanes { lanes_of port.new ≡ lanes_at port.old (waits port.old ++ frame ∷ []) }
{
    port.send(frame).unwrap();
}
