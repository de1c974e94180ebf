// The lane that frames leave.
ghost use Rattle.std.specs.Prelude.{◌≡◌, ◌≤◌, length, drop};
ghost use Rattle.backplane.specs.Ports.{SamePort, lanes_of, lanes_at, waits};

use backplane::{Backplane, Port};

pub(crate) fn discard<B: Backplane>(port: &mut Port<'_, B>, k: usize)
    requires { k ≤ length (waits port.old) }
    ensures same { SamePort port.old port.new }
    ensures lanes { lanes_of port.new ≡ lanes_at port.old (drop k (waits port.old)) }
{
    port.drop_first(k).unwrap();
}
