// A lane that there is, of a backplane that is lent.
ghost use Rattle.std.specs.Prelude.{◌≡◌, true};
ghost use Rattle.backplane.specs.Lanes.{is_lane};

use crate::lane::Lane;
use crate::lanes::Backplane;

mod calls;

#[derive(Drop)]
pub struct Port<'a, B: Backplane> {
    pub backplane: &'a mut B,
    pub lane: Lane,
    ghost there: { is_lane (B.Backplane.count backplane.now) lane.from lane.to lane.number ≡ true },
}
