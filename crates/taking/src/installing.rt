// A diff in front of a lane, and what is done with it.
ghost use Rattle.std.specs.Prelude.{◌≡◌, length, OnErr};
ghost use Rattle.protocol.specs.declared.answer.Answer.TheVariants.{Took};
ghost use Rattle.backplane.specs.Ports.{SamePort, lanes_of};
ghost use Rattle.cards.specs.Faults.{replied};
ghost use Rattle.cards.specs.LaneViews.{lane_fields};
ghost use Rattle.logs.specs.Places.{SamePlaces, Untouched, logged};
ghost use Rattle.taking.specs.Openings.{DiffFront, lane_of};
ghost use Rattle.taking.specs.Parts.{take_front};

use crate::diff::OpenedDiff;
use crate::verdict::{Verdict, decide};
use backplane::{Backplane, Port};
use cards::CardFault;
use frames::Kind;
use logs::{Log, count_up_to};
use marks::header_in;
use protocol::{Card, Intake};

// Takes an opened diff. Each way spends it once.
pub(crate) fn take_diff<B: Backplane>(
    card: &mut Card,
    log: &mut Log<'_>,
    port: &mut Port<'_, B>,
    diff: OpenedDiff,
) -> Result<Intake, CardFault>
    requires { DiffFront port.old.lane.from (lane_of port.old) diff }
    ensures places { SamePlaces log.old log.new }
    ensures part { (replied Took result, (card.new, logged log.new, lane_fields (lanes_of port.new))) ≡ take_front (length log.old.places.now) port.old.lane.to port.old.lane.from port.old.lane.number (card.old, logged log.old, lane_fields (lanes_of port.old)) }
    ensures stays { OnErr result (Untouched log.old log.new) }
    ensures same { SamePort port.old port.new }
{
    let stay = count_up_to(log.entries(), diff.base);
    let full = log.capacity() - stay < diff.entries;
    let high = header_in(diff.epoch, 0);
    match decide(card, Kind::DiffHead, high, full) {
        Ok(Verdict::Pass) => {
            diff.pass_over(port);
            Ok(Intake::PassedOver)
        }
        Ok(Verdict::Enter) => {
            diff.install(card, log, port);
            Ok(Intake::Installed)
        }
        Err(fault) => {
            diff.put_back();
            Err(fault)
        }
    }
}
