// A message in front of a lane.
ghost use Rattle.std.specs.Prelude.{◌≡◌, length, OnErr};
ghost use Rattle.backplane.specs.Ports.{SamePort, lanes_of};
ghost use Rattle.protocol.specs.declared.answer.Answer.TheVariants.{Took};
ghost use Rattle.cards.specs.Faults.{replied};
ghost use Rattle.cards.specs.LaneViews.{lane_fields};
ghost use Rattle.logs.specs.Places.{SamePlaces, Untouched, logged};
ghost use Rattle.taking.specs.Openings.{MessageFront, lane_of};
ghost use Rattle.taking.specs.Parts.{take_front};

use crate::lane::discard;
use crate::verdict::{Verdict, decide};
use backplane::{Backplane, Port};
use cards::CardFault;
use frames::{Entry, Kind};
use logs::Log;
use protocol::{Card, Intake};

// Takes the message in front of a lane, which holds an entry.
pub(crate) fn take_message<B: Backplane>(
    card: &mut Card,
    log: &mut Log<'_>,
    port: &mut Port<'_, B>,
    entry: Entry,
) -> Result<Intake, CardFault>
    requires { MessageFront port.old.lane.from (lane_of port.old) entry }
    ensures places { SamePlaces log.old log.new }
    ensures part { (replied Took result, (card.new, logged log.new, lane_fields (lanes_of port.new))) ≡ take_front (length log.old.places.now) port.old.lane.to port.old.lane.from port.old.lane.number (card.old, logged log.old, lane_fields (lanes_of port.old)) }
    ensures stays { OnErr result (Untouched log.old log.new) }
    ensures same { SamePort port.old port.new }
{
    let verdict = decide(card, Kind::Message, entry.header, log.is_full())?;
    discard(port, 1);
    match verdict {
        Verdict::Pass => Ok(Intake::PassedOver),
        Verdict::Enter => {
            log.append(entry).unwrap();
            card.accept(entry.header);
            Ok(Intake::Appended)
        }
    }
}
