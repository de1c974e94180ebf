// take, over any backplane.
ghost use Rattle.std.specs.Prelude.{◌≡◌, length, OnErr};
ghost use Rattle.protocol.specs.declared.answer.Answer.TheVariants.{Took};
ghost use Rattle.cards.specs.Faults.{replied};
ghost use Rattle.cards.specs.LaneViews.{lane_fields};
ghost use Rattle.logs.specs.Places.{SamePlaces, Untouched, logged};
ghost use Rattle.taking.specs.Parts.{take_part};

use crate::front::{Front, open};
use crate::installing::take_diff;
use crate::message::take_message;
use backplane::{Backplane, Lane, Port};
use cards::CardFault;
use logs::Log;
use protocol::{Card, Intake};

// Takes the first message or whole diff that waits from a peer.
// Kept: a call's checks stand in it one by one, in the order of its definition. A function for each would take the order out
// of sight.
// Kept: two cards and no lane, since that it is lane 0 is the rule's, and not the caller's.
pub fn take<B: Backplane>(
    card: &mut Card,
    log: &mut Log<'_>,
    backplane: &mut B,
    number: u8,
    peer: u8,
) -> Result<Intake, CardFault>
    ensures same { SamePlaces log.old log.new }
    ensures part { (replied Took result, (card.new, logged log.new, lane_fields (B.Backplane.lanes backplane.new))) ≡ take_part (B.Backplane.count backplane.old) (length log.old.places.now) number peer (card.old, logged log.old, lane_fields (B.Backplane.lanes backplane.old)) }
    ensures stays { OnErr result (Untouched log.old log.new) }
    ensures count { B.Backplane.count backplane.new ≡ B.Backplane.count backplane.old }
    ensures room { B.Backplane.room backplane.new ≡ B.Backplane.room backplane.old }
{
    if card.stopped {
        return Err(CardFault::Stopped);
    }
    let lane = Lane {
        from: peer,
        to: number,
        number: 0,
    };
    // refuses where there is no such lane
    backplane.waiting(lane)?;
    let mut port = Port { backplane, lane };
    match open(&port)? {
        Front::Message(entry) => take_message(card, log, &mut port, entry),
        Front::Diff(diff) => take_diff(card, log, &mut port, diff),
    }
}
