// The card's part of ship: what is due to a peer enters its lane.
#![tactic(auto)]

ghost use Rattle.std.specs.Prelude.{◌≡◌};
ghost use Rattle.protocol.specs.declared.answer.Answer.TheVariants.{Count};
ghost use Rattle.logs.specs.Log.{entries_of};
ghost use Rattle.cards.specs.Faults.{replied};
ghost use Rattle.cards.specs.LaneViews.{lane_fields};
ghost use Rattle.shipping.specs.Shipping.{ship_part};

use crate::diff::send_diff;
use crate::message::send_message;
use backplane::{Backplane, Lane};
use cards::CardFault;
use frames::Entry;
use marks::header_in;
use protocol::{Card, Role};

mod diff;
mod lane;
mod message;

// Ships what is due to a peer: first the diff from the copy of its commit row, afterwards the next message. All frames
// enter lane 0, or none.
// Kept: a call's checks stand in it one by one, in the order of their refusals' numbers, as its definition lists them. A
// function for each would take the order out of sight.
// Kept: two cards and no lane, since that it is lane 0 is the rule's, and not the caller's.
pub fn ship<B: Backplane>(
    card: &mut Card,
    log: &[Entry],
    backplane: &mut B,
    number: u8,
    peer: u8,
) -> Result<u32, CardFault>
    ensures part { (replied Count result, (card.new, lane_fields (B.Backplane.lanes backplane.new))) ≡ ship_part (B.Backplane.count backplane.old) (B.Backplane.room backplane.old) number peer (entries_of log.now) (card.old, lane_fields (B.Backplane.lanes backplane.old)) }
    ensures count { B.Backplane.count backplane.new ≡ B.Backplane.count backplane.old }
    ensures room { B.Backplane.room backplane.new ≡ B.Backplane.room backplane.old }
{
    if card.stopped {
        return Err(CardFault::Stopped);
    }
    if card.role != Role::Leader {
        return Err(CardFault::WrongRole);
    }
    let lane = Lane {
        from: number,
        to: peer,
        number: 0,
    };
    let row = card.peers.row(peer);
    match row.shipped {
        None => {
            let frames = send_diff(card.current, row.commit, log, backplane, lane)?;
            card.peers.mark_shipped(peer, Some(0));
            Ok(frames)
        }
        Some(shipped) => {
            let count = shipped.checked_add(1).ok_or(CardFault::NothingDue)?;
            let frames = send_message(header_in(card.current, count), log, backplane, lane)?;
            card.peers.mark_shipped(peer, Some(count));
            Ok(frames)
        }
    }
}
