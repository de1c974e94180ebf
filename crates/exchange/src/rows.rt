// A card's own rows go out by push; its peers' rows come in by look.
ghost use Rattle.std.specs.Prelude.{◌≡◌};
ghost use Rattle.protocol.specs.declared.answer.Answer.TheVariants.{Done};
ghost use Rattle.cards.specs.Faults.{replied};
ghost use Rattle.cards.specs.LaneViews.{lane_fields};
ghost use Rattle.exchange.specs.Parts.{push_part, look_part};

use backplane::{Backplane, Lane};
use cards::CardFault;
use cards::exchange::{own_row, store_row};
use protocol::Card;

// Sends the card's own row of the lane's number.
// Kept: a backplane and a lane, and no `Port`, here and below. Each asks the backplane once or twice and hands its refusal on
// by `?`; a `Port` would first ask whether the lane is there.
pub fn push<B: Backplane>(card: &Card, backplane: &mut B, lane: Lane) -> Result<(), CardFault>
    ensures part { (replied (λ _. Done) result, lane_fields (B.Backplane.lanes backplane.new)) ≡ push_part (B.Backplane.count backplane.old) (B.Backplane.room backplane.old) lane.from lane.to lane.number card.now (lane_fields (B.Backplane.lanes backplane.old)) }
    ensures count { B.Backplane.count backplane.new ≡ B.Backplane.count backplane.old }
    ensures room { B.Backplane.room backplane.new ≡ B.Backplane.room backplane.old }
{
    let frame = own_row(card, lane.number)?;
    backplane.send(lane, frame)?;
    Ok(())
}

// Takes one row from the lane and stores it in its sender's copy.
// Kept: a call's checks stand in it one by one, in the order of its definition. A function for each would take the order out
// of sight.
pub fn look<B: Backplane>(card: &mut Card, backplane: &mut B, lane: Lane) -> Result<(), CardFault>
    ensures part { (replied (λ _. Done) result, (card.new, lane_fields (B.Backplane.lanes backplane.new))) ≡ look_part (B.Backplane.count backplane.old) lane.to lane.from lane.number (card.old, lane_fields (B.Backplane.lanes backplane.old)) }
    ensures count { B.Backplane.count backplane.new ≡ B.Backplane.count backplane.old }
    ensures room { B.Backplane.room backplane.new ≡ B.Backplane.room backplane.old }
{
    if card.stopped {
        return Err(CardFault::Stopped);
    }
    let frame = backplane.frame_at(lane, 0)?;
    if frame.kind.number() != lane.number {
        return Err(CardFault::Malformed);
    }
    backplane.drop_first(lane, 1)?;
    store_row(card, lane.from, frame);
    Ok(())
}
