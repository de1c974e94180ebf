// push and look, on the card alone.
ghost use Rattle.std.specs.Prelude.{◌≡◌, not, ◌&&◌, ◌==◌};
ghost use Rattle.marks.specs.Kinds.{epoch_of};
ghost use Rattle.marks.specs.Order.{epoch_same};
ghost use Rattle.frames.specs.Made.{frame_from};
ghost use Rattle.frames.specs.Views.{frame_fields};
ghost use Rattle.protocol.specs.Booking.{with_peers};
ghost use Rattle.protocol.specs.Exchange.{own_row, stored};
ghost use Rattle.cards.specs.Parts.{row_part};

use crate::fault::CardFault;
use frames::{Frame, Kind};
use marks::epoch_of;
use protocol::Card;
use refusals::Refusal;

// Kept: a number for a kind. It is also the number of the lane, any number may be asked for, and `Kind::try_from` would take
// 1 to 3 as well and refuse the rest by 8, where the rule asks for other refusals.
#[inline(always)]
fn row_frame(card: &Card, kind: u8) -> Result<Frame, Refusal>
    ensures { result ≡ frame_from (own_row card.now kind) }
{
    if kind == 5 {
        Frame::vote_row(card.vote)
    } else if kind == 4 {
        Frame::of(Kind::AcceptRow, card.accepted, (0, 0, 0, 0))
    } else {
        Frame::new(kind, card.committed, (0, 0, 0, 0))
    }
}

// Whether the row is a commit row that lies outside the current epoch.
fn is_undue(card: &Card, kind: u8) -> bool
    ensures { result ≡ (kind == 6 && not (epoch_same (epoch_of card.now.committed) card.now.current)) }
{
    kind == 6 && epoch_of(card.committed) != card.current
}

// The card's own row of a kind, as a frame.
// Inlined: the frame goes on to a backplane at once, and need not be written to memory in between.
#[inline(always)]
pub fn own_row(card: &Card, kind: u8) -> Result<Frame, CardFault>
    ensures { result ≡ row_part kind card.now }
{
    if card.stopped {
        return Err(CardFault::Stopped);
    }
    if is_undue(card, kind) {
        return Err(CardFault::NothingDue);
    }
    row_frame(card, kind).map_err(|_| CardFault::Malformed)
}

// Stores a peer's row in that peer's copy.
pub fn store_row(card: &mut Card, peer: u8, frame: Frame)
    ensures { card.new ≡ with_peers (stored card.old.peers peer (frame_fields frame)) card.old }
{
    match frame.kind {
        Kind::AcceptRow => card.peers.store_accept(peer, frame.header()),
        Kind::VoteRow => card.peers.store_vote(peer, frame.vote().unwrap()),
        _ => card.peers.store_commit(peer, frame.header()),
    }
}
