// push and look.
ghost use Rattle.std.specs.Prelude.{◌≡◌, List as Listing};
ghost use Rattle.frames.specs.declared.entry.Entry.{Entry as AnEntry};
ghost use Rattle.protocol.specs.Rack.{no_peer, is_row_kind};
ghost use Rattle.protocol.specs.Exchange.{push, look};
ghost use Rattle.protocol.specs.declared.answer.Answer.TheVariants.{Done};
ghost use Rattle.rack.specs.Faults.{told};
ghost use Rattle.rack.specs.View.{view, sizes, cards_fit, lent};

use crate::fault::RackFault;
use crate::state::Rack;
use backplane::{Backplane, Lane};

// Accept rows, vote rows and commit rows.
fn is_row_kind(kind: u8) -> bool
    ensures { result ≡ is_row_kind kind }
{
    (4..=6).contains(&kind)
}

// Kept: a call's checks stand in it one by one, in the order of their refusals' numbers, as its definition lists them. A
// function for each would take the order out of sight.
// Kept: numbers for cards and kinds. A caller may give any, and those that name nothing are refused by 1 and by 3;
// `Kind::try_from` would take 1 to 3 as well, and refuse the rest by 8.
impl Rack {
    // Sends the card's row of a kind to a peer.
    pub fn push<B: Backplane>(
        &self,
        backplane: &mut B,
        card: u8,
        peer: u8,
        kind: u8,
    ) -> Result<(), RackFault>
        ensures step { (entries : Listing AnEntry) → (told (λ _. Done) result, view self.now entries (λ _. tt {0}) (B.Backplane.lanes backplane.new)) ≡ lent (no_peer (sizes self.now (B.Backplane.room backplane.old)) card peer) (cards_fit self.now (B.Backplane.count backplane.old)) (push (sizes self.now (B.Backplane.room backplane.old)) card peer kind (view self.now entries (λ _. tt {0}) (B.Backplane.lanes backplane.old))) (view self.now entries (λ _. tt {0}) (B.Backplane.lanes backplane.old)) }
        ensures count { B.Backplane.count backplane.new ≡ B.Backplane.count backplane.old }
        ensures room { B.Backplane.room backplane.new ≡ B.Backplane.room backplane.old }
    {
        self.seat_to(card, peer)?;
        if backplane.cards() != self.size.cards() {
            return Err(RackFault::WrongSize);
        }
        if !is_row_kind(kind) {
            return Err(RackFault::OutOfRange);
        }
        let lane = Lane {
            from: card,
            to: peer,
            number: kind,
        };
        exchange::push(&self.seats[card as usize - 1].card, backplane, lane)?;
        Ok(())
    }

    // Stores a peer's row in the card's copy.
    pub fn look<B: Backplane>(
        &mut self,
        backplane: &mut B,
        card: u8,
        peer: u8,
        kind: u8,
    ) -> Result<(), RackFault>
        ensures step { (entries : Listing AnEntry) → (told (λ _. Done) result, view self.new entries (λ _. tt {0}) (B.Backplane.lanes backplane.new)) ≡ lent (no_peer (sizes self.old (B.Backplane.room backplane.old)) card peer) (cards_fit self.old (B.Backplane.count backplane.old)) (look (sizes self.old (B.Backplane.room backplane.old)) card peer kind (view self.old entries (λ _. tt {0}) (B.Backplane.lanes backplane.old))) (view self.old entries (λ _. tt {0}) (B.Backplane.lanes backplane.old)) }
        ensures sizes { sizes self.new 0 ≡ sizes self.old 0 }
        ensures count { B.Backplane.count backplane.new ≡ B.Backplane.count backplane.old }
        ensures room { B.Backplane.room backplane.new ≡ B.Backplane.room backplane.old }
    {
        self.seat_to(card, peer)?;
        if backplane.cards() != self.size.cards() {
            return Err(RackFault::WrongSize);
        }
        if !is_row_kind(kind) {
            return Err(RackFault::OutOfRange);
        }
        let lane = Lane {
            from: peer,
            to: card,
            number: kind,
        };
        exchange::look(&mut self.seats[card as usize - 1].card, backplane, lane)?;
        Ok(())
    }
}
