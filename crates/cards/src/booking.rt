// submit and commit, on the card alone.
ghost use Rattle.std.specs.Prelude.{◌≡◌};
ghost use Rattle.protocol.specs.Rows.{accept_rows};
ghost use Rattle.protocol.specs.Committing.{last_of_epoch, reached, supported};
ghost use Rattle.protocol.specs.declared.answer.Answer.TheVariants.{Placed};
ghost use Rattle.cards.specs.Faults.{replied};
ghost use Rattle.cards.specs.Parts.{of_cards, submit_part};
ghost use Rattle.cards.specs.Sizes.{card_count};

use crate::fault::CardFault;
use crate::member::Member;
use marks::rows::count_between;
use marks::{Header, LAST_COUNT, header_in};
use protocol::{Card, Role, is_majority};

// Kept: a call's checks stand in it one by one, in the order of their refusals' numbers, as its definition lists them. A
// function for each would take the order out of sight.
// Accepts the next entry, and gives its header. `full` says that its log has no room for one.
pub fn accept_next(card: &mut Card, full: bool, tally: u64) -> Result<Header, CardFault>
    ensures { (replied Placed result, card.new) ≡ submit_part full tally card.old }
{
    if card.stopped {
        return Err(CardFault::Stopped);
    }
    if card.role != Role::Leader {
        return Err(CardFault::WrongRole);
    }
    if full {
        return Err(CardFault::LogFull);
    }
    if LAST_COUNT <= card.accepted.2 || tally == u64::MAX {
        return Err(CardFault::UsedUp);
    }
    card.accepted.2 += 1;
    Ok(card.accepted)
}

impl Member {
    // How many accept rows of the current epoch lie at or above next.
    fn accepts_reached(self, card: &Card) -> usize
        ensures { result ≡ reached card.now (accept_rows (card_count self.size) self.number card.now.accepted card.now.peers) }
    {
        card.peers.known_between(
            self.number,
            card.accepted,
            self.size.cards(),
            card.next,
            last_of_epoch(card),
        )
    }

    // Whether next may be delivered: a leader goes by the accept rows, a follower by its leader's commit row.
    pub fn is_supported(self, card: &Card) -> bool
        ensures { result ≡ supported (of_cards self.size) self.number card.now }
    {
        if card.role == Role::Leader {
            is_majority(self.accepts_reached(card), self.size.cards())
        } else {
            count_reached(card, &[card.peers.row(card.current.1).commit]) == 1
        }
    }
}

// The highest header of the current epoch that a row can hold.
fn last_of_epoch(card: &Card) -> Header
    ensures { result ≡ last_of_epoch card.now }
{
    header_in(card.current, u32::MAX)
}

// How many of some rows lie in the current epoch, at or above next.
fn count_reached(card: &Card, rows: &[Header]) -> usize
    ensures { result ≡ reached card.now rows.now }
{
    count_between(card.next, last_of_epoch(card), rows)
}
