// submit: the leader's next entry.
ghost use Rattle.std.specs.Prelude.{◌≡◌, length, OnErr};
ghost use Rattle.protocol.specs.declared.answer.Answer.TheVariants.{Placed};
ghost use Rattle.logs.specs.Places.{SamePlaces, Untouched, logged};
ghost use Rattle.cards.specs.Faults.{replied};
ghost use Rattle.card_log.specs.Parts.{submit_log};

use cards::CardFault;
use cards::booking::accept_next;
use frames::{Entry, Words};
use logs::Log;
use marks::Header;
use protocol::Card;

// Appends an entry with accepted's count + 1, which becomes accepted.
pub fn submit(
    card: &mut Card,
    log: &mut Log<'_>,
    tally: &mut u64,
    queue: u8,
    payload: Words,
) -> Result<Header, CardFault>
    ensures same { SamePlaces log.old log.new }
    ensures part { (replied Placed result, (card.new, logged log.new, tally.new)) ≡ submit_log (length log.old.places.now) queue payload (card.old, logged log.old, tally.old) }
    ensures stays { OnErr result (Untouched log.old log.new) }
{
    // Kept: the card itself, whose accepted is put back where there is no entry. A copy of the card for the case that never
    // comes costs more than all else here.
    let before = card.accepted;
    let header = accept_next(card, log.is_full(), *tally)?;
    let Ok(entry) = Entry::new(header, queue, payload) else {
        card.accepted = before;
        return Err(CardFault::Malformed);
    };
    log.append(entry).unwrap();
    *tally += 1;
    Ok(header)
}
