// Reading: a card's delivered list and its log, also of a stopped card.
ghost use Rattle.std.specs.Prelude.{◌≡◌, ◌*◌, ◌≤◌, ◌&&◌, ◌==◌, IfOk, length};
ghost use Rattle.cards.specs.Sizes.{card_count};
ghost use Rattle.backplane.specs.Lanes.{empty_lanes};
ghost use Rattle.protocol.specs.Rack.{no_card};
ghost use Rattle.protocol.specs.Committing.{reading};
ghost use Rattle.rack.specs.Reading.{ReadOut, LogSeen};
ghost use Rattle.rack.specs.View.{view, sizes, entries_fit};

use crate::fault::RackFault;
use crate::state::Rack;
use frames::Entry;

impl Rack {
    // Copies what the card has delivered, in order, to the front of a buffer, and says how much it is.
    pub fn reading(
        &self,
        entries: &[Entry],
        card: u8,
        out: &mut [Entry],
    ) -> Result<usize, RackFault>
        ensures { ReadOut (no_card (sizes self.now 0) card) (entries_fit self.now entries.now) (reading (view self.now entries.now (λ _. tt {0}) empty_lanes) card) out.old out.new result }
    {
        let seat = self.seat(card)?;
        let log = self.log(entries, card)?;
        logs::read_up_to(log, seat.card.committed, out).ok_or(RackFault::WrongSize)
    }

    // The entries of a card's log, the oldest first.
    pub fn log<'a>(&self, entries: &'a [Entry], card: u8) -> Result<&'a [Entry], RackFault>
        ensures seen { LogSeen (no_card (sizes self.now 0) card) (entries_fit self.now entries.now) ((view self.now entries.now (λ _. tt {0}) empty_lanes).logs card) result }
        ensures few { IfOk result (λ seen. length seen.now ≤ self.now.places) }
    {
        let seat = self.seat(card)?;
        if entries.len() != self.total() {
            return Err(RackFault::WrongSize);
        }
        let low = self.start(card);
        Ok(&entries[low..low + seat.used])
    }

    // How many submits were accepted.
    pub fn tally(&self) -> u64
        ensures { result ≡ self.now.tally }
    {
        self.tally
    }

    // Whether so many entries, machines and cards of a backplane are this rack's.
    pub fn fits(&self, entries: usize, machines: usize, cards: u8) -> bool
        ensures { result ≡ (entries == card_count self.now.size * self.now.places && (machines == card_count self.now.size && cards == card_count self.now.size)) }
    {
        entries == self.total()
            && machines == self.size.cards() as usize
            && cards == self.size.cards()
    }
}
