// ship and take.
ghost use Rattle.std.specs.Prelude.{◌≡◌, ◌&&◌, OnErr};
ghost use Rattle.protocol.specs.Rack.{no_peer};
ghost use Rattle.protocol.specs.Booking.{ship};
ghost use Rattle.protocol.specs.Taking.{take_call};
ghost use Rattle.protocol.specs.declared.answer.Answer.TheVariants.{Count, Took};
ghost use Rattle.rack.specs.Faults.{told};
ghost use Rattle.rack.specs.View.{view, sizes, entries_fit, cards_fit, lent};

use crate::fault::RackFault;
use crate::state::Rack;
use backplane::Backplane;
use frames::Entry;
use logs::Log;
use protocol::Intake;

// Kept: a call's checks stand in it one by one, in the order of their refusals' numbers, as its definition lists them. A
// function for each would take the order out of sight.
impl Rack {
    // Sends what is due to a peer: a diff first, then message by message.
    pub fn ship<B: Backplane>(
        &mut self,
        entries: &[Entry],
        backplane: &mut B,
        card: u8,
        peer: u8,
    ) -> Result<u32, RackFault>
        ensures step { (told Count result, view self.new entries.now (λ _. tt {0}) (B.Backplane.lanes backplane.new)) ≡ lent (no_peer (sizes self.old (B.Backplane.room backplane.old)) card peer) (entries_fit self.old entries.now && cards_fit self.old (B.Backplane.count backplane.old)) (ship (sizes self.old (B.Backplane.room backplane.old)) card peer (view self.old entries.now (λ _. tt {0}) (B.Backplane.lanes backplane.old))) (view self.old entries.now (λ _. tt {0}) (B.Backplane.lanes backplane.old)) }
        ensures sizes { sizes self.new 0 ≡ sizes self.old 0 }
        ensures count { B.Backplane.count backplane.new ≡ B.Backplane.count backplane.old }
        ensures room { B.Backplane.room backplane.new ≡ B.Backplane.room backplane.old }
    {
        self.seat_to(card, peer)?;
        let log = self.log(entries, card)?;
        if backplane.cards() != self.size.cards() {
            return Err(RackFault::WrongSize);
        }
        let own = &mut self.seats[card as usize - 1].card;
        Ok(shipping::ship(own, log, backplane, card, peer)?)
    }

    // Takes the first message or whole diff that waits from a peer.
    pub fn take<B: Backplane>(
        &mut self,
        entries: &mut [Entry],
        backplane: &mut B,
        card: u8,
        peer: u8,
    ) -> Result<Intake, RackFault>
        ensures step { (told Took result, view self.new entries.new (λ _. tt {0}) (B.Backplane.lanes backplane.new)) ≡ lent (no_peer (sizes self.old (B.Backplane.room backplane.old)) card peer) (entries_fit self.old entries.old && cards_fit self.old (B.Backplane.count backplane.old)) (take_call (sizes self.old (B.Backplane.room backplane.old)) card peer (view self.old entries.old (λ _. tt {0}) (B.Backplane.lanes backplane.old))) (view self.old entries.old (λ _. tt {0}) (B.Backplane.lanes backplane.old)) }
        ensures sizes { sizes self.new 0 ≡ sizes self.old 0 }
        ensures stays { OnErr result (entries.new ≡ entries.old) }
        ensures count { B.Backplane.count backplane.new ≡ B.Backplane.count backplane.old }
        ensures room { B.Backplane.room backplane.new ≡ B.Backplane.room backplane.old }
    {
        let used = self.seat_to(card, peer)?.used;
        if entries.len() != self.total() || backplane.cards() != self.size.cards() {
            return Err(RackFault::WrongSize);
        }
        // Kept: cut out here, as in `submit`, which says why.
        let (_, rest) = entries.split_at_mut(self.start(card));
        let (places, _) = rest.split_at_mut(self.places);
        let mut log = Log { places, used };
        let own = &mut self.seats[card as usize - 1].card;
        let intake = taking::take(own, &mut log, backplane, card, peer)?;
        self.seats[card as usize - 1].used = log.used;
        Ok(intake)
    }
}
