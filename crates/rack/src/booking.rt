// submit and commit.
ghost use Rattle.std.specs.Prelude.{◌≡◌, ◌&&◌, OnErr};
ghost use Rattle.backplane.specs.Lanes.{Lanes};
ghost use Rattle.protocol.specs.Rack.{no_card};
ghost use Rattle.protocol.specs.Booking.{submit};
ghost use Rattle.protocol.specs.Committing.{commit};
ghost use Rattle.protocol.specs.declared.answer.Answer.TheVariants.{Placed, Count};
ghost use Rattle.cards.specs.Sizes.{card_count};
ghost use Rattle.rack.specs.Faults.{told};
ghost use Rattle.rack.specs.View.{view, sizes, machines_of, entries_fit, machines_fit, lent};

use crate::fault::RackFault;
use crate::state::Rack;
use frames::make::LAST_QUEUE;
use frames::{Entry, Words};
use logs::Log;
use machines::Machine;
use marks::Header;

// Kept: a call's checks stand in it one by one, in the order of their refusals' numbers, as its definition lists them. A
// function for each would take the order out of sight.
impl Rack {
    // Appends an entry to the leader's log.
    pub fn submit(
        &mut self,
        entries: &mut [Entry],
        card: u8,
        queue: u8,
        payload: Words,
    ) -> Result<Header, RackFault>
        ensures step { (lanes : Lanes) → (told Placed result, view self.new entries.new (λ _. tt {0}) lanes) ≡ lent (no_card (sizes self.old 0) card) (entries_fit self.old entries.old) (submit (sizes self.old 0) card queue payload (view self.old entries.old (λ _. tt {0}) lanes)) (view self.old entries.old (λ _. tt {0}) lanes) }
        ensures sizes { sizes self.new 0 ≡ sizes self.old 0 }
        ensures stays { OnErr result (entries.new ≡ entries.old) }
    {
        let used = self.seat(card)?.used;
        if entries.len() != self.total() {
            return Err(RackFault::WrongSize);
        }
        if LAST_QUEUE < queue {
            return Err(RackFault::OutOfRange);
        }
        let mut tally = self.tally;
        // Kept: cut out here and in `take`. A function that hands the part out has to say in a `Lends` clause what the entries
        // hold once it is given back. Tried over two cuts, whose clause the check proves for one cut alone, and over
        // `&mut entries[low..high]`, of which it does not know what is held afterwards.
        let (_, rest) = entries.split_at_mut(self.start(card));
        let (places, _) = rest.split_at_mut(self.places);
        let mut log = Log { places, used };
        let own = &mut self.seats[card as usize - 1].card;
        let header = card_log::submit(own, &mut log, &mut tally, queue, payload)?;
        self.seats[card as usize - 1].used = log.used;
        self.tally = tally;
        Ok(header)
    }

    // Delivers what is due to the card's machine.
    pub fn commit<M: Machine>(
        &mut self,
        entries: &[Entry],
        machines: &mut [M],
        card: u8,
    ) -> Result<u32, RackFault>
        ensures step { (lanes : Lanes) → (told Count result, view self.new entries.now (machines_of (card_count self.old.size) M.Machine.state M.Machine.initial machines.new) lanes) ≡ lent (no_card (sizes self.old 0) card) (entries_fit self.old entries.now && machines_fit self.old machines.old) (commit (λ q w. M.Machine.applied q (M.Machine.unpacked w)) (sizes self.old 0) card (view self.old entries.now (machines_of (card_count self.old.size) M.Machine.state M.Machine.initial machines.old) lanes)) (view self.old entries.now (machines_of (card_count self.old.size) M.Machine.state M.Machine.initial machines.old) lanes) }
        ensures sizes { sizes self.new 0 ≡ sizes self.old 0 }
        ensures stays { OnErr result (machines.new ≡ machines.old) }
    {
        self.seat(card)?;
        let log = self.log(entries, card)?;
        if machines.len() != self.size.cards() as usize {
            return Err(RackFault::WrongSize);
        }
        let machine = &mut machines[card as usize - 1];
        let member = self.member(card);
        let own = &mut self.seats[card as usize - 1].card;
        let count = card_log::commit(own, log, machine, member)?;
        Ok(count as u32)
    }
}
