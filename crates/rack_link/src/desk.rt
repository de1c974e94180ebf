// A rack of ledgers with its memory, and the rounds of calls that are timed.
use backplane::Backplane;
use frames::{Entry, Kind};
use ledger::Ledger;
use machines::Machine;
use rack::Rack;
use refusals::Refusal;
use std::alloc::Global;

#[derive(Drop)]
pub(crate) struct Desk<'a, B: Backplane> {
    cards: u8,
    places: usize,
    rack: Rack,
    entries: Vec<Entry>,
    machines: Vec<Ledger>,
    backplane: &'a mut B,
}

impl<'a, B: Backplane> Desk<'a, B> {
    pub(crate) fn over(
        cards: u8,
        places: usize,
        entries: Vec<Entry>,
        mut machines: Vec<Ledger>,
        backplane: &'a mut B,
    ) -> Result<Desk<'a, B>, Refusal> {
        let rack = Rack::open::<B, Ledger>(
            cards,
            places,
            entries.as_slice(),
            machines.as_mut_slice(),
            backplane,
        )?;
        Ok(Desk {
            cards,
            places,
            rack,
            entries,
            machines,
            backplane,
        })
    }

    // A new rack over the same memory, with its first booking under card 1.
    pub(crate) fn reopen(&mut self) -> Result<(), Refusal> {
        self.rack = Rack::open::<B, Ledger>(
            self.cards,
            self.places,
            self.entries.as_slice(),
            self.machines.as_mut_slice(),
            &*self.backplane,
        )?;
        self.elect_first()?;
        self.accept_others()?;
        self.commit(1)?;
        // the first booking of an epoch: the others commit the diff, and then the booking
        self.book(0)?;
        for peer in 2..=self.cards {
            self.commit(peer)?;
        }
        Ok(())
    }

    fn tell(&mut self, from: u8, to: u8, kind: Kind) -> Result<(), Refusal> {
        let kind = kind.number();
        self.rack.push(&mut *self.backplane, from, to, kind)?;
        self.rack.look(&mut *self.backplane, to, from, kind)?;
        Ok(())
    }

    // Card 1 wins the next epoch with the votes of all.
    pub(crate) fn elect_first(&mut self) -> Result<(), Refusal> {
        self.rack.timeout(1)?;
        for peer in 2..=self.cards {
            self.tell(1, peer, Kind::VoteRow)?;
            self.rack.elect(peer)?;
            self.tell(peer, 1, Kind::VoteRow)?;
        }
        self.rack.win(1)?;
        Ok(())
    }

    // Every other card gives up its leader.
    pub(crate) fn leave_first(&mut self) -> Result<(), Refusal> {
        for peer in 2..=self.cards {
            self.rack.timeout(peer)?;
        }
        Ok(())
    }

    // Every other card takes what card 1 ships.
    pub(crate) fn follow_first(&mut self) -> Result<u64, Refusal> {
        let mut frames = 0u64;
        for peer in 2..=self.cards {
            let shipped = self
                .rack
                .ship(self.entries.as_slice(), &mut *self.backplane, 1, peer)?;
            frames = frames.wrapping_add(shipped as u64);
            self.rack
                .take(self.entries.as_mut_slice(), &mut *self.backplane, peer, 1)?;
        }
        Ok(frames)
    }

    // An entry that stays in card 1's log.
    pub(crate) fn submit(&mut self, k: u64) -> Result<(), Refusal> {
        let payload = (k & 31, 2147483648 + (k & 63), 0);
        self.rack
            .submit(self.entries.as_mut_slice(), 1, (k & 15) as u8, payload)?;
        Ok(())
    }

    // A booking, until the last card has committed it.
    pub(crate) fn book(&mut self, k: u64) -> Result<u64, Refusal> {
        self.submit(k)?;
        self.accept_others()?;
        let own = self.commit(1)?;
        Ok(own.wrapping_add(self.commit_others()?))
    }

    fn accept_others(&mut self) -> Result<(), Refusal> {
        for peer in 2..=self.cards {
            self.rack
                .ship(self.entries.as_slice(), &mut *self.backplane, 1, peer)?;
            self.rack
                .take(self.entries.as_mut_slice(), &mut *self.backplane, peer, 1)?;
            self.tell(peer, 1, Kind::AcceptRow)?;
        }
        Ok(())
    }

    fn commit(&mut self, card: u8) -> Result<u64, Refusal> {
        let entries = self.entries.as_slice();
        let count = self
            .rack
            .commit(entries, self.machines.as_mut_slice(), card)?;
        Ok(count as u64)
    }

    fn commit_others(&mut self) -> Result<u64, Refusal> {
        let mut delivered = 0u64;
        for peer in 2..=self.cards {
            self.tell(1, peer, Kind::CommitRow)?;
            delivered = delivered.wrapping_add(self.commit(peer)?);
        }
        Ok(delivered)
    }
}
