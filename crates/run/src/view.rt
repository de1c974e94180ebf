// All that a card holds, in print.
use crate::payloads::Printed;
use frames::Entry;
use marks::{Epoch, Header, Vote};
use protocol::{Card, PeerRow, Role};
use std::fmt;

#[derive(Drop)]
pub(crate) struct View<'a, M: Printed> {
    pub(crate) number: u8,
    pub(crate) cards: u8,
    pub(crate) places: usize,
    pub(crate) card: Card,
    pub(crate) log: &'a [Entry],
    pub(crate) machine: &'a M,
}

#[derive(Clone, Copy)]
struct InEpoch(Epoch);

#[derive(Clone, Copy)]
pub(crate) struct At(pub(crate) Header);

#[derive(Clone, Copy)]
struct Voted(Vote);

#[derive(Clone, Copy)]
struct As(Role);

#[derive(Clone, Copy)]
struct Peer(u8, PeerRow);

impl fmt::Display for InEpoch {
    fn fmt<W: fmt::Write>(&self, f: &mut fmt::Formatter<W>) -> fmt::Result {
        let (round, leader) = self.0;
        write!(f, "{round}.{leader}")
    }
}

impl fmt::Display for At {
    fn fmt<W: fmt::Write>(&self, f: &mut fmt::Formatter<W>) -> fmt::Result {
        let (round, leader, count) = self.0;
        write!(f, "{round}.{leader}.{count}")
    }
}

impl fmt::Display for Voted {
    fn fmt<W: fmt::Write>(&self, f: &mut fmt::Formatter<W>) -> fmt::Result {
        let (epoch, header) = self.0;
        let epoch = InEpoch(epoch);
        let header = At(header);
        write!(f, "{epoch} with {header}")
    }
}

impl fmt::Display for As {
    fn fmt<W: fmt::Write>(&self, f: &mut fmt::Formatter<W>) -> fmt::Result {
        match self.0 {
            Role::Electing => write!(f, "electing"),
            Role::Leader => write!(f, "leader"),
            Role::Follower => write!(f, "follower"),
        }
    }
}

impl fmt::Display for Peer {
    fn fmt<W: fmt::Write>(&self, f: &mut fmt::Formatter<W>) -> fmt::Result {
        let Peer(number, row) = *self;
        match row.shipped {
            None => write!(f, "peer {number}: nothing shipped"),
            Some(0) => write!(f, "peer {number}: shipped the diff"),
            Some(count) => write!(f, "peer {number}: shipped up to {count}"),
        }?;
        let accept = At(row.accept);
        let vote = Voted(row.vote);
        let commit = At(row.commit);
        write!(f, "; accept {accept}, vote {vote}, commit {commit}")
    }
}

impl<M: Printed> View<'_, M> {
    fn marks<W: fmt::Write>(&self, f: &mut fmt::Formatter<W>) -> fmt::Result {
        let number = self.number;
        let card = self.card;
        let role = As(card.role);
        let stopped = if card.stopped { ", stopped" } else { "" };
        let current = InEpoch(card.current);
        let newest = InEpoch(card.newest);
        let accepted = At(card.accepted);
        let committed = At(card.committed);
        let next = At(card.next);
        let vote = Voted(card.vote);
        write!(
            f,
            "card {number}: {role}{stopped}\n  epoch {current}, new epoch {newest}, vote {vote}\n"
        )?;
        write!(
            f,
            "  accepted {accepted}, committed {committed}, next {next}"
        )
    }

    fn peers<W: fmt::Write>(&self, f: &mut fmt::Formatter<W>) -> fmt::Result {
        for peer in 1..=self.cards {
            if peer != self.number {
                let known = Peer(peer, self.card.peers.row(peer));
                write!(f, "\n  {known}")?;
            }
        }
        Ok(())
    }

    fn entries<W: fmt::Write>(&self, f: &mut fmt::Formatter<W>) -> fmt::Result {
        let used = self.log.len();
        let places = self.places;
        write!(f, "\n  log: {used} of {places} places")?;
        for entry in self.log {
            let header = At(entry.header);
            let queue = entry.queue;
            let payload = M::shown(M::unpack(entry.payload));
            write!(f, "\n    {header} queue {queue}: {payload}")?;
        }
        Ok(())
    }

    fn state<W: fmt::Write>(&self, f: &mut fmt::Formatter<W>) -> fmt::Result {
        let name = M::name();
        write!(f, "\n  {name}:")?;
        let mut changed = false;
        for item in 0..M::items() {
            if let Some(change) = self.machine.change(item) {
                write!(f, " {change}")?;
                changed = true;
            }
        }
        if changed {
            return Ok(());
        }
        let words = M::unchanged();
        write!(f, " {words}")
    }
}

impl<M: Printed> fmt::Display for View<'_, M> {
    fn fmt<W: fmt::Write>(&self, f: &mut fmt::Formatter<W>) -> fmt::Result {
        self.marks(f)?;
        self.peers(f)?;
        self.entries(f)?;
        self.state(f)
    }
}
