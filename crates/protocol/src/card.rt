// What a card holds.
ghost use Rattle.std.specs.Prelude.{◌≡◌};
ghost use Rattle.protocol.specs.Rows.{is_majority};
ghost use Rattle.protocol.specs.Rack.{opened_card};
ghost use Rattle.protocol.specs.Voting.{stood_in, joined_to, won_by};
ghost use Rattle.protocol.specs.Booking.{accepted_up_to};
ghost use Rattle.protocol.specs.Taking.{entered_by};
ghost use Rattle.protocol.specs.Exchange.{stopped_card};

use crate::peers::PeerTable;
use marks::{Epoch, Header, Vote, header_in};

#[derive(Clone, Copy, PartialEq, Eq, Debug)]
pub enum Role {
    Electing,
    Leader,
    Follower,
}

#[derive(Clone, Copy, PartialEq, Eq, Debug)]
pub struct Card {
    pub role: Role,
    pub stopped: bool,
    pub current: Epoch,
    // the highest epoch that the card has voted for or entered
    pub newest: Epoch,
    pub accepted: Header,
    pub committed: Header,
    // what the card commits next; its count may be one past the last
    pub next: Header,
    pub vote: Vote,
    pub peers: PeerTable,
}

impl Card {
    // All marks null.
    pub fn opened() -> Card
        ensures { result ≡ opened_card }
    {
        Card {
            role: Role::Electing,
            stopped: false,
            current: (0, 0),
            newest: (0, 0),
            accepted: (0, 0, 0),
            committed: (0, 0, 0),
            next: (0, 0, 0),
            vote: ((0, 0), (0, 0, 0)),
            peers: PeerTable::blank(),
        }
    }

    pub fn stand(&mut self, epoch: Epoch)
        ensures { self.new ≡ stood_in epoch self.old }
    {
        self.role = Role::Electing;
        self.newest = epoch;
        self.vote = (epoch, self.accepted);
    }

    pub fn join(&mut self, vote: Vote)
        ensures { self.new ≡ joined_to vote self.old }
    {
        self.newest = vote.0;
        self.vote = vote;
    }

    pub fn lead(&mut self)
        ensures { self.new ≡ won_by self.old }
    {
        self.role = Role::Leader;
        self.current = self.newest;
        self.accepted = header_in(self.newest, 0);
        self.next = self.accepted;
        self.peers.forget_shipped();
    }

    pub fn accept(&mut self, header: Header)
        ensures { self.new ≡ accepted_up_to header self.old }
    {
        self.accepted = header;
    }

    pub fn enter(&mut self, epoch: Epoch)
        ensures { self.new ≡ entered_by epoch self.old }
    {
        self.role = Role::Follower;
        self.current = epoch;
        self.newest = epoch;
        self.accepted = header_in(epoch, 0);
        self.next = self.accepted;
    }

    pub fn stop(&mut self)
        ensures { self.new ≡ stopped_card self.old }
    {
        self.stopped = true;
    }
}

// A majority is (n + 1) / 2 cards or more.
pub fn is_majority(count: usize, cards: u8) -> bool
    ensures { result ≡ is_majority count cards }
{
    (cards as usize + 1) / 2 <= count
}
