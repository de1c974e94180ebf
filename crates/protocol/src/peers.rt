// What a card knows of its peers.
ghost use Rattle.std.specs.Prelude.{◌≡◌};
ghost use Rattle.marks.specs.Rows.{count_between};
ghost use Rattle.protocol.specs.declared.peers.PeerRow.{PeerRow as ARow};
ghost use Rattle.protocol.specs.Rows.{blank_row, blank_table, row_of, with_row, known_row, known_rows, store_accept, store_vote, store_commit, mark_shipped, forget_shipped};

use marks::rows::Mark;
use marks::{Header, Vote};
use std::array;

// What was shipped to a peer since the card last won, and the copies of its rows.
#[derive(Clone, Copy, PartialEq, Eq, Debug)]
pub struct PeerRow {
    // None: nothing yet; Some(k): the diff, and messages up to count k
    pub shipped: Option<u32>,
    pub accept: Header,
    pub vote: Vote,
    pub commit: Header,
}

impl PeerRow {
    // Nothing shipped, nothing known.
    pub fn blank() -> PeerRow
        ensures { result ≡ blank_row }
    {
        PeerRow {
            shipped: None,
            accept: (0, 0, 0),
            vote: ((0, 0), (0, 0, 0)),
            commit: (0, 0, 0),
        }
    }
}

// A mark of which a card keeps a copy for each peer.
pub trait Copied: Copy {
    ghost copied: { ARow → Self };

    fn of(row: PeerRow) -> Self
        ensures { result ≡ copied row };
}

impl Copied for Header {
    ghost copied = { λ row. row.accept };

    fn of(row: PeerRow) -> Header {
        row.accept
    }
}

impl Copied for Vote {
    ghost copied = { λ row. row.vote };

    fn of(row: PeerRow) -> Vote {
        row.vote
    }
}

// Peer j stands at index j - 1; a card's own place is not used.
#[derive(Clone, Copy, PartialEq, Eq, Debug)]
pub struct PeerTable {
    pub rows: [PeerRow; 7],
}

impl PeerTable {
    pub fn blank() -> PeerTable
        ensures { result ≡ blank_table }
    {
        PeerTable {
            rows: [PeerRow::blank(); 7],
        }
    }

    // A peer's row, blank where there is no such peer.
    pub fn row(&self, peer: u8) -> PeerRow
        ensures { result ≡ row_of self.now peer }
    {
        let index = peer.saturating_sub(1) as usize;
        self.rows.get(index).copied().unwrap_or(PeerRow::blank())
    }

    // Kept: a function for each mark that a row holds. Two of the marks are both headers, so the type does not say which is
    // meant, and one function over a closure would have each caller say which field it is.
    pub fn store_accept(&mut self, peer: u8, accept: Header)
        ensures { self.new ≡ store_accept self.old peer accept }
    {
        let row = PeerRow {
            accept,
            ..self.row(peer)
        };
        self.put(peer, row);
    }

    pub fn store_vote(&mut self, peer: u8, vote: Vote)
        ensures { self.new ≡ store_vote self.old peer vote }
    {
        let row = PeerRow {
            vote,
            ..self.row(peer)
        };
        self.put(peer, row);
    }

    pub fn store_commit(&mut self, peer: u8, commit: Header)
        ensures { self.new ≡ store_commit self.old peer commit }
    {
        let row = PeerRow {
            commit,
            ..self.row(peer)
        };
        self.put(peer, row);
    }

    pub fn mark_shipped(&mut self, peer: u8, shipped: Option<u32>)
        ensures { self.new ≡ mark_shipped self.old peer shipped }
    {
        let row = PeerRow {
            shipped,
            ..self.row(peer)
        };
        self.put(peer, row);
    }

    // A card's own row in its own place, a copy elsewhere.
    fn known_row<T: Copied>(&self, card: u8, own: T, place: u8) -> T
        ensures { result ≡ known_row T.Copied.copied card own self.now place }
    {
        if place == card {
            own
        } else {
            T::of(self.row(place))
        }
    }

    // The rows of one kind of cards 1 to 7, as a card knows them.
    pub fn known_rows<T: Copied>(&self, card: u8, own: T) -> [T; 7]
        ensures { result ≡ known_rows T.Copied.copied 7 card own self.now }
    {
        array::from_fn(|index| self.known_row(card, own, index as u8 + 1))
    }

    // How many of the rows of cards 1 to `cards`, as a card knows them, lie from `low` to `high`, ends counted.
    // Kept: a row is read when it is its turn. Tried over `known_rows`; the compiler then writes all seven rows to memory
    // and copies them three times before the first is compared.
    pub fn known_between<T: Copied + Mark>(
        &self,
        card: u8,
        own: T,
        cards: u8,
        low: T,
        high: T,
    ) -> usize
        ensures { result ≡ count_between T.Mark.up_to low high (known_rows T.Copied.copied cards card own self.now) }
    {
        let mut count = 0;
        for before in 0..cards {
            let row = self.known_row(card, own, before + 1);
            if low.up_to(row) && row.up_to(high) {
                count += 1;
            }
        }
        count
    }

    // Nothing changes where there is no such peer.
    // Kept: a place that is asked for and then written. Tried by `get_mut`; the library says what a slice's `get_mut` finds,
    // and nothing of the slice after a write through it.
    fn put(&mut self, peer: u8, row: PeerRow)
        ensures { self.new ≡ with_row self.old peer row }
    {
        let place = peer.saturating_sub(1) as usize;
        if place < self.rows.len() {
            self.rows[place] = row;
        }
    }

    // Nothing counts as shipped, to any peer.
    pub fn forget_shipped(&mut self)
        ensures { self.new ≡ forget_shipped self.old }
    {
        for peer in 1..=7 {
            self.mark_shipped(peer, None);
        }
    }
}
