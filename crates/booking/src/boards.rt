// What the cards' boards say of the load, and whether the running cards agree.
use crate::steps::Span;
use crate::table::Table;
use crate::words::Named;
use backplane::Backplane;
use std::{fmt, io};

// The load that every part is about.
pub const LOAD: u8 = 7;

// A card's holder of the load, whether it has stopped, and how many bookings its log has.
#[derive(Clone, Copy, PartialEq, Eq)]
pub struct Sight {
    pub holder: Option<u16>,
    pub stopped: bool,
    pub logged: usize,
}

impl<B: Backplane> Table<'_, B> {
    pub(crate) fn holder(&self, card: u8) -> Option<u16> {
        self.boards.get(card.checked_sub(1)? as usize)?.holder(LOAD)
    }

    fn is_stopped(&self, card: u8) -> bool {
        self.rack.card(card).map_or(true, |own| own.stopped)
    }

    pub(crate) fn logged(&self, card: u8) -> usize {
        self.rack
            .log(self.entries.as_slice(), card)
            .map_or(0, |log| log.len())
    }

    fn sight(&self, card: u8) -> Sight {
        Sight {
            holder: self.holder(card),
            stopped: self.is_stopped(card),
            logged: self.logged(card),
        }
    }

    // Prints every card's board, cards that show the same together.
    pub(crate) fn show_boards(&self) -> io::Result<()> {
        let rt = self.rt;
        let sights: Vec<(u8, Sight)> = (1..=self.cards)
            .map(|card| (card, self.sight(card)))
            .collect(rt.alloc())?;
        for same in sights.as_slice().chunk_by(|one, next| one.1 == next.1) {
            if let (Some((first, sight)), Some((last, _))) = (same.first(), same.last()) {
                let head = Named("Card", Span::new(*first, *last));
                println!(rt; "  > {head}{sight}")?;
            }
        }
        Ok(())
    }

    // Who holds the load on every running card; None where they differ.
    pub(crate) fn agreed(&self) -> Option<Option<u16>> {
        let mut holders = (1..=self.cards)
            .filter(|card| !self.is_stopped(*card))
            .map(|card| self.holder(card));
        let first = holders.next()?;
        holders.all(|holder| holder == first).then_some(first)
    }
}

impl fmt::Display for Sight {
    fn fmt<W: fmt::Write>(&self, f: &mut fmt::Formatter<W>) -> fmt::Result {
        let state = if self.stopped { " (stopped)" } else { "" };
        let holding = Holding(self.holder);
        write!(f, "{state}: {holding}, entries in the log: {}", self.logged)
    }
}

// Who holds the load, in words.
#[derive(Clone, Copy)]
pub struct Holding(pub Option<u16>);

impl fmt::Display for Holding {
    fn fmt<W: fmt::Write>(&self, f: &mut fmt::Formatter<W>) -> fmt::Result {
        match self.0 {
            Some(carrier) => write!(f, "load {LOAD} is held by carrier {carrier}"),
            None => write!(f, "load {LOAD} is open"),
        }
    }
}
