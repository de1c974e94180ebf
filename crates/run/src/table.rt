// A rack with the memory that is lent to it, and its lines.
use crate::line::{Line, read};
use crate::payloads::Printed;
use crate::said::{Delivered, no_call, reply_text};
use crate::view::View;
use backplane::Backplane;
use frames::Entry;
use play::{Reply, play};
use protocol::{Answer, Call};
use rack::Rack;
use rack::opening::MOST_PLACES;
use refusals::Refusal;
use std::alloc::{AllocError, Global};

#[derive(Drop)]
pub(crate) struct Table<'a, B: Backplane, M: Printed> {
    rack: Rack,
    cards: u8,
    places: usize,
    entries: Vec<Entry>,
    machines: Vec<M>,
    backplane: &'a mut B,
    // what a card has delivered, as long as a log
    read: Vec<Entry>,
}

impl<'a, B: Backplane, M: Printed> Table<'a, B, M> {
    // An opened rack of so many cards, with so many places in each log, over this backplane.
    pub(crate) fn open(
        heap: Global,
        cards: u8,
        places: usize,
        backplane: &'a mut B,
    ) -> Result<Result<Table<'a, B, M>, Refusal>, AllocError> {
        let blank = match Entry::new((0, 1, 1), 0, (0, 0, 0)) {
            Ok(entry) => entry,
            Err(refusal) => return Ok(Err(refusal)),
        };
        // More are refused.
        let few = places.min(MOST_PLACES);
        let entries = vec![in heap; blank; cards as usize * few]?;
        let read = vec![in heap; blank; few]?;
        let mut machines: Vec<M> = (0..cards).map(|_| M::start()).collect(heap)?;
        let opened = Rack::open::<B, M>(
            cards,
            places,
            entries.as_slice(),
            machines.as_mut_slice(),
            backplane,
        );
        Ok(match opened {
            Ok(rack) => Ok(Table {
                rack,
                cards,
                places,
                entries,
                machines,
                backplane,
                read,
            }),
            Err(fault) => Err(fault.refusal()),
        })
    }

    pub(crate) fn cards(&self) -> u8 {
        self.cards
    }

    pub(crate) fn answer(&mut self, heap: Global, line: &str) -> Result<String, AllocError> {
        match read::<M>(heap, line)? {
            Some(Line::Call(call)) => reply_text(heap, self.call(call)),
            Some(Line::Unmade(card, refusal)) => reply_text(heap, self.refuse(card, refusal)),
            Some(Line::Show(card)) => match self.view(card) {
                Ok(view) => view.to_string(heap),
                Err(refusal) => refusal.to_string(heap),
            },
            None => no_call::<M>(heap, line),
        }
    }

    fn call(&mut self, call: Call) -> Reply {
        let mut replies = [Ok(Answer::Done)];
        let played = play::<B, M>(
            &mut self.rack,
            self.entries.as_mut_slice(),
            self.machines.as_mut_slice(),
            &mut *self.backplane,
            &[call],
            &mut replies,
        );
        match played {
            Ok(()) => replies[0],
            Err(fault) => Err(fault.refusal()),
        }
    }

    // A bad card is answered before a bad payload.
    fn refuse(&self, card: u8, refusal: Refusal) -> Reply {
        match self.rack.card(card) {
            Ok(_) => Err(refusal),
            Err(fault) => Err(fault.refusal()),
        }
    }

    fn view(&self, number: u8) -> Result<View<'_, M>, Refusal> {
        let card = self.rack.card(number)?;
        let log = self.rack.log(self.entries.as_slice(), number)?;
        let index = (number as usize).wrapping_sub(1);
        let machine = self.machines.get(index).ok_or(Refusal::NoSuchCard)?;
        Ok(View {
            number,
            cards: self.cards,
            places: self.places,
            card,
            log,
            machine,
        })
    }

    pub(crate) fn delivered(&mut self, heap: Global, card: u8) -> Result<String, AllocError> {
        let out = self.read.as_mut_slice();
        let count = self.rack.reading(self.entries.as_slice(), card, out);
        let entries = self.read.get(..count.unwrap_or(0)).unwrap_or(&[]);
        Delivered { card, entries }.to_string(heap)
    }
}
