// A rack with all that is lent to it, and the steps that are carried out on it.
use crate::carried::Carried;
use crate::out::Out;
use crate::step::{STEP, Step};
use crate::told::NOT_DONE;
use backplane::Backplane;
use frames::Entry;
use rack::Rack;
use std::alloc::Global;

// An open rack and its sizes.
#[derive(Drop)]
pub(crate) struct Opened {
    pub(crate) rack: Rack,
    pub(crate) cards: u8,
    pub(crate) places: usize,
}

#[derive(Drop)]
pub(crate) struct Session<'a, B: Backplane, O: Backplane, M: Carried> {
    pub(crate) heap: Global,
    pub(crate) opened: Option<Opened>,
    pub(crate) entries: Vec<Entry>,
    pub(crate) machines: Vec<M>,
    // what a reading is copied to
    pub(crate) read: Vec<Entry>,
    pub(crate) own: &'a mut B,
    // of another number of cards
    pub(crate) odd: &'a mut O,
}

impl<B: Backplane, O: Backplane, M: Carried> Session<'_, B, O, M> {
    // Each step's reply, and then all that stands.
    pub(crate) fn run(&mut self, steps: &[u64], out: &mut Out<'_>) {
        // the first step that no other has taken with it
        let mut next = 0;
        for (k, _) in steps.chunks(STEP).enumerate() {
            if next <= k {
                let step = Step::over(steps.get(k.saturating_mul(STEP)..).unwrap_or(&[]));
                let begun = out.begin();
                let taken = self.step(step, out);
                out.end(begun);
                let begun = out.begin();
                self.dump(out);
                out.end(begun);
                next = k.saturating_add(taken).saturating_add(1);
            }
        }
    }

    // Says how many of the records behind it the step has taken with it.
    fn step(&mut self, step: Step<'_>, out: &mut Out<'_>) -> usize {
        match step.word(0) {
            0 => self.open(step, out),
            1..=10 => self.call(step, out),
            11 => self.reading(step, out),
            12 => self.log(step, out),
            13 => self.card(step, out),
            14 => self.fits(step, out),
            15 => return self.play(step, out),
            16 => self.put_entry(step, out),
            17 => self.apply(step, out),
            18..=24 => self.lanes(step, out),
            25 => return self.send_all(step, out),
            code => crate::alone::step::<M>(code, step, out),
        }
        0
    }

    fn open(&mut self, step: Step<'_>, out: &mut Out<'_>) {
        let cards = step.small(1);
        let places = step.size(2);
        let entries = front(self.entries.as_slice(), step.size(3));
        let machines = front_mut(self.machines.as_mut_slice(), step.size(4));
        let opened = if step.word(5) == 0 {
            Rack::open::<B, M>(cards, places, entries, machines, &*self.own)
        } else {
            Rack::open::<O, M>(cards, places, entries, machines, &*self.odd)
        };
        match opened {
            Ok(rack) => {
                self.opened = Some(Opened {
                    rack,
                    cards,
                    places,
                });
                out.done();
            }
            Err(fault) => out.refused(fault.refusal()),
        }
    }

    // A caller may write any entry into any place.
    fn put_entry(&mut self, step: Step<'_>, out: &mut Out<'_>) {
        match step.entry(2) {
            Ok(entry) => match self.entries.get_mut(step.size(1)) {
                Some(place) => {
                    *place = entry;
                    out.done();
                }
                None => out.put(NOT_DONE),
            },
            Err(refusal) => out.refused(refusal),
        }
    }

    // A caller may change any machine.
    fn apply(&mut self, step: Step<'_>, out: &mut Out<'_>) {
        match self.machines.get_mut(step.size(1)) {
            Some(machine) => {
                machines::apply_words(machine, step.small(2), step.three(3));
                out.done();
            }
            None => out.put(NOT_DONE),
        }
    }
}

// So many from the front, or all where there are fewer.
pub(crate) fn front<T>(all: &[T], len: usize) -> &[T] {
    all.get(..len).unwrap_or(all)
}

pub(crate) fn front_mut<T>(all: &mut [T], len: usize) -> &mut [T] {
    let few = len.min(all.len());
    &mut all[..few]
}
