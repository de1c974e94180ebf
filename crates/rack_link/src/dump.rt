// All that stands, after every step.
use crate::carried::Carried;
use crate::out::Out;
use crate::session::{Opened, Session, front};
use backplane::{Backplane, is_quiet};
use frames::Entry;
use protocol::Card;
use rack::Rack;

fn stirred(sum: u64, word: u64) -> u64 {
    (sum ^ word).wrapping_mul(0x100000001b3).rotate_left(23)
}

fn stirred_entry(sum: u64, entry: Entry) -> u64 {
    let (round, leader, count) = entry.header;
    let (first, second, third) = entry.payload;
    let marks = ((round as u64) << 32) | count as u64;
    let small = ((leader as u64) << 8) | entry.queue as u64;
    let sum = stirred(stirred(sum, marks), small);
    stirred(stirred(stirred(sum, first), second), third)
}

impl<B: Backplane, O: Backplane, M: Carried> Session<'_, B, O, M> {
    pub(crate) fn dump(&self, out: &mut Out<'_>) {
        match &self.opened {
            Some(opened) => self.dump_rack(opened, out),
            None => out.put(0),
        }
        for machine in self.machines.iter() {
            machine.dump(out);
        }
        self.dump_lanes(out);
        out.put(is_quiet(&*self.odd) as u64);
        out.put(
            self.entries
                .iter()
                .fold(0, |sum, entry| stirred_entry(sum, *entry)),
        );
    }

    fn dump_rack(&self, opened: &Opened, out: &mut Out<'_>) {
        let total = opened.places.saturating_mul(opened.cards as usize);
        let entries = front(self.entries.as_slice(), total);
        out.put(1);
        out.put(opened.cards as u64);
        out.put(opened.places as u64);
        out.put(opened.rack.tally());
        for number in 1..=opened.cards {
            let card = opened.rack.card(number).unwrap_or(Card::opened());
            out.card(&card);
        }
        for number in 1..=opened.cards {
            dump_log(&opened.rack, entries, number, out);
        }
    }
}

fn dump_log(rack: &Rack, entries: &[Entry], number: u8, out: &mut Out<'_>) {
    let Ok(log) = rack.log(entries, number) else {
        return out.put(0);
    };
    out.put(log.len() as u64);
    for entry in log {
        out.entry(*entry);
    }
}
