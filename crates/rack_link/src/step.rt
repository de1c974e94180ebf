// A step as it is handed in: a code and eleven words, and the records behind it.
use backplane::Lane;
use frames::{Entry, Frame, Words};
use protocol::Call;
use refusals::Refusal;

pub(crate) const STEP: usize = 12;

// From the step's code on, with all that follows.
#[derive(Clone, Copy)]
pub(crate) struct Step<'a> {
    words: &'a [u64],
}

impl<'a> Step<'a> {
    pub(crate) fn over(words: &'a [u64]) -> Step<'a> {
        Step { words }
    }

    // A word of the step; what is missing is 0.
    pub(crate) fn word(self, at: usize) -> u64 {
        self.words.get(at).copied().unwrap_or(0)
    }

    // A card, a queue or a kind.
    pub(crate) fn small(self, at: usize) -> u8 {
        (self.word(at) & 255) as u8
    }

    pub(crate) fn size(self, at: usize) -> usize {
        self.word(at) as usize
    }

    // Three words from here on.
    pub(crate) fn three(self, at: usize) -> Words {
        let next = at.wrapping_add(1);
        (
            self.word(at),
            self.word(next),
            self.word(next.wrapping_add(1)),
        )
    }

    // A lane's three numbers from here on.
    pub(crate) fn lane(self, at: usize) -> Lane {
        let next = at.wrapping_add(1);
        Lane {
            from: self.small(at),
            to: self.small(next),
            number: self.small(next.wrapping_add(1)),
        }
    }

    // The frame whose eight numbers begin here.
    pub(crate) fn frame(self, at: usize) -> Result<Frame, Refusal> {
        let mut fields = [0; 8];
        for (k, field) in fields.iter_mut().enumerate() {
            *field = self.word(at.wrapping_add(k));
        }
        Frame::from_fields(fields)
    }

    // The entry whose header, queue and payload begin here.
    pub(crate) fn entry(self, at: usize) -> Result<Entry, Refusal> {
        let (round, leader, count) = self.three(at);
        let header = (
            u32::try_from(round).or(Err(Refusal::Malformed))?,
            u8::try_from(leader).or(Err(Refusal::Malformed))?,
            u32::try_from(count).or(Err(Refusal::Malformed))?,
        );
        let queue = self.small(at.wrapping_add(3));
        Entry::new(header, queue, self.three(at.wrapping_add(4)))
    }

    // The records behind the step, of which it takes some with it.
    pub(crate) fn record(self, k: usize) -> Step<'a> {
        let start = k.saturating_add(1).saturating_mul(STEP);
        Step::over(self.words.get(start..).unwrap_or(&[]))
    }

    // The step as one of the ten calls; a stop of no card where it is none.
    pub(crate) fn call(self) -> Call {
        let card = self.small(1);
        let peer = self.small(2);
        let kind = self.small(3);
        match self.word(0) {
            1 => Call::Timeout(card),
            2 => Call::Elect(card),
            3 => Call::Win(card),
            4 => Call::Submit(card, peer, self.three(3)),
            5 => Call::Ship(card, peer),
            6 => Call::Take(card, peer),
            7 => Call::Push(card, peer, kind),
            8 => Call::Look(card, peer, kind),
            9 => Call::Commit(card),
            10 => Call::Stop(card),
            _ => Call::Stop(0),
        }
    }
}
