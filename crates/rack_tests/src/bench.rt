// A rack of three cards over the frame box, with places for two entries in each log, and ledgers.
use backplane::{Backplane, Lane};
use frame_box::FrameBox;
use frames::{Entry, Frame, Kind};
use ledger::Ledger;
use machines::Machine;
use marks::{Epoch, Header};
use protocol::Intake;
use rack::{Rack, RackFault};
use refusals::Refusal;
use std::test::Fail;

pub(crate) const PLACES: usize = 2;

#[derive(Drop)]
pub struct Bench {
    pub rack: Rack,
    pub entries: [Entry; 6],
    pub machines: [Ledger; 3],
    pub frames: FrameBox,
}

pub(crate) fn lane(from: u8, to: u8, number: u8) -> Lane {
    Lane { from, to, number }
}

pub(crate) fn ledgers() -> [Ledger; 3] {
    [
        <Ledger as Machine>::start(),
        <Ledger as Machine>::start(),
        <Ledger as Machine>::start(),
    ]
}

pub(crate) fn entry(header: Header) -> Result<Entry, Refusal> {
    Entry::new(header, 4, (2, 2147483148, 0))
}

// By what a call is refused, if it is.
pub(crate) fn why<T: Drop>(answer: Result<T, RackFault>) -> Option<Refusal> {
    answer.err().map(|fault| fault.refusal())
}

pub(crate) fn opened() -> Result<Bench, Fail> {
    let entries = [entry((0, 1, 1))?; 6];
    let mut machines = ledgers();
    let frames = FrameBox::new();
    let rack = Rack::open::<FrameBox, Ledger>(3, PLACES, &entries, &mut machines, &frames)?;
    Ok(Bench {
        rack,
        entries,
        machines,
        frames,
    })
}

impl Bench {
    pub(crate) fn take(&mut self, card: u8, peer: u8) -> Result<Intake, RackFault> {
        self.rack
            .take(&mut self.entries, &mut self.frames, card, peer)
    }

    // Sends the message of an entry by hand.
    pub(crate) fn message(&mut self, from: u8, to: u8, header: Header) -> Result<(), Fail> {
        Ok(
            self.frames
                .send(lane(from, to, 0), Frame::message(entry(header)?))?,
        )
    }

    // Sends the head of a diff by hand.
    pub(crate) fn head(
        &mut self,
        from: u8,
        to: u8,
        epoch: Epoch,
        base: Header,
        entries: u64,
    ) -> Result<(), Fail> {
        let (round, leader, count) = base;
        let words = (round as u64, leader as u64, count as u64, entries);
        let head = Frame::of(Kind::DiffHead, (epoch.0, epoch.1, 0), words)?;
        Ok(self.frames.send(lane(from, to, 0), head)?)
    }

    // Sends a diff's entry by hand.
    pub(crate) fn part(&mut self, from: u8, to: u8, header: Header) -> Result<(), Fail> {
        let frame = Frame::diff_entry(entry(header)?);
        Ok(self.frames.send(lane(from, to, 0), frame)?)
    }
}
