// What is to be done with a rack, on the one that is chosen.
use crate::payloads::Printed;
use crate::setup::{Machines, Setup, Store};
use crate::table::Table;
use backplane::Backplane;
use board::Board;
use frame_box::FrameBox;
use ledger::Ledger;
use refusals::Refusal;
use ring_table::Shape;
use rings::{Rings, bytes_for};
use std::alloc::Global;
use std::io;

// Frames that a lane of rings holds where nothing is said.
const ROOM: usize = 20;

pub(crate) trait Work: Drop {
    fn work<B: Backplane, M: Printed>(self, table: &mut Table<'_, B, M>) -> io::Result<()>;
}

fn over<B: Backplane, M: Printed, W: Work>(
    heap: Global,
    setup: Setup,
    backplane: &mut B,
    work: W,
) -> io::Result<Result<(), Refusal>> {
    match Table::<B, M>::open(heap, setup.cards, setup.places, backplane)? {
        Ok(mut table) => Ok(Ok(work.work(&mut table)?)),
        Err(refusal) => Ok(Err(refusal)),
    }
}

fn with_machines<B: Backplane, W: Work>(
    heap: Global,
    setup: Setup,
    backplane: &mut B,
    work: W,
) -> io::Result<Result<(), Refusal>> {
    match setup.machines {
        Machines::Ledgers => over::<B, Ledger, W>(heap, setup, backplane, work),
        Machines::Boards => over::<B, Board, W>(heap, setup, backplane, work),
    }
}

// Opens the rack, over memory of its own, and does the work on it; refused where its sizes are.
pub(crate) fn on_rack<W: Work>(
    heap: Global,
    setup: Setup,
    work: W,
) -> io::Result<Result<(), Refusal>> {
    match setup.store {
        Store::FrameBox => {
            let mut frames = FrameBox::new();
            if setup.room.is_some_and(|room| room != frames.capacity()) {
                return Ok(Err(Refusal::WrongSize));
            }
            with_machines(heap, setup, &mut frames, work)
        }
        Store::Rings => match Shape::of(setup.cards, setup.room.unwrap_or(ROOM)) {
            // Kept: `lane_desk` and `booking` lend bytes in the same way; `lane_desk` says why.
            Ok(shape) => {
                let mut bytes = vec![in heap; 0u8; bytes_for(shape)]?;
                with_machines(
                    heap,
                    setup,
                    &mut Rings::over(bytes.as_mut_slice(), shape),
                    work,
                )
            }
            Err(refusal) => Ok(Err(refusal)),
        },
    }
}
