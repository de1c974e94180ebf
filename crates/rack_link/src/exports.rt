// The session as C reaches it.
use crate::carried::Carried;
use crate::out::Out;
use crate::session::Session;
use backplane::Backplane;
use board::Board;
use frame_box::FrameBox;
use frames::Entry;
use ledger::Ledger;
use ring_table::Shape;
use rings::{Rings, bytes_for};
use std::alloc::{AllocError, Global};

const NONE: usize = usize::MAX;

const MOST_PLACES: u64 = 1024;

// The rack's sizes, and which backplane and which machine it has.
#[repr(C)]
#[derive(Clone, Copy)]
pub struct Setup {
    pub cards: u64,
    pub places: u64,
    pub room: u64,
    // 0 rings, 1 the frame box
    pub store: u64,
    // 0 ledgers, 1 boards
    pub machine: u64,
}

// Over this backplane, with memory of its own.
fn with<B: Backplane, O: Backplane, M: Carried>(
    heap: Global,
    setup: Setup,
    own: &mut B,
    odd: &mut O,
    steps: &[u64],
    out: &mut [u64],
) -> Result<Option<usize>, AllocError> {
    let Ok(blank) = Entry::new((0, 1, 1), 0, (0, 0, 0)) else {
        return Ok(None);
    };
    if !(1..=MOST_PLACES).contains(&setup.places) {
        return Ok(None);
    }
    let places = setup.places as usize;
    let cards = own.cards();
    let mut session: Session<'_, B, O, M> = Session {
        heap,
        opened: None,
        entries: vec![in heap; blank; cards as usize * places + 4]?,
        machines: (0..cards as u16 + 2).map(|_| M::start()).collect(heap)?,
        read: vec![in heap; blank; places + 4]?,
        own,
        odd,
    };
    let mut out = Out::over(out);
    session.run(steps, &mut out);
    Ok(out.whole())
}

fn machines<B: Backplane, O: Backplane>(
    heap: Global,
    setup: Setup,
    own: &mut B,
    odd: &mut O,
    steps: &[u64],
    out: &mut [u64],
) -> Result<Option<usize>, AllocError> {
    match setup.machine {
        0 => with::<B, O, Ledger>(heap, setup, own, odd, steps, out),
        1 => with::<B, O, Board>(heap, setup, own, odd, steps, out),
        _ => Ok(None),
    }
}

// Beside a backplane of another number of cards.
fn beside<B: Backplane>(
    heap: Global,
    setup: Setup,
    own: &mut B,
    steps: &[u64],
    out: &mut [u64],
) -> Result<Option<usize>, AllocError> {
    let other = if setup.cards == 3 { 5 } else { 3 };
    let Ok(shape) = Shape::of(other, 1) else {
        return Ok(None);
    };
    let mut bytes = vec![in heap; 0u8; bytes_for(shape)]?;
    let mut odd = Rings::over(bytes.as_mut_slice(), shape);
    machines(heap, setup, own, &mut odd, steps, out)
}

fn stores(
    heap: Global,
    setup: Setup,
    steps: &[u64],
    out: &mut [u64],
) -> Result<Option<usize>, AllocError> {
    match (setup.store, setup.cards, setup.room) {
        (0, _, _) => over_rings(heap, setup, steps, out),
        (1, 3, 8) => beside(heap, setup, &mut FrameBox::new(), steps, out),
        _ => Ok(None),
    }
}

fn over_rings(
    heap: Global,
    setup: Setup,
    steps: &[u64],
    out: &mut [u64],
) -> Result<Option<usize>, AllocError> {
    let cards = u8::try_from(setup.cards).unwrap_or(0);
    let room = usize::try_from(setup.room).unwrap_or(0);
    let Ok(shape) = Shape::of(cards, room) else {
        return Ok(None);
    };
    // no byte is 0 at first, so that it is seen if one is read before it was written
    let mut bytes = vec![in heap; 0xa5u8; bytes_for(shape)]?;
    beside(
        heap,
        setup,
        &mut Rings::over(bytes.as_mut_slice(), shape),
        steps,
        out,
    )
}

// Carries out the steps on a rack of its own, and writes what each answers and leaves. Answers how many words were written, the
// largest number where there is no such rack, no memory, or no room for the words.
#[unsafe(no_mangle)]
pub extern "C" fn rack_session(
    heap: Global,
    setup: &Setup,
    steps: &[u64],
    out: &mut [u64],
) -> usize {
    match stores(heap, *setup, steps, out) {
        Ok(written) => written.unwrap_or(NONE),
        Err(_) => NONE,
    }
}
