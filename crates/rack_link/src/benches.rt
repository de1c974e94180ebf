// What is timed from outside: each a loop over one thing. The answers are sums, so that nothing is left out as unused; the
// largest number says that something was refused.
use crate::desk::Desk;
use backplane::{Backplane, Lane};
use frame_box::FrameBox;
use frames::slot::{SLOT, read_slot, write_slot};
use frames::{Entry, Frame};
use ledger::Ledger;
use machines::Machine;
use refusals::Refusal;
use ring_table::Shape;
use rings::{Rings, bytes_for};
use std::alloc::{AllocError, Global};

// How many slots lie side by side.
const SLOTS: usize = 8;

const REFUSED: u64 = u64::MAX;

fn message(k: u64) -> Result<Frame, Refusal> {
    let count = (k & 65535) as u32 + 1;
    let entry = Entry::new((1, 1, count), (k & 15) as u8, (k, k ^ 12345, k >> 3))?;
    Ok(Frame::message(entry))
}

fn write_slots(rounds: u64) -> Result<u64, Refusal> {
    let mut bytes = [0u8; SLOTS * SLOT];
    for k in 0..rounds {
        write_slot(&mut bytes, (k as usize & 7) * SLOT, message(k)?)?;
    }
    Ok(
        bytes
            .iter()
            .fold(0, |sum: u64, byte| sum.wrapping_add(*byte as u64)),
    )
}

fn read_slots(rounds: u64) -> Result<u64, Refusal> {
    let mut bytes = [0u8; SLOTS * SLOT];
    for k in 0..8u64 {
        write_slot(&mut bytes, (k as usize & 7) * SLOT, message(k)?)?;
    }
    let mut sum = 0u64;
    for k in 0..rounds {
        let frame = read_slot(&bytes, (k as usize & 7) * SLOT)?;
        sum = sum
            .wrapping_add(frame.epoch().0 as u64)
            .wrapping_add(frame.fields()[5]);
    }
    Ok(sum)
}

fn send_and_drop<B: Backplane>(
    backplane: &mut B,
    backlog: usize,
    rounds: u64,
) -> Result<u64, Refusal> {
    let lane = Lane {
        from: 1,
        to: 2,
        number: 0,
    };
    for k in 0..backlog {
        backplane.send(lane, message(k as u64)?)?;
    }
    let mut sum = 0u64;
    for k in 0..rounds {
        backplane.send(lane, message(k)?)?;
        sum = sum.wrapping_add(backplane.frame_at(lane, 0)?.fields()[5]);
        backplane.drop_first(lane, 1)?;
    }
    Ok(sum)
}

// What is done with a rack that card 1 leads.
#[derive(Clone, Copy)]
enum Deed {
    // so many bookings
    Book(u64),
    // Card 1 has so many entries that reached nobody, wins again, and ships them as a diff.
    Elect(u64),
}

fn book<B: Backplane>(desk: &mut Desk<'_, B>, bookings: u64) -> Result<u64, Refusal> {
    let mut sum = 0u64;
    for k in 0..bookings {
        sum = sum.wrapping_add(desk.book(k)?);
    }
    Ok(sum)
}

fn elect<B: Backplane>(desk: &mut Desk<'_, B>, backlog: u64) -> Result<u64, Refusal> {
    for k in 0..backlog {
        desk.submit(k)?;
    }
    desk.leave_first()?;
    desk.elect_first()?;
    desk.follow_first()
}

// A rack's sizes, how many racks are opened one after the other over the same memory, and what is done with each.
#[derive(Clone, Copy)]
struct Series {
    cards: u8,
    places: usize,
    racks: u64,
    deed: Deed,
}

fn over<B: Backplane>(
    heap: Global,
    series: Series,
    backplane: &mut B,
) -> Result<Result<u64, Refusal>, AllocError> {
    let blank = match Entry::new((0, 1, 1), 0, (0, 0, 0)) {
        Ok(entry) => entry,
        Err(refusal) => return Ok(Err(refusal)),
    };
    let Series { cards, places, .. } = series;
    let entries = vec![in heap; blank; cards as usize * places.min(1024)]?;
    let machines: Vec<Ledger> = (0..cards)
        .map(|_| <Ledger as Machine>::start())
        .collect(heap)?;
    Ok(
        match Desk::<B>::over(cards, places, entries, machines, backplane) {
            Ok(mut desk) => repeat(&mut desk, series),
            Err(refusal) => Err(refusal),
        },
    )
}

fn repeat<B: Backplane>(desk: &mut Desk<'_, B>, series: Series) -> Result<u64, Refusal> {
    let mut sum = 0u64;
    for _ in 0..series.racks {
        sum = sum.wrapping_add(one(desk, series.deed)?);
    }
    Ok(sum)
}

fn on_racks(heap: Global, room: usize, series: Series) -> Result<Result<u64, Refusal>, AllocError> {
    match Shape::of(series.cards, room) {
        Ok(shape) => {
            let mut bytes = vec![in heap; 0u8; bytes_for(shape)]?;
            over(heap, series, &mut Rings::over(bytes.as_mut_slice(), shape))
        }
        Err(refusal) => Ok(Err(refusal)),
    }
}

fn one<B: Backplane>(desk: &mut Desk<'_, B>, deed: Deed) -> Result<u64, Refusal> {
    desk.reopen()?;
    match deed {
        Deed::Book(bookings) => book(desk, bookings),
        Deed::Elect(backlog) => elect(desk, backlog),
    }
}

fn told(did: Result<Result<u64, Refusal>, AllocError>) -> u64 {
    match did {
        Ok(Ok(sum)) => sum,
        _ => REFUSED,
    }
}

#[unsafe(no_mangle)]
pub extern "C" fn rack_bench_slot_write(rounds: u64) -> u64 {
    write_slots(rounds).unwrap_or(REFUSED)
}

#[unsafe(no_mangle)]
pub extern "C" fn rack_bench_slot_read(rounds: u64) -> u64 {
    read_slots(rounds).unwrap_or(REFUSED)
}

fn ring(
    heap: Global,
    cards: u8,
    room: usize,
    backlog: usize,
    rounds: u64,
) -> Result<Result<u64, Refusal>, AllocError> {
    let shape = match Shape::of(cards, room) {
        Ok(shape) => shape,
        Err(refusal) => return Ok(Err(refusal)),
    };
    let mut bytes = vec![in heap; 0u8; bytes_for(shape)]?;
    Ok(send_and_drop(
        &mut Rings::over(bytes.as_mut_slice(), shape),
        backlog,
        rounds,
    ))
}

#[unsafe(no_mangle)]
pub extern "C" fn rack_bench_ring(
    heap: Global,
    cards: u8,
    room: usize,
    backlog: usize,
    rounds: u64,
) -> u64 {
    told(ring(heap, cards, room, backlog, rounds))
}

#[unsafe(no_mangle)]
pub extern "C" fn rack_bench_box(backlog: usize, rounds: u64) -> u64 {
    send_and_drop(&mut FrameBox::new(), backlog, rounds).unwrap_or(REFUSED)
}

#[unsafe(no_mangle)]
pub extern "C" fn rack_bench_book(
    heap: Global,
    cards: u8,
    places: usize,
    room: usize,
    racks: u64,
    bookings: u64,
) -> u64 {
    told(on_racks(
        heap,
        room,
        Series {
            cards,
            places,
            racks,
            deed: Deed::Book(bookings),
        },
    ))
}

#[unsafe(no_mangle)]
pub extern "C" fn rack_bench_elect(
    heap: Global,
    cards: u8,
    places: usize,
    room: usize,
    racks: u64,
    backlog: u64,
) -> u64 {
    told(on_racks(
        heap,
        room,
        Series {
            cards,
            places,
            racks,
            deed: Deed::Elect(backlog),
        },
    ))
}
