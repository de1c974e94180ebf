// What take and look refuse of frames that no card of this rack would send.
use crate::bench::{Bench, lane, opened, why};
use backplane::Backplane;
use frames::{Frame, Kind};
use protocol::Intake;
use refusals::Refusal;
use std::process::Abort;
use std::test::Fail;

// Card 2 refuses what waits from card 1, and nothing has changed.
fn refused(rt: &impl Abort, bench: &mut Bench, refusal: Refusal) -> Result<(), Fail> {
    let card = bench.rack.card(2)?;
    let waiting = bench.frames.waiting(lane(1, 2, 0))?;
    let entries = bench.entries;
    assert_eq!(rt; why(bench.take(2, 1)), Some(refusal));
    assert_eq!(rt; bench.rack.card(2)?, card);
    assert_eq!(rt; bench.frames.waiting(lane(1, 2, 0))?, waiting);
    assert!(rt; bench.entries == entries);
    Ok(())
}

#[test]
fn malformed_fronts(rt: HostRuntime) -> Result<(), Fail> {
    // an entry of a diff in front
    let mut bench = opened()?;
    bench.part(1, 2, (0, 1, 1))?;
    refused(&rt, &mut bench, Refusal::Malformed)?;
    // a message whose epoch another card leads
    let mut bench = opened()?;
    bench.message(1, 2, (0, 3, 1))?;
    refused(&rt, &mut bench, Refusal::Malformed)?;
    // a diff of another card's epoch
    let mut bench = opened()?;
    bench.head(1, 2, (0, 3), (0, 0, 0), 0)?;
    refused(&rt, &mut bench, Refusal::Malformed)?;
    // too few entries behind the head
    let mut bench = opened()?;
    bench.head(1, 2, (1, 1), (0, 0, 0), 2)?;
    bench.part(1, 2, (0, 1, 1))?;
    refused(&rt, &mut bench, Refusal::Malformed)?;
    // a message among them
    bench.message(1, 2, (0, 1, 2))?;
    refused(&rt, &mut bench, Refusal::Malformed)
}

#[test]
fn entries_that_do_not_rise(rt: HostRuntime) -> Result<(), Fail> {
    // base, and two entries: equal to the base, equal to each other, falling, at the epoch, above it
    let table = [
        ((0, 1, 1), (0, 1, 1), (0, 1, 2)),
        ((0, 0, 0), (0, 1, 1), (0, 1, 1)),
        ((0, 0, 0), (0, 1, 2), (0, 1, 1)),
        ((0, 0, 0), (0, 1, 1), (1, 1, 1)),
        ((0, 0, 0), (0, 1, 1), (2, 1, 1)),
    ];
    for (base, first, second) in table {
        let mut bench = opened()?;
        bench.head(1, 2, (1, 1), base, 2)?;
        bench.part(1, 2, first)?;
        bench.part(1, 2, second)?;
        refused(&rt, &mut bench, Refusal::Malformed)?;
    }
    Ok(())
}

#[test]
fn out_of_turn(rt: HostRuntime) -> Result<(), Fail> {
    // a message of an epoch whose diff the card has not installed
    let mut bench = opened()?;
    bench.message(1, 2, (0, 1, 1))?;
    refused(&rt, &mut bench, Refusal::OutOfTurn)?;
    // one that is not the next, and a diff of the epoch in which the card is
    let mut bench = opened()?;
    bench.head(1, 2, (0, 1), (0, 0, 0), 0)?;
    assert_eq!(rt; bench.take(2, 1), Ok(Intake::Installed));
    bench.message(1, 2, (0, 1, 2))?;
    refused(&rt, &mut bench, Refusal::OutOfTurn)?;
    let mut bench = opened()?;
    bench.head(1, 2, (0, 1), (0, 0, 0), 0)?;
    bench.head(1, 2, (0, 1), (0, 0, 0), 0)?;
    assert_eq!(rt; bench.take(2, 1), Ok(Intake::Installed));
    refused(&rt, &mut bench, Refusal::OutOfTurn)
}

#[test]
fn full_logs(rt: HostRuntime) -> Result<(), Fail> {
    // a diff of more entries than a log has places, and one that is too low to be looked at for that
    let mut bench = opened()?;
    bench.head(1, 2, (1, 1), (0, 0, 0), 3)?;
    bench.part(1, 2, (0, 1, 1))?;
    bench.part(1, 2, (0, 1, 2))?;
    bench.part(1, 2, (0, 1, 3))?;
    refused(&rt, &mut bench, Refusal::LogFull)?;
    bench.rack.timeout(2)?;
    bench.rack.timeout(2)?;
    assert_eq!(rt; bench.take(2, 1), Ok(Intake::PassedOver));
    assert_eq!(rt; bench.frames.waiting(lane(1, 2, 0)), Ok(0));
    // a message for which there is no place, after two for which there is
    let mut bench = opened()?;
    bench.head(1, 2, (0, 1), (0, 0, 0), 0)?;
    bench.message(1, 2, (0, 1, 1))?;
    bench.message(1, 2, (0, 1, 2))?;
    bench.message(1, 2, (0, 1, 3))?;
    assert_eq!(rt; bench.take(2, 1), Ok(Intake::Installed));
    assert_eq!(rt; bench.take(2, 1), Ok(Intake::Appended));
    assert_eq!(rt; bench.take(2, 1), Ok(Intake::Appended));
    refused(&rt, &mut bench, Refusal::LogFull)
}

#[test]
fn rows_in_a_lane_of_others(rt: HostRuntime) -> Result<(), Fail> {
    let mut bench = opened()?;
    let row = Frame::of(Kind::AcceptRow, (0, 1, 1), (0, 0, 0, 0))?;
    for kind in [5, 6] {
        bench.frames.send(lane(1, 2, kind), row)?;
        let card = bench.rack.card(2)?;
        let answer = bench.rack.look(&mut bench.frames, 2, 1, kind);
        assert_eq!(rt; why(answer), Some(Refusal::Malformed));
        assert_eq!(rt; bench.rack.card(2)?, card);
        assert_eq!(rt; bench.frames.waiting(lane(1, 2, kind)), Ok(1));
    }
    // in its own lane it is stored
    bench.frames.send(lane(1, 2, 4), row)?;
    bench.rack.look(&mut bench.frames, 2, 1, 4)?;
    assert_eq!(rt; bench.rack.card(2)?.peers.row(1).accept, (0, 1, 1));
    Ok(())
}
