// What is refused by 2, before all that has a higher number and after what has a lower one.
use crate::bench::{PLACES, entry, lane, ledgers, opened, why};
use backplane::Backplane;
use frame_box::FrameBox;
use frames::Frame;
use ledger::Ledger;
use play::play;
use protocol::{Answer, Call};
use rack::Rack;
use refusals::Refusal;
use rings::{Rings, shape_for};
use std::test::Fail;

#[test]
fn open_by_its_sizes(rt: HostRuntime) -> Result<(), Fail> {
    let entries = [entry((0, 1, 1))?; 6];
    let frames = FrameBox::new();
    // cards, places, entries, and whether they are a rack's
    let table = [
        (3, 2, 6, true),
        (3, 1, 3, true),
        (3, 2, 5, false),
        (3, 1, 6, false),
        (3, 0, 0, false),
        (3, 1025, 6, false),
        (0, 2, 0, false),
        (1, 2, 2, false),
        (2, 3, 6, false),
        (4, 1, 4, false),
        (5, 1, 5, false),
        (6, 1, 6, false),
        (255, usize::MAX, 6, false),
    ];
    for (cards, places, count, fits) in table {
        let mut machines = ledgers();
        let lent = entries.get(..count).unwrap_or(&entries);
        let opened = Rack::open::<FrameBox, Ledger>(cards, places, lent, &mut machines, &frames);
        assert_eq!(rt;
            opened.is_ok(),
            fits,
            "{cards} cards, {places} places, {count} entries"
        );
        if let Err(fault) = opened {
            assert_eq!(rt; fault.refusal(), Refusal::WrongSize);
        }
    }
    Ok(())
}

#[test]
fn open_by_what_is_lent(rt: HostRuntime) -> Result<(), Fail> {
    let entries = [entry((0, 1, 1))?; 6];
    let mut frames = FrameBox::new();
    // too few machines
    let mut machines = ledgers();
    let few = machines.get_mut(..2).unwrap_or(&mut []);
    assert!(rt; Rack::open::<FrameBox, Ledger>(3, 2, &entries, few, &frames).is_err());
    // a frame that waits
    frames.send(lane(2, 3, 0), Frame::message(entry((0, 1, 1))?))?;
    let mut machines = ledgers();
    assert!(rt; Rack::open::<FrameBox, Ledger>(3, 2, &entries, &mut machines, &frames).is_err());
    Ok(())
}

#[test]
fn calls_by_what_is_lent(rt: HostRuntime) -> Result<(), Fail> {
    let mut bench = opened()?;
    let wrong = Some(Refusal::WrongSize);
    let none = Some(Refusal::NoSuchCard);
    let mut few = [entry((0, 1, 1))?; 5];
    let mut bytes = [0u8; 19200];
    let mut others = Rings::over(&mut bytes[..], shape_for(5, 4, 19200)?);
    let mut places = [entry((0, 1, 1))?; PLACES];
    let rack = &mut bench.rack;
    let words = (0, 0, 0);
    assert_eq!(rt; why(rack.submit(&mut few, 1, 99, words)), wrong);
    assert_eq!(rt; why(rack.submit(&mut few, 4, 99, words)), none);
    assert_eq!(rt; why(rack.ship(&few, &mut bench.frames, 1, 2)), wrong);
    assert_eq!(rt; why(rack.ship(&bench.entries, &mut others, 1, 2)), wrong);
    assert_eq!(rt; why(rack.take(&mut few, &mut bench.frames, 1, 2)), wrong);
    assert_eq!(rt;
        why(rack.take(&mut bench.entries, &mut others, 1, 2)),
        wrong
    );
    assert_eq!(rt; why(rack.take(&mut few, &mut others, 1, 1)), none);
    assert_eq!(rt; why(rack.push(&mut others, 1, 2, 9)), wrong);
    assert_eq!(rt; why(rack.look(&mut others, 1, 2, 9)), wrong);
    assert_eq!(rt; why(rack.push(&mut others, 1, 4, 9)), none);
    assert_eq!(rt; why(rack.commit(&few, &mut bench.machines, 1)), wrong);
    let machines = bench.machines.get_mut(..2).unwrap_or(&mut []);
    assert_eq!(rt; why(rack.commit(&bench.entries, machines, 1)), wrong);
    assert_eq!(rt; why(rack.reading(&few, 1, &mut places)), wrong);
    assert_eq!(rt; why(rack.reading(&few, 0, &mut places)), none);
    assert!(rt; rack.log(&few, 1).is_err() && rack.log(&few, 4).is_err());
    Ok(())
}

#[test]
fn play_as_a_whole(rt: HostRuntime) -> Result<(), Fail> {
    let mut bench = opened()?;
    let calls = [Call::Timeout(1), Call::Timeout(2)];
    let mut replies = [Ok(Answer::Done); 3];
    let played = play::<FrameBox, Ledger>(
        &mut bench.rack,
        &mut bench.entries,
        &mut bench.machines,
        &mut bench.frames,
        &calls,
        &mut replies,
    );
    assert_eq!(rt; why(played), Some(Refusal::WrongSize));
    assert_eq!(rt; replies, [Ok(Answer::Done); 3]);
    assert_eq!(rt; bench.rack.card(1)?.newest, (0, 0));
    let played = play::<FrameBox, Ledger>(
        &mut bench.rack,
        &mut bench.entries,
        &mut bench.machines,
        &mut bench.frames,
        &calls,
        &mut replies[..2],
    );
    assert!(rt; played.is_ok());
    assert_eq!(rt; replies[1], Ok(Answer::ForEpoch((0, 2))));
    Ok(())
}
