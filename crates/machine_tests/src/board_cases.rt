// The board: its ranges, its turns, its packing, its words for a reader.
use board::{Act, Board, Booking, Shown, lone_board};
use machines::{Item, Machine, through_words};
use refusals::Refusal;
use std::test::Fail;

const BOOK: Act = Act::Book;

const RELEASE: Act = Act::Release;

#[test]
fn made_within_ranges(rt: HostRuntime) {
    let made = [(0, 1), (0, 65535), (63, 1), (63, 65535)];
    for (load, carrier) in made {
        for act in [BOOK, RELEASE] {
            assert!(rt; Booking::new(load, act, carrier).is_ok());
        }
    }
    let refused = [
        (64, 1),
        (0, 0),
        (63, 65536),
        (u64::MAX, 1),
        (0, u64::MAX),
        (256, 1),
        (0, 65537),
    ];
    for (load, carrier) in refused {
        for act in [BOOK, RELEASE] {
            assert_eq!(rt;
                <Board as Machine>::make((load, act, carrier)),
                Err(Refusal::OutOfRange)
            );
        }
    }
}

#[test]
fn turns(rt: HostRuntime) -> Result<(), Fail> {
    let mut board: Board = <Board as Machine>::start();
    for load in 0..64 {
        assert_eq!(rt; board.holder(load), None);
    }
    // load, act, carrier, and who holds the load afterwards, if any
    let table = [
        (0, BOOK, 1, Some(1)),
        (0, BOOK, 1, Some(1)),
        (0, BOOK, 2, Some(1)),
        (0, RELEASE, 2, Some(1)),
        (0, RELEASE, 1, None),
        (0, RELEASE, 1, None),
        (63, RELEASE, 65535, None),
        (63, BOOK, 65535, Some(65535)),
        (63, BOOK, 1, Some(65535)),
        (62, BOOK, 1, Some(1)),
        (63, RELEASE, 65535, None),
        (62, RELEASE, 65535, Some(1)),
    ];
    for (queue, (load, act, carrier, after)) in table.into_iter().enumerate() {
        let payload = <Board as Machine>::make((load, act, carrier))?;
        board.apply((queue % 16) as u8, payload);
        assert_eq!(rt; board.holder((load % 64) as u8), after);
        board.apply(0, <Board as Machine>::blank());
        assert_eq!(rt; board.holder((load % 64) as u8), after);
    }
    assert_eq!(rt; board.holder(64), None);
    assert_eq!(rt; board.holder(255), None);
    Ok(())
}

#[test]
fn words(rt: HostRuntime) {
    assert_eq!(rt;
        <Board as Machine>::pack(<Board as Machine>::blank()),
        (0, 0, 0)
    );
    for w in [(0, 1, 1), (63, 2, 65535), (5, 1, 300)] {
        let payload = <Board as Machine>::unpack(w);
        assert_ne!(rt; payload, None);
        assert_eq!(rt; <Board as Machine>::pack(payload), w);
        assert_eq!(rt; through_words::<Board>(payload), payload);
    }
    let blanks = [
        (0, 0, 0),
        (64, 1, 1),
        (0, 3, 1),
        (0, 0, 1),
        (0, 1, 0),
        (0, 2, 65536),
        (u64::MAX, u64::MAX, u64::MAX),
    ];
    for w in blanks {
        assert_eq!(rt; <Board as Machine>::unpack(w), None);
    }
    assert_eq!(rt; Act::Book.number(), 1);
    assert_eq!(rt; Act::Release.number(), 2);
}

#[test]
fn alone(rt: HostRuntime) {
    let item = [
        Item {
            queue: 0,
            words: (3, 1, 17),
        },
        Item {
            queue: 15,
            words: (3, 1, 18),
        },
        Item {
            queue: 7,
            words: (3, 3, 17),
        },
    ];
    assert_eq!(rt; lone_board(&item).holder(3), Some(17));
    assert_eq!(rt; lone_board(&[]).holder(3), None);
}

#[test]
fn printed(rt: HostRuntime) -> Result<(), Fail> {
    let heap = rt.alloc();
    let booked = Shown(<Board as Machine>::make((3, BOOK, 17))?).to_string(heap)?;
    assert!(rt; booked.as_str() == "book load 3 for carrier 17");
    let released = Shown(<Board as Machine>::make((3, RELEASE, 17))?).to_string(heap)?;
    assert!(rt; released.as_str() == "release load 3 by carrier 17");
    let blank = Shown(<Board as Machine>::blank()).to_string(heap)?;
    assert!(rt; blank.as_str() == "blank");
    Ok(())
}
