// The ledger: its ranges, both ends of a balance, its packing, its words for a reader.
use ledger::{Ledger, Posting, lone_ledger, sample_words};
use machines::{Item, Machine};
use refusals::Refusal;
use std::test::Fail;

const LEAST: i64 = -2147483648;

const MOST: i64 = 2147483647;

#[test]
fn made_within_ranges(rt: HostRuntime) {
    for (carrier, cents) in [(0, 0), (0, LEAST), (31, MOST), (31, LEAST), (2, -500)] {
        assert!(rt; Posting::new(carrier, cents).is_ok());
    }
    let refused = [
        (32, 0),
        (u64::MAX, 0),
        (256, 0),
        (0, MOST + 1),
        (0, LEAST - 1),
        (31, i64::MAX),
        (31, i64::MIN),
    ];
    for draft in refused {
        assert_eq!(rt; <Ledger as Machine>::make(draft), Err(Refusal::OutOfRange));
    }
}

#[test]
fn turns(rt: HostRuntime) -> Result<(), Fail> {
    let mut ledger: Ledger = <Ledger as Machine>::start();
    for carrier in 0..32 {
        assert_eq!(rt; ledger.balance_cents(carrier), Some(0));
    }
    // carrier, amount, how often, and the balance afterwards
    let table = [
        (2, -500, 1, -500),
        (0, MOST, 1, MOST),
        (0, LEAST, 1, -1),
        (31, MOST, 4190, 8997956480930),
        (31, 2043519070, 1, 9000000000000),
        (31, 1, 1, 9000000000000),
        (31, MOST, 3, 9000000000000),
        (31, -1, 1, 8999999999999),
        (31, 2, 1, 8999999999999),
        (30, LEAST, 4190, -8997956485120),
        (30, -2043514880, 1, -9000000000000),
        (30, -1, 1, -9000000000000),
        (30, LEAST, 3, -9000000000000),
        (30, 1, 1, -8999999999999),
        (30, -2, 1, -8999999999999),
        (2, 500, 1, 0),
    ];
    for (carrier, cents, times, after) in table {
        let posting = Posting::new(carrier, cents)?;
        for _ in 0..times {
            ledger.apply(4, posting);
        }
        assert_eq!(rt; ledger.balance_cents(posting.carrier), Some(after));
        ledger.apply(4, <Ledger as Machine>::blank());
        assert_eq!(rt; ledger.balance_cents(posting.carrier), Some(after));
    }
    assert_eq!(rt; ledger.balance_cents(32), None);
    assert_eq!(rt; ledger.balance_cents(255), None);
    Ok(())
}

#[test]
fn words(rt: HostRuntime) {
    assert_eq!(rt; sample_words(), (2, 2147483148, 0));
    assert_eq!(rt;
        <Ledger as Machine>::pack(<Ledger as Machine>::blank()),
        (0, 2147483648, 0)
    );
    for w in [(0, 0, 0), (31, 4294967295, 0), (2, 2147483148, 0)] {
        assert_eq!(rt;
            <Ledger as Machine>::pack(<Ledger as Machine>::unpack(w)),
            w
        );
    }
    let blanks = [
        (32, 0, 0),
        (0, 4294967296, 0),
        (1, 5, 1),
        (u64::MAX, u64::MAX, u64::MAX),
    ];
    for w in blanks {
        assert_eq!(rt;
            <Ledger as Machine>::unpack(w),
            <Ledger as Machine>::blank()
        );
    }
}

#[test]
fn alone(rt: HostRuntime) {
    let items = [
        Item {
            queue: 4,
            words: (2, 2147483148, 0),
        },
        Item {
            queue: 0,
            words: (2, 2147483649, 0),
        },
        Item {
            queue: 15,
            words: (2, 7, 7),
        },
    ];
    assert_eq!(rt; lone_ledger(&items).balance_cents(2), Some(-499));
    assert_eq!(rt; lone_ledger(&[]).balance_cents(2), Some(0));
}

#[test]
fn printed(rt: HostRuntime) -> Result<(), Fail> {
    let text = Posting::new(2, -500)?.to_string(rt.alloc())?;
    assert!(rt; text.as_str() == "post -500 cents to carrier 2");
    Ok(())
}
