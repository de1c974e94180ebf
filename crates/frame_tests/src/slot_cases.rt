// Slots at any start in some bytes, whole and damaged.
use frames::make::FrameWords;
use frames::slot::{read_slot, write_slot};
use frames::{Entry, Frame};
use marks::Header;
use refusals::Refusal;
use std::test::Fail;

type Numbers = (u8, Header, FrameWords);

const FRAMES: [Numbers; 8] = [
    (1, (0, 1, 1), (4, 2, 2147483148, 0)),
    (
        1,
        (4294967295, 7, 4294967294),
        (
            15,
            18446744073709551615,
            18446744073709551615,
            18446744073709551615,
        ),
    ),
    (2, (3, 2, 0), (2, 7, 4294967294, 1024)),
    (3, (0, 3, 2), (0, 0, 0, 0)),
    (4, (0, 0, 0), (0, 0, 0, 0)),
    (4, (9, 4, 12), (0, 0, 0, 0)),
    (5, (1, 2, 0), (0, 3, 7, 0)),
    (6, (0, 5, 1), (0, 0, 0, 0)),
];

#[test]
fn written_slots_read_back(rt: HostRuntime) -> Result<(), Fail> {
    for start in [0usize, 1, 5, 16] {
        for (kind, header, words) in FRAMES {
            let mut bytes = [0xAAu8; 64];
            let frame = Frame::new(kind, header, words)?;
            assert_eq!(rt; write_slot(&mut bytes, start, frame), Ok(()));
            assert_eq!(rt; read_slot(&bytes, start), Ok(frame));
            assert_eq!(rt; (frame.kind.number(), frame.header()), (kind, header));
            assert_eq!(rt; (frame.w1, frame.w2, frame.w3, frame.w4), words);
            for (i, byte) in bytes.iter().enumerate() {
                if i < start || start + 48 <= i {
                    assert_eq!(rt; *byte, 0xAA, "a byte beside the slot");
                }
            }
        }
    }
    Ok(())
}

#[test]
fn past_the_end(rt: HostRuntime) -> Result<(), Fail> {
    let frame = Frame::new(4, (0, 0, 0), (0, 0, 0, 0))?;
    for start in [17usize, 64, 65, 18446744073709551615] {
        let mut bytes = [0xAAu8; 64];
        assert_eq!(rt;
            write_slot(&mut bytes, start, frame),
            Err(Refusal::WrongSize)
        );
        assert_eq!(rt; read_slot(&bytes, start), Err(Refusal::WrongSize));
        for byte in bytes {
            assert_eq!(rt; byte, 0xAA, "nothing is written");
        }
    }
    let mut short = [0u8; 47];
    assert_eq!(rt; write_slot(&mut short, 0, frame), Err(Refusal::WrongSize));
    assert_eq!(rt; read_slot(&short, 0), Err(Refusal::WrongSize));
    Ok(())
}

#[test]
fn one_bit_flipped(rt: HostRuntime) -> Result<(), Fail> {
    let mut whole = [0u8; 48];
    let frame = Frame::new(4, (9, 4, 12), (0, 0, 0, 0))?;
    write_slot(&mut whole, 0, frame)?;
    // A flipped bit is another frame's slot or no slot, and never this frame's.
    for i in 0..48usize {
        for mask in [1u8, 2, 4, 8, 16, 32, 64, 128] {
            let mut bytes = whole;
            bytes[i] ^= mask;
            let read = read_slot(&bytes, 0);
            assert_ne!(rt; read, Ok(frame), "a flipped bit");
            if i >= 12 {
                assert_eq!(rt; read, Err(Refusal::Malformed), "the tail");
            }
        }
    }
    Ok(())
}

#[test]
fn entries(rt: HostRuntime) {
    assert!(rt; Entry::new((0, 1, 1), 15, (1, 2, 3)).is_ok());
    assert!(rt; Entry::new((0, 7, 4294967294), 0, (0, 0, 0)).is_ok());
    assert_eq!(rt;
        Entry::new((0, 1, 1), 16, (0, 0, 0)),
        Err(Refusal::OutOfRange)
    );
    assert_eq!(rt;
        Entry::new((0, 0, 0), 16, (0, 0, 0)),
        Err(Refusal::OutOfRange)
    );
    for header in [(0, 1, 0), (0, 0, 1), (0, 8, 1), (1, 1, 4294967295)] {
        assert_eq!(rt; Entry::new(header, 3, (0, 0, 0)), Err(Refusal::Malformed));
    }
}
