use crate::steps::{eight_to_a_lane, lane, message, miss_lanes, twice_round, walk};
use backplane::{Backplane, LaneFault, find_room, send_all};
use frame_box::FrameBox;
use frames::slot::SLOT;
use lane_calls::{Answer, Call};
use rings::{Rings, shape_for};
use std::process::Abort;
use std::test::Fail;

// Of three cards, with room for eight frames in a lane; two frames wait at the end from card 3 to card 1 in lane 4.
fn keeps_lanes<B: Backplane>(rt: &impl Abort, backplane: &mut B) -> Result<(), Fail> {
    assert!(rt; backplane.cards() == 3 && backplane.capacity() == 8);
    walk(rt, backplane, &eight_to_a_lane())?;
    walk(rt, backplane, &twice_round())?;
    miss_lanes(rt, backplane)?;
    assert_eq!(rt;
        send_all(backplane, lane(3, 1, 4), &[message(1)?, message(2)?]),
        Ok(())
    );
    assert_eq!(rt;
        send_all(backplane, lane(3, 1, 4), &[message(3)?; 7]),
        Err(LaneFault::Full)
    );
    assert_eq!(rt;
        send_all(backplane, lane(3, 3, 4), &[]),
        Err(LaneFault::NoSuchLane)
    );
    assert_eq!(rt; find_room(backplane, lane(3, 1, 4), 6), Ok(()));
    assert_eq!(rt;
        find_room(backplane, lane(3, 1, 4), 7),
        Err(LaneFault::Full)
    );
    walk(
        rt,
        backplane,
        &[
            (Call::Waiting(lane(3, 1, 4)), Ok(Answer::Count(2))),
            (Call::At(lane(3, 1, 4), 1), message(2).map(Answer::Shown)),
        ],
    )
}

#[test]
fn frame_box_keeps_its_lanes(rt: HostRuntime) -> Result<(), Fail> {
    keeps_lanes(&rt, &mut FrameBox::new())
}

#[test]
fn rings_keep_their_lanes(rt: HostRuntime) -> Result<(), Fail> {
    let mut bytes = [255u8; 13824];
    {
        let mut rings = Rings::over(&mut bytes[..], shape_for(3, 8, 13824)?);
        keeps_lanes(&rt, &mut rings)?;
        assert_eq!(rt;
            rings.slot_start(lane(3, 1, 4), 2),
            Err(LaneFault::NothingThere)
        );
    }
    // lent for another shape, the bytes make a backplane without cards
    let mut rings = Rings::over(&mut bytes[..], shape_for(3, 1, 36 * SLOT)?);
    assert!(rt; rings.cards() == 0);
    miss_lanes(&rt, &mut rings)
}

#[test]
fn sizes_and_numbers(rt: HostRuntime) {
    assert!(rt;
        shape_for(3, 8, 13823).is_err()
            && shape_for(3, 8, 13825).is_err()
            && shape_for(4, 8, 24576).is_err()
    );
    assert!(rt;
        shape_for(3, 0, 0).is_err()
            && shape_for(3, 2049, 3540672).is_err()
            && shape_for(7, 2048, 19267584).is_ok()
    );
    assert!(rt;
        LaneFault::NoSuchLane.number() == 1
            && LaneFault::NothingThere.number() == 6
            && LaneFault::Full.number() == 11
    );
}
