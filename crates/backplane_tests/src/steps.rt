// A call and the reply that it must get. Frames are messages, told apart by their count.
use backplane::{Backplane, Lane, LaneFault};
use frames::{Frame, Kind};
use lane_calls::{Answer, Call, Reply, apply};
use refusals::Refusal;
use std::process::Abort;
use std::test::Fail;

pub type Step = (Call, Reply);

pub(crate) fn message(count: u32) -> Result<Frame, Refusal> {
    Frame::of(Kind::Message, (0, 1, count), (4, 2, 3, 5))
}

pub(crate) fn lane(from: u8, to: u8, number: u8) -> Lane {
    Lane { from, to, number }
}

pub(crate) fn walk<B: Backplane>(
    rt: &impl Abort,
    backplane: &mut B,
    steps: &[Step],
) -> Result<(), Fail> {
    for (call, reply) in steps {
        assert_eq!(rt; apply(backplane, *call), *reply);
    }
    Ok(())
}

// Fills a lane to eight, and meets every refusal; another lane gets one frame.
pub(crate) fn eight_to_a_lane() -> [Step; 19] {
    let done = Ok(Answer::Done);
    let full = Err(LaneFault::Full.refusal());
    let nothing = Err(LaneFault::NothingThere.refusal());
    let first = lane(1, 2, 0);
    let other = lane(2, 1, 6);
    [
        (Call::Waiting(first), Ok(Answer::Count(0))),
        (Call::At(first, 0), nothing),
        (Call::Drop(first, 0), done),
        (Call::Drop(first, 1), nothing),
        (Call::Send(other, message(77)), done),
        (Call::Send(first, message(1)), done),
        (Call::Send(first, message(2)), done),
        (Call::Send(first, message(3)), done),
        (Call::Send(first, message(4)), done),
        (Call::Send(first, message(5)), done),
        (Call::Send(first, message(6)), done),
        (Call::Send(first, message(7)), done),
        (Call::Send(first, message(8)), done),
        (Call::Send(first, message(9)), full),
        (Call::Waiting(first), Ok(Answer::Count(8))),
        (Call::At(first, 0), message(1).map(Answer::Shown)),
        (Call::At(first, 7), message(8).map(Answer::Shown)),
        (Call::At(first, 8), nothing),
        (Call::Drop(first, 9), nothing),
    ]
}

// Goes on from there, twice round the lane; other lanes stay as they were.
pub(crate) fn twice_round() -> [Step; 21] {
    let done = Ok(Answer::Done);
    let full = Err(LaneFault::Full.refusal());
    let first = lane(1, 2, 0);
    let other = lane(2, 1, 6);
    [
        (Call::Drop(first, 7), done),
        (Call::At(first, 0), message(8).map(Answer::Shown)),
        (Call::Send(first, message(9)), done),
        (Call::Send(first, message(10)), done),
        (Call::At(first, 2), message(10).map(Answer::Shown)),
        (Call::Drop(first, 2), done),
        (Call::Send(first, message(11)), done),
        (Call::Send(first, message(12)), done),
        (Call::Send(first, message(13)), done),
        (Call::Send(first, message(14)), done),
        (Call::Send(first, message(15)), done),
        (Call::Send(first, message(16)), done),
        (Call::Send(first, message(17)), done),
        (Call::Send(first, message(18)), full),
        (Call::At(first, 0), message(10).map(Answer::Shown)),
        (Call::At(first, 7), message(17).map(Answer::Shown)),
        (Call::Waiting(lane(1, 3, 0)), Ok(Answer::Count(0))),
        (Call::Waiting(lane(1, 2, 4)), Ok(Answer::Count(0))),
        (Call::At(other, 0), message(77).map(Answer::Shown)),
        (Call::Drop(first, 8), done),
        (Call::Waiting(first), Ok(Answer::Count(0))),
    ]
}

fn missing_lanes() -> [Step; 8] {
    let missing = Err(LaneFault::NoSuchLane.refusal());
    [
        (Call::Send(lane(0, 1, 0), message(1)), missing),
        (Call::Send(lane(1, 8, 0), message(1)), missing),
        (Call::Send(lane(2, 2, 0), message(1)), missing),
        (Call::Send(lane(1, 2, 1), message(1)), missing),
        (Call::Drop(lane(1, 2, 3), 0), missing),
        (Call::Waiting(lane(1, 2, 7)), missing),
        (Call::At(lane(1, 2, 255), 0), missing),
        (Call::Waiting(lane(255, 1, 0)), missing),
    ]
}

// A call finds a missing lane before it sends; the backplane's own send refuses it too.
pub(crate) fn miss_lanes<B: Backplane>(rt: &impl Abort, backplane: &mut B) -> Result<(), Fail> {
    for nowhere in [lane(0, 1, 0), lane(1, 8, 0), lane(2, 2, 0), lane(1, 2, 1)] {
        assert_eq!(rt;
            backplane.send(nowhere, message(1)?),
            Err(LaneFault::NoSuchLane)
        );
    }
    walk(rt, backplane, &missing_lanes())
}
