// Rounds, counts and the tally at their ends.
use crate::bench::{lane, opened, why};
use backplane::Backplane;
use cards::CardFault;
use cards::booking::accept_next;
use frames::Frame;
use marks::{LAST_COUNT, LAST_ROUND};
use protocol::{Card, Choice, Role};
use refusals::Refusal;
use std::test::Fail;

// A card that has heard of a vote for the last round.
#[test]
fn rounds(rt: HostRuntime) -> Result<(), Fail> {
    let mut bench = opened()?;
    let row = Frame::vote_row(((LAST_ROUND, 2), (0, 0, 0)))?;
    for card in [1, 3] {
        bench.frames.send(lane(2, card, 5), row)?;
        bench.rack.look(&mut bench.frames, card, 2, 5)?;
    }
    // card 1 leads nothing above it, card 3 does
    let before = bench.rack.card(1)?;
    assert_eq!(rt; why(bench.rack.timeout(1)), Some(Refusal::UsedUp));
    assert_eq!(rt; bench.rack.card(1)?, before);
    assert_eq!(rt; bench.rack.timeout(3), Ok((LAST_ROUND, 3)));
    // nor can it stand where it would have to, but it can join
    assert_eq!(rt; bench.rack.elect(1), Ok(Choice::Joined));
    Ok(())
}

#[test]
fn standing_with_no_round_left(rt: HostRuntime) -> Result<(), Fail> {
    let mut card = Card::opened();
    card.accepted = (0, 1, 1);
    card.newest = (LAST_ROUND, 7);
    let before = card;
    let size = cards::RackSize::try_from(3)?;
    let member = cards::Member { size, number: 1 };
    assert_eq!(rt; member.elect(&mut card), Err(CardFault::UsedUp));
    assert_eq!(rt; card, before);
    Ok(())
}

#[test]
fn counts_and_tally(rt: HostRuntime) -> Result<(), Fail> {
    // accepted count, tally, and whether one more entry has a header
    let table = [
        (0, 0, true),
        (LAST_COUNT - 1, 0, true),
        (LAST_COUNT, 0, false),
        (0, u64::MAX - 1, true),
        (0, u64::MAX, false),
    ];
    for (count, tally, left) in table {
        let mut card = Card::opened();
        card.role = Role::Leader;
        card.accepted = (0, 1, count);
        let before = card;
        let answer = accept_next(&mut card, false, tally);
        if left {
            assert_eq!(rt; answer, Ok((0, 1, count.saturating_add(1))));
        } else {
            assert_eq!(rt; answer, Err(CardFault::UsedUp));
            assert_eq!(rt; card, before);
        }
        // 10 comes before 12
        assert_eq!(rt;
            accept_next(&mut card, true, tally),
            Err(CardFault::LogFull)
        );
    }
    Ok(())
}
