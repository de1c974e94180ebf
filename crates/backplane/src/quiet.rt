// Whether a backplane is empty.
ghost use Rattle.std.specs.Prelude.{◌≡◌, MatchBool, ◌≢◌};
ghost use Rattle.backplane.specs.Lanes.{empty_lanes};
ghost use Rattle.backplane.specs.Quiet.{lane_quiet, pair_quiet, card_quiet, all_quiet};

use crate::lane::Lane;
use crate::lanes::Backplane;

// Where there is no lane nothing waits.
fn lane_quiet<B: Backplane>(backplane: &B, lane: Lane) -> bool
    ensures { result ≡ lane_quiet (B.Backplane.lanes backplane.now) lane.from lane.to lane.number }
{
    backplane.waiting(lane).unwrap_or(0) == 0
}

fn pair_quiet<B: Backplane>(backplane: &B, from: u8, to: u8) -> bool
    ensures { result ≡ pair_quiet (B.Backplane.lanes backplane.now) from to }
{
    [0, 4, 5, 6].iter().all(|number| lane_quiet(
        backplane,
        Lane {
            from,
            to,
            number: *number,
        },
    ))
}

fn card_quiet<B: Backplane>(backplane: &B, cards: u8, from: u8) -> bool
    ensures { result ≡ card_quiet (B.Backplane.lanes backplane.now) cards from }
{
    (0..cards).all(|k| pair_quiet(backplane, from, k + 1))
}

fn all_quiet<B: Backplane>(backplane: &B, cards: u8) -> bool
    ensures { result ≡ all_quiet (B.Backplane.lanes backplane.now) cards }
{
    (0..cards).all(|k| card_quiet(backplane, cards, k + 1))
}

pub fn is_quiet<B: Backplane>(backplane: &B) -> bool
    ensures { MatchBool result (B.Backplane.lanes backplane.now ≡ empty_lanes) (B.Backplane.lanes backplane.now ≢ empty_lanes) }
{
    all_quiet(backplane, backplane.cards())
}
