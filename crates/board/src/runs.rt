// The board that stands alone.
ghost use Rattle.std.specs.Prelude.{◌≡◌};
ghost use Rattle.machines.specs.Lone.{alone};
ghost use Rattle.board.specs.Bookings.{unpacked};
ghost use Rattle.board.specs.Loads.{all_open, acted};
ghost use Rattle.board.specs.Laws.{HeldThroughRuns};

use crate::loads::Board;
use machines::{Item, lone};

pub fn lone_board(items: &[Item]) -> Board
    ensures value { result.holders ≡ alone all_open acted unpacked items.now }
    ensures law { HeldThroughRuns }
{
    lone::<Board>(items)
}
