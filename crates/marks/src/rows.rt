// One text for every kind of mark with a total order: the largest row, and the rows between two marks.
ghost use Rattle.std.specs.Prelude.{◌≡◌, Bool, ◌∷◌};
ghost use Rattle.marks.specs.Order.{TotalOrder, header_up_to, vote_up_to};
ghost use Rattle.marks.specs.Rows.{largest_of, Largest, count_between};
ghost use Rattle.marks.specs.Orders.{header_order, vote_order};

use crate::{Header, Vote};

pub trait Mark: Copy {
    // whether a mark is at most another
    ghost up_to: { Self → Self → Bool };

    fn up_to(self, other: Self) -> bool
        ensures { result ≡ up_to self other };

    ghost order: { TotalOrder up_to };
}

impl Mark for Header {
    ghost up_to = { header_up_to };

    ghost order = { header_order };

    fn up_to(self, other: Header) -> bool {
        self <= other
    }
}

impl Mark for Vote {
    ghost up_to = { vote_up_to };

    ghost order = { vote_order };

    fn up_to(self, other: Vote) -> bool {
        other >= self
    }
}

pub fn largest<T: Mark>(first: T, rows: &[T]) -> T
    ensures value { result ≡ largest_of T.up_to first rows.now }
    ensures largest { Largest T.up_to (first ∷ rows.now) result }
{
    rows.iter().fold(
        first,
        |most, row| if most.up_to(*row) { *row } else { most },
    )
}

pub fn count_between<T: Mark>(low: T, high: T, rows: &[T]) -> usize
    ensures { result ≡ count_between T.up_to low high rows.now }
{
    rows.iter()
        .filter(|row| low.up_to(**row) && row.up_to(high))
        .count()
}
