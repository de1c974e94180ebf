// Numbers of a line in the types that hold them: what a type cannot hold lies out of range.
ghost use Rattle.std.specs.Prelude.{◌≡◌, MatchResult, Ok, Err};
ghost use Rattle.std.specs.Option.{ok_or};
ghost use Rattle.refusals.specs.declared.Refusal.TheVariants.{OutOfRange};
ghost use Rattle.std.specs.declared.num.TryFromIntError.{TryFromIntError};
ghost use Rattle.machine_desk.specs.Widths.{repeats_of};

use refusals::Refusal;
use std::num::TryFromIntError;

pub fn held<T: TryFrom<i128, Error = TryFromIntError> + Drop>(n: i128) -> Result<T, Refusal>
    ensures { MatchResult result (λ x. T.TryFrom.try_from_gives n (Ok x)) (λ r. (r ≡ OutOfRange) × ((e : TryFromIntError) × T.TryFrom.try_from_gives n (Err e))) }
{
    T::try_from(n).or(Err(Refusal::OutOfRange))
}

// How often one line posts.
pub fn repeats(n: i128) -> Result<u16, Refusal>
    ensures { result ≡ ok_or (repeats_of n) OutOfRange }
{
    match held::<u16>(n)? {
        0 => Err(Refusal::OutOfRange),
        count => Ok(count),
    }
}
