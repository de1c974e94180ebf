// Numbers on a line of text. Any size is a number; those past 64 bits become the nearest number past them, which no type
// of the rack holds, so that a range is refused as a range and never as a line that cannot be read.
#![tactic(auto)]

ghost use Rattle.std.specs.Prelude.{◌≡◌, ◌≤◌, IfSome};
ghost use Rattle.numerals.specs.Decimal.{magnitude_in, number_in};

const PAST_64_BITS: u128 = 18446744073709551616;

// A row of decimal digits; None for anything else.
fn magnitude(digits: &[u8]) -> Option<u128>
    ensures value { result ≡ magnitude_in digits.now }
    ensures bound { IfSome result (λ n. n ≤ 18446744073709551616) }
{
    if digits.is_empty() {
        return None;
    }
    let mut value = 0u128;
    for digit in digits {
        if !digit.is_ascii_digit() {
            return None;
        }
        value = (value * 10 + (*digit - b'0') as u128).min(PAST_64_BITS);
    }
    Some(value)
}

// A decimal number with or without a minus sign; None for a word that is none.
pub fn number(word: &str) -> Option<i128>
    ensures { result ≡ number_in word.now }
{
    match word.as_bytes().strip_prefix(b"-") {
        Some(digits) => Some(-(magnitude(digits)? as i128)),
        None => Some(magnitude(word.as_bytes())? as i128),
    }
}
