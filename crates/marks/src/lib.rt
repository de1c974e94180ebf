// Epochs, headers and votes: tuples of numbers, compared left to right.
#![tactic(auto)]

ghost use Rattle.std.specs.Prelude.{◌≡◌};
ghost use Rattle.marks.specs.Kinds.{epoch_of, header_in, is_card, is_epoch, is_header, is_vote};
ghost use Rattle.marks.specs.Least.{least_epoch, LeastLedAbove};
ghost use Rattle.marks.specs.Samples.{LeastEpochSamples};

use refusals::Refusal;

pub mod rows;
mod span;

pub use span::Span;

pub type Epoch = (u32, u8);

pub type Header = (u32, u8, u32);

pub type Vote = (Epoch, Header);

pub const LAST_ROUND: u32 = u32::MAX;

pub const LAST_COUNT: u32 = u32::MAX - 1;

pub fn header_in(epoch: Epoch, count: u32) -> Header
    ensures { result ≡ header_in epoch count }
{
    (epoch.0, epoch.1, count)
}

pub fn epoch_of(header: Header) -> Epoch
    ensures { result ≡ epoch_of header }
{
    (header.0, header.1)
}

// The cards of the largest rack.
pub fn is_card(n: u8) -> bool
    ensures { result ≡ is_card n }
{
    (1..=7).contains(&n)
}

// Only the null epoch is led by no card.
pub fn is_epoch(e: Epoch) -> bool
    ensures { result ≡ is_epoch e }
{
    e == (0, 0) || is_card(e.1)
}

pub fn is_header(h: Header) -> bool
    ensures { result ≡ is_header h }
{
    h == (0, 0, 0) || (is_card(h.1) && h.2 <= LAST_COUNT)
}

pub fn is_vote(v: Vote) -> bool
    ensures { result ≡ is_vote v }
{
    is_epoch(v.0) && is_header(v.1)
}

pub fn least_epoch(card: u8, above: Epoch) -> Result<Epoch, Refusal>
    ensures value { result ≡ least_epoch card above }
    ensures least { LeastLedAbove card above result }
{
    let (round, leader) = above;
    if !is_card(card) {
        return Err(Refusal::NoSuchCard);
    }
    if leader < card {
        return Ok((round, card));
    }
    let next = round.checked_add(1).ok_or(Refusal::UsedUp)?;
    Ok((next, card))
}

// The definitions at small values.
pub fn samples()
    ensures { LeastEpochSamples }
{}
