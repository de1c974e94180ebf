// A line as what it asks of a rack.
use crate::payloads::Printed;
use numerals::number;
use protocol::Call;
use refusals::Refusal;
use std::alloc::{AllocError, Global};

#[derive(Clone, Copy, PartialEq, Eq, Debug)]
pub(crate) enum Line {
    Call(Call),
    // A submit to this card, of a payload that cannot be made.
    Unmade(u8, Refusal),
    // All that this card holds.
    Show(u8),
}

// No card has number 0.
fn card(number: i128) -> u8 {
    u8::try_from(number).unwrap_or(0)
}

// No row is of kind 255, and there is no queue 255.
fn small(number: i128) -> u8 {
    u8::try_from(number).unwrap_or(255)
}

// A submit's payload is made before the rack is asked.
fn submit<M: Printed>(to: i128, queue: i128, payload: &[i128]) -> Option<Line> {
    let made = M::draft(payload)?.and_then(|draft| M::make(draft));
    Some(match made {
        Ok(payload) => Line::Call(Call::Submit(card(to), small(queue), M::pack(payload))),
        Err(refusal) => Line::Unmade(card(to), refusal),
    })
}

fn call(name: &str, numbers: &[i128]) -> Option<Call> {
    match (name, numbers) {
        ("timeout", &[i]) => Some(Call::Timeout(card(i))),
        ("elect", &[i]) => Some(Call::Elect(card(i))),
        ("win", &[i]) => Some(Call::Win(card(i))),
        ("ship", &[i, j]) => Some(Call::Ship(card(i), card(j))),
        ("take", &[i, j]) => Some(Call::Take(card(i), card(j))),
        ("push", &[i, j, kind]) => Some(Call::Push(card(i), card(j), small(kind))),
        ("look", &[i, j, kind]) => Some(Call::Look(card(i), card(j), small(kind))),
        ("commit", &[i]) => Some(Call::Commit(card(i))),
        ("stop", &[i]) => Some(Call::Stop(card(i))),
        _ => None,
    }
}

// None where the line asks nothing.
pub(crate) fn read<M: Printed>(heap: Global, line: &str) -> Result<Option<Line>, AllocError> {
    let mut words = line.split_whitespace();
    let Some(name) = words.next() else {
        return Ok(None);
    };
    let numbers: Option<Vec<i128>> = words.map(number).collect(heap)?;
    let Some(numbers) = numbers else {
        return Ok(None);
    };
    Ok(match (name, numbers.as_slice()) {
        ("submit", [to, queue, payload @ ..]) => submit::<M>(*to, *queue, payload),
        ("show", &[i]) => Some(Line::Show(card(i))),
        (name, numbers) => call(name, numbers).map(Line::Call),
    })
}
