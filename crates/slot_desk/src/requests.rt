// What a line asks.
use crate::hex::read_bytes;
use numerals::number;
use std::alloc::{AllocError, Global};
use std::str::SplitWhitespace;

#[derive(Drop)]
pub enum Request {
    // A frame's eight numbers, of any size.
    Write([i128; 8]),
    // Bytes, and where in them a slot begins.
    Read(Vec<u8>, i128),
}

// None where the line asks nothing of the desk.
pub(crate) fn read(heap: Global, line: &str) -> Result<Option<Request>, AllocError> {
    let mut words = line.split_whitespace();
    match words.next() {
        Some("write") => Ok(read_numbers(words).map(|numbers| Request::Write(numbers))),
        Some("read") => read_slot(heap, words),
        _ => Ok(None),
    }
}

fn read_numbers(mut words: SplitWhitespace<'_>) -> Option<[i128; 8]> {
    let mut numbers = [0; 8];
    for field in &mut numbers {
        *field = number(words.next()?)?;
    }
    words.next().is_none().then_some(numbers)
}

// A slot without a start begins at 0.
fn read_slot(heap: Global, mut words: SplitWhitespace<'_>) -> Result<Option<Request>, AllocError> {
    let (Some(text), start, None) = (words.next(), words.next(), words.next()) else {
        return Ok(None);
    };
    let Some(start) = start.map_or(Some(0), |word| number(word)) else {
        return Ok(None);
    };
    Ok(read_bytes(heap, text)?.map(|bytes| Request::Read(bytes, start)))
}
