// A line of a script as a call, and a section's first line as the backplane that it is for.
use frames::Frame;
use lane_calls::{Call, Lane};
use numerals::number;
use std::str::SplitWhitespace;

#[derive(Clone, Copy)]
pub enum Desk {
    Box,
    Rings(u8, usize),
    Both(usize),
}

// The most numbers that a line has: a send's lane and frame.
const MOST: usize = 11;

// The numbers of a line, put into these places, and how many they are; None if a word is no number, or there are too many.
fn parse_numbers(words: SplitWhitespace<'_>, places: &mut [i128; MOST]) -> Option<usize> {
    let mut count = 0;
    for word in words {
        if count >= MOST {
            return None;
        }
        places[count] = number(word)?;
        count += 1;
    }
    Some(count)
}

// No card has number 0.
fn card(n: i128) -> u8 {
    u8::try_from(n).unwrap_or(0)
}

// No lane has number 255.
fn lane(from: i128, to: i128, number: i128) -> Lane {
    Lane {
        from: card(from),
        to: card(to),
        number: u8::try_from(number).unwrap_or(255),
    }
}

// A place that is out of range is one at which nothing waits.
fn place(n: i128) -> usize {
    usize::try_from(n).unwrap_or(usize::MAX)
}

pub(crate) fn parse_call(line: &str) -> Option<Call> {
    let mut words = line.split_whitespace();
    let name = words.next()?;
    let mut places = [0; MOST];
    let count = parse_numbers(words, &mut places)?;
    match (name, places.get(..count)?) {
        ("send", &[from, to, number, kind, round, leader, count, w1, w2, w3, w4]) => {
            let frame = Frame::from_numbers([kind, round, leader, count, w1, w2, w3, w4]);
            Some(Call::Send(lane(from, to, number), frame))
        }
        ("drop", &[from, to, number, k]) => Some(Call::Drop(lane(from, to, number), place(k))),
        ("waiting", &[from, to, number]) => Some(Call::Waiting(lane(from, to, number))),
        ("at", &[from, to, number, position]) => {
            Some(Call::At(lane(from, to, number), place(position)))
        }
        _ => None,
    }
}

pub(crate) fn parse_desk(line: &str) -> Option<Desk> {
    let mut words = line.split_whitespace();
    let name = words.next()?;
    let mut places = [0; MOST];
    let count = parse_numbers(words, &mut places)?;
    match (name, places.get(..count)?) {
        ("box", []) => Some(Desk::Box),
        ("rings", &[cards, room]) => Some(Desk::Rings(card(cards), place(room))),
        ("both", &[room]) => Some(Desk::Both(place(room))),
        _ => None,
    }
}
