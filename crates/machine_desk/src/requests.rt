// What a line asks: a payload in numbers of any size, or packed words.
use board::Act;
use numerals::number;

#[derive(Clone, Copy)]
pub enum Request {
    Ask {
        act: Act,
        load: i128,
        carrier: i128,
    },
    Post {
        carrier: i128,
        cents: i128,
        times: i128,
    },
    BoardWords((i128, i128, i128)),
    LedgerWords((i128, i128, i128)),
}

// None where the line asks nothing of the desk.
pub(crate) fn read(line: &str) -> Option<Request> {
    let mut words = line.split_whitespace();
    let machine = words.next()?;
    let verb = words.next()?;
    let first = number(words.next()?)?;
    let second = number(words.next()?)?;
    let third = match words.next() {
        Some(word) => Some(number(word)?),
        None => None,
    };
    if words.next().is_some() {
        return None;
    }
    match (machine, verb, third) {
        ("board", "book", None) => Some(Request::Ask {
            act: Act::Book,
            load: first,
            carrier: second,
        }),
        ("board", "release", None) => Some(Request::Ask {
            act: Act::Release,
            load: first,
            carrier: second,
        }),
        ("ledger", "post", times) => Some(Request::Post {
            carrier: first,
            cents: second,
            times: times.unwrap_or(1),
        }),
        ("board", "words", Some(third)) => Some(Request::BoardWords((first, second, third))),
        ("ledger", "words", Some(third)) => Some(Request::LedgerWords((first, second, third))),
        _ => None,
    }
}
