// What the desk answers to a line.
use board::{BoardPayload, Shown};
use ledger::Posting;
use refusals::Refusal;
use std::fmt;

#[derive(Clone, Copy)]
pub enum Answer {
    // The payload, and who then holds its load.
    Board(BoardPayload, Option<u16>),
    // The posting, and its carrier's balance in cents after it.
    Ledger(Posting, i64),
    Unreadable,
}

pub type Reply = Result<Answer, Refusal>;

impl fmt::Display for Answer {
    fn fmt<W: fmt::Write>(&self, f: &mut fmt::Formatter<W>) -> fmt::Result {
        match *self {
            Answer::Board(None, _) => write!(f, "{}; the board is as it was", Shown(None)),
            Answer::Board(Some(booking), Some(carrier)) => {
                write!(
                    f,
                    "{booking}; load {} is held by carrier {carrier}",
                    booking.load
                )
            }
            Answer::Board(Some(booking), None) => write!(
                f,
                "{booking}; load {} is open",
                booking.load
            ),
            Answer::Ledger(posting, cents) => {
                write!(
                    f,
                    "{posting}; carrier {} stands at {cents} cents",
                    posting.carrier
                )
            }
            Answer::Unreadable => {
                write!(
                    f,
                    "unreadable: a line is board book|release LOAD CARRIER, ledger post CARRIER CENTS [TIMES], or board|ledger words W W W"
                )
            }
        }
    }
}
