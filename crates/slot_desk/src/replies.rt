// What the desk answers to a line.
use crate::hex::digit_text;
use crate::requests::{Request, read};
use frames::Frame;
use frames::slot::{SLOT, read_slot, write_slot};
use refusals::Refusal;
use std::alloc::{AllocError, Global};
use std::fmt;

#[derive(Clone, Copy)]
pub enum Answer {
    Slot([u8; SLOT]),
    Frame(Frame),
    NotUnderstood,
}

pub type Reply = Result<Answer, Refusal>;

pub(crate) fn serve(heap: Global, line: &str) -> Result<Reply, AllocError> {
    Ok(match read(heap, line)? {
        Some(Request::Write(numbers)) => written(numbers),
        Some(Request::Read(bytes, start)) => told(bytes.as_slice(), start),
        None => Ok(Answer::NotUnderstood),
    })
}

fn written(numbers: [i128; 8]) -> Reply {
    let mut slot = [0; SLOT];
    write_slot(&mut slot, 0, Frame::from_numbers(numbers)?)?;
    Ok(Answer::Slot(slot))
}

fn told(bytes: &[u8], start: i128) -> Reply {
    let start = usize::try_from(start).or(Err(Refusal::WrongSize))?;
    Ok(Answer::Frame(read_slot(bytes, start)?))
}

impl fmt::Display for Answer {
    fn fmt<W: fmt::Write>(&self, f: &mut fmt::Formatter<W>) -> fmt::Result {
        match self {
            Answer::Slot(slot) => {
                write!(f, "ok ")?;
                for byte in slot {
                    let (high, low) = (digit_text(*byte / 16), digit_text(*byte));
                    write!(f, "{high}{low}")?;
                }
                Ok(())
            }
            Answer::Frame(frame) => write!(f, "ok {frame}"),
            Answer::NotUnderstood => {
                write!(
                    f,
                    "not understood: a line is write KIND ROUND LEADER COUNT W1 W2 W3 W4, or read HEX [START]"
                )
            }
        }
    }
}
