// What is printed of a reply, of a line that asks nothing, and of what a card has delivered.
use crate::payloads::Printed;
use crate::view::At;
use frames::Entry;
use play::Reply;
use std::alloc::{AllocError, Global};
use std::fmt;

pub(crate) fn reply_text(heap: Global, reply: Reply) -> Result<String, AllocError> {
    match reply {
        Ok(answer) => answer.to_string(heap),
        Err(refusal) => refusal.to_string(heap),
    }
}

pub(crate) fn no_call<M: Printed>(heap: Global, line: &str) -> Result<String, AllocError> {
    let payload = M::form();
    format!(in heap;
        "not a call: {line} (a line is timeout, elect, win, commit, stop or show CARD; ship or take CARD PEER; push or look CARD PEER KIND; or submit CARD QUEUE {payload})"
    )
}

#[derive(Clone, Copy, Drop)]
pub(crate) struct Delivered<'a> {
    pub(crate) card: u8,
    pub(crate) entries: &'a [Entry],
}

impl fmt::Display for Delivered<'_> {
    fn fmt<W: fmt::Write>(&self, f: &mut fmt::Formatter<W>) -> fmt::Result {
        let card = self.card;
        write!(f, "card {card}")?;
        for entry in self.entries {
            let header = At(entry.header);
            write!(f, " {header}")?;
        }
        Ok(())
    }
}
