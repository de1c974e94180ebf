// The rack on the table, with the memory that is lent to it.
use crate::calls::{Said, calls};
use crate::outcomes::{Outcome, joined};
use crate::steps::{Deed, Step};
use backplane::Backplane;
use board::Board;
use frames::Entry;
use play::{Reply, play};
use protocol::{Answer, Call};
use rack::Rack;
use std::io;

// Calls made, and those answered otherwise than expected.
#[derive(Clone, Copy)]
pub struct Score {
    pub calls: u64,
    pub odd: u64,
}

#[derive(Drop)]
pub struct Table<'a, B: Backplane> {
    pub rt: &'a HostRuntime,
    pub backplane: &'a mut B,
    pub rack: Rack,
    pub entries: Vec<Entry>,
    pub boards: Vec<Board>,
    pub cards: u8,
    pub score: Score,
}

impl<B: Backplane> Table<'_, B> {
    // Each card of the step's span in turn.
    pub(crate) fn perform(&mut self, step: Step) -> io::Result<Outcome> {
        let mut replies = Vec::new(self.rt.alloc());
        // Kept: a loop with a push. A card's calls change the table, which the closure of a `map` would have to borrow.
        for card in step.cards.numbers() {
            replies.push(self.ask(step.deed, card)?)?;
        }
        let outcome = Outcome { step, replies };
        self.score.odd = self.score.odd.saturating_add(outcome.odd() as u64);
        Ok(outcome)
    }

    // Plays a deed's calls, prints each with its reply, and joins the replies to one.
    fn ask(&mut self, deed: Deed, card: u8) -> io::Result<Reply> {
        let rt = self.rt;
        let calls = calls(rt.alloc(), deed, card)?;
        let mut replies = vec![in rt.alloc(); Ok(Answer::Done); calls.len()]?;
        let played = play::<B, Board>(
            &mut self.rack,
            self.entries.as_mut_slice(),
            self.boards.as_mut_slice(),
            &mut *self.backplane,
            calls.as_slice(),
            replies.as_mut_slice(),
        );
        self.score.calls = self.score.calls.saturating_add(calls.len() as u64);
        print_all(rt, calls.as_slice(), replies.as_slice())?;
        match played {
            Ok(()) => Ok(joined(replies.as_slice())),
            Err(fault) => Ok(Err(fault.refusal())),
        }
    }
}

fn print_all(rt: &HostRuntime, calls: &[Call], replies: &[Reply]) -> io::Result<()> {
    print!(rt; "     ")?;
    for (call, reply) in calls.iter().zip(replies.iter()) {
        let said = Said(*call, *reply);
        print!(rt; " [{said}]")?;
    }
    println!(rt; "")
}
