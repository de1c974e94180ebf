// The script that stands on standard input.
use crate::opened::Work;
use crate::payloads::Printed;
use crate::table::Table;
use backplane::Backplane;
use std::io;
use std::io::{BufRead, BufReader};

#[derive(Drop)]
pub(crate) struct Script<'a> {
    pub(crate) rt: &'a HostRuntime,
}

impl Work for Script<'_> {
    // Each line of the input in turn.
    fn work<B: Backplane, M: Printed>(self, table: &mut Table<'_, B, M>) -> io::Result<()> {
        let rt = self.rt;
        // Kept: each program that reads lines has this loop. One function for all would be handed a closure, and a public
        // function that is handed one has a premise, that it can be called; none here has a premise.
        for line in BufReader::new(rt.alloc(), rt.stdin())?.lines(rt.alloc()) {
            match line {
                Ok(text) => {
                    let said = table.answer(rt.alloc(), text.as_str())?;
                    println!(rt; "{said}")?;
                }
                // A line that is no text is answered like any other that is no call.
                Err(e) if e.kind() == io::ErrorKind::InvalidData => {
                    let said = table.answer(rt.alloc(), "(no text)")?;
                    println!(rt; "{said}")?;
                }
                Err(e) => return Err(e),
            }
        }
        for card in 1..=table.cards() {
            let delivered = table.delivered(rt.alloc(), card)?;
            println!(rt; "{delivered}")?;
        }
        Ok(())
    }
}
