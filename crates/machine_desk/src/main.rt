// A desk over one board and one ledger: each line of input is a payload, each line of output what was applied and what now stands.
#![tactic(auto)]

mod desk;
mod numbers;
mod replies;
mod requests;
mod turns;

use desk::Desk;
use replies::Answer;
use std::io;
use std::io::{BufRead, BufReader};

fn main(rt: HostRuntime) -> io::Result<()> {
    let mut desk = Desk::open();
    // Kept: each program that reads lines has this loop. One function for all would be handed a closure, and a public function
    // that is handed one has a premise, that it can be called; none here has a premise.
    for line in BufReader::new(rt.alloc(), rt.stdin())?.lines(rt.alloc()) {
        let reply = match line {
            Ok(text) => desk.answer(text.as_str()),
            // A line that is no text is answered like any other that cannot be read.
            Err(e) if e.kind() == io::ErrorKind::InvalidData => Ok(Answer::Unreadable),
            Err(e) => return Err(e),
        };
        match reply {
            Ok(answer) => println!(rt; "{answer}")?,
            Err(refusal) => println!(rt; "{refusal}")?,
        }
    }
    Ok(())
}
