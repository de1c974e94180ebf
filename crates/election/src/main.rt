// An election worked out step by step: one card's view of all vote rows, a line each.
#![tactic(auto)]

mod cases;
mod steps;

use cases::read;
use std::io;
use std::io::{BufRead, BufReader};

fn main(rt: HostRuntime) -> io::Result<()> {
    let heap = rt.alloc();
    // Kept: each program that reads lines has this loop. One function for all would be handed a closure, and a public function
    // that is handed one has a premise, that it can be called; none here has a premise.
    for line in BufReader::new(heap, rt.stdin())?.lines(heap) {
        let case = match line {
            Ok(text) => read(heap, text.as_str())?,
            // A line that is no text is answered like any other that cannot be read.
            Err(e) if e.kind() == io::ErrorKind::InvalidData => None,
            Err(e) => return Err(e),
        };
        match case {
            Some(case) => println!(rt; "{case}")?,
            None => println!(rt;
                "not understood: a line is CARDS CARD, the new epoch, the accepted header, then each card's vote"
            )?,
        }
    }
    Ok(())
}
