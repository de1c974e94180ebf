// A desk for support staff: frames in numbers become slots in hexadecimal, and slots become frames.
#![tactic(auto)]

mod hex;
mod replies;
mod requests;

use replies::{Answer, serve};
use std::io;
use std::io::{BufRead, BufReader};

fn main(rt: HostRuntime) -> io::Result<()> {
    let heap = rt.alloc();
    // Kept: each program that reads lines has this loop. One function for all would be handed a closure, and a public function
    // that is handed one has a premise, that it can be called; none here has a premise.
    for line in BufReader::new(heap, rt.stdin())?.lines(heap) {
        let reply = match line {
            Ok(text) => serve(heap, text.as_str())?,
            // A line that is no text is answered like any other that cannot be read.
            Err(e) if e.kind() == io::ErrorKind::InvalidData => Ok(Answer::NotUnderstood),
            Err(e) => return Err(e),
        };
        match reply {
            Ok(answer) => println!(rt; "{answer}")?,
            Err(refusal) => println!(rt; "{refusal}")?,
        }
    }
    Ok(())
}
