// Drives a backplane by a script, a line a call, and prints each answer.
#![tactic(auto)]

mod parse;

use frame_box::FrameBox;
use lane_calls::{Call, Reply, apply};
use parse::{Desk, parse_call, parse_desk};
use ring_table::Shape;
use rings::{Rings, bytes_for};
use std::io;
use std::io::{BufRead, BufReader};
use std::str::Lines;

// Each line's call, carried out and answered.
fn run<F: FnMut(Call) -> io::Result<()>>(
    rt: &HostRuntime,
    lines: Lines<'_>,
    mut carry_out: F,
) -> io::Result<()>
    requires { F.IsAlwaysCallable carry_out }
{
    for line in lines {
        let Some(call) = parse_call(line) else {
            println!(rt; "not a call: {line}")?;
            continue;
        };
        carry_out(call)?;
    }
    Ok(())
}

// What is printed of a reply.
fn text(rt: &HostRuntime, reply: Reply) -> io::Result<String> {
    match reply {
        Ok(answer) => Ok(answer.to_string(rt.alloc())?),
        Err(refusal) => Ok(refusal.to_string(rt.alloc())?),
    }
}

// One answer where both are the same.
fn print_both(rt: &HostRuntime, left: Reply, right: Reply) -> io::Result<()> {
    if left == right {
        return print(rt, left);
    }
    let one = text(rt, left)?;
    let other = text(rt, right)?;
    println!(rt; "box {one}, rings {other}")
}

fn print(rt: &HostRuntime, reply: Reply) -> io::Result<()> {
    match reply {
        Ok(answer) => println!(rt; "{answer}"),
        Err(refusal) => println!(rt; "{refusal}"),
    }
}

// Lends bytes of this shape to what is to be done over rings.
// Kept: `booking` lends bytes in the same way. One function for both would have the premise that its closure can be called.
fn over_rings<F: FnOnce(&mut Rings<'_>) -> io::Result<()>>(
    rt: &HostRuntime,
    cards: u8,
    room: usize,
    work: F,
) -> io::Result<()>
    requires { F.IsAlwaysCallable work }
{
    match Shape::of(cards, room) {
        Ok(shape) => {
            let mut bytes = vec![in rt.alloc(); 0u8; bytes_for(shape)]?;
            work(&mut Rings::over(bytes.as_mut_slice(), shape))
        }
        Err(refusal) => println!(rt; "{refusal}"),
    }
}

fn run_section(rt: &HostRuntime, section: &str) -> io::Result<()> {
    let mut lines = section.trim().lines();
    let Some(first) = lines.next() else {
        return Ok(());
    };
    println!(rt; "{first}")?;
    match parse_desk(first) {
        Some(Desk::Box) => {
            let mut frames = FrameBox::new();
            run(rt, lines, |call| print(rt, apply(&mut frames, call)))
        }
        Some(Desk::Rings(cards, room)) => over_rings(rt, cards, room, |rings| {
            run(rt, lines, |call| print(rt, apply(rings, call)))
        }),
        // The same calls on two backplanes.
        Some(Desk::Both(room)) => over_rings(rt, 3, room, |rings| {
            let mut frames = FrameBox::new();
            run(rt, lines, |call| {
                print_both(rt, apply(&mut frames, call), apply(rings, call))
            })
        }),
        None => println!(rt; "not a backplane: box, rings CARDS ROOM or both ROOM"),
    }
}

// The whole input; a line that is no text stands in it as one that is no call.
fn read_script(rt: &HostRuntime) -> io::Result<String> {
    let mut script = String::new(rt.alloc());
    // Kept: each program that reads lines has this loop. One function for all would be handed a closure, and a public function
    // that is handed one has a premise, that it can be called; none here has a premise.
    for line in BufReader::new(rt.alloc(), rt.stdin())?.lines(rt.alloc()) {
        match line {
            Ok(text) => script.push_str(text.as_str())?,
            Err(e) if e.kind() == io::ErrorKind::InvalidData => script.push_str("(no text)")?,
            Err(e) => return Err(e),
        }
        script.push_str("\n")?;
    }
    Ok(script)
}

fn main(rt: HostRuntime) -> io::Result<()> {
    let script = read_script(&rt)?;
    for section in script.as_str().split("\n\n") {
        run_section(&rt, section)?;
    }
    Ok(())
}
