// Runs a rack by a script, a line a call, and prints each answer; at the end, what each card has delivered.
#![tactic(auto)]

mod interactive;
mod line;
mod opened;
mod payloads;
mod said;
#[cfg(test)]
mod scripts;
mod setup;
mod table;
#[cfg(test)]
mod tests;
mod view;

use interactive::Script;
use opened::on_rack;
use setup::Setup;
use std::process::ExitCode;
use std::{env, io};

// The rack that the arguments name; none, and a message, where one of them names nothing.
fn chosen(rt: &HostRuntime) -> io::Result<Option<Setup>> {
    let mut setup = Setup::usual();
    for argument in env::args(rt)?.skip(1) {
        let text = argument.as_str();
        match setup.with(text) {
            Some(other) => setup = other,
            None => {
                eprintln!(rt;
                    "run: {text} names nothing (cards=N, places=N, room=N, backplane=rings|box, machine=ledger|board)"
                )?;
                return Ok(None);
            }
        }
    }
    Ok(Some(setup))
}

fn start(rt: &HostRuntime) -> io::Result<ExitCode> {
    let Some(setup) = chosen(rt)? else {
        return Ok(ExitCode::from(2));
    };
    match on_rack(rt.alloc(), setup, Script { rt })? {
        Ok(()) => Ok(ExitCode::SUCCESS),
        Err(refusal) => {
            let number = refusal.number();
            eprintln!(rt; "run: there is no rack of these sizes (refused by {number})")?;
            Ok(ExitCode::from(2))
        }
    }
}

fn main(rt: HostRuntime) -> ExitCode {
    start(&rt).unwrap_or(ExitCode::FAILURE)
}
