// A booking on the load board, and what becomes of it when the leading card fails.
#![tactic(auto)]

mod boards;
mod calls;
mod outcomes;
mod rules;
mod scenes;
mod steps;
mod table;
mod telling;
mod words;

use scenes::{Reach, Scene, Telling};
use std::io;
use table::Score;
use telling::run;

const PARTS: [Scene; 5] = [
    Scene {
        cards: 3,
        reach: Reach::OneCard,
        telling: Telling::Full,
    },
    Scene {
        cards: 3,
        reach: Reach::Nobody,
        telling: Telling::Known,
    },
    Scene {
        cards: 3,
        reach: Reach::TooLate,
        telling: Telling::Brief,
    },
    Scene {
        cards: 5,
        reach: Reach::OneCard,
        telling: Telling::Brief,
    },
    Scene {
        cards: 5,
        reach: Reach::Nobody,
        telling: Telling::Brief,
    },
];

fn main(rt: HostRuntime) -> io::Result<()> {
    println!(rt; "WHO HAS THE LOAD WHEN THE LEADING CARD FAILS?")?;
    println!(rt;
        "Every card of a rack keeps a log of what carriers ask, and a board that says who holds which load."
    )?;
    println!(rt;
        "One card leads and writes the log. A card that confirms an entry carries it out on its board:"
    )?;
    println!(rt;
        "an open load goes to the carrier that books it, and a load that is held stays where it is."
    )?;
    println!(rt; "Term 1.2 is round 1 under card 2, and entry 1.2.1 is the first of that term.")?;
    println!(rt;
        "In brackets stand the calls that the cards were given, with the answers, as the run program reads and prints them;"
    )?;
    println!(rt; "the line below them says in plain words what they came to.")?;
    let mut score = Score { calls: 0, odd: 0 };
    for (index, scene) in PARTS.iter().enumerate() {
        let part = index + 1;
        print!(rt; "\nPART {part}. ")?;
        let Score { calls, odd } = run(&rt, *scene)?;
        score.calls = score.calls.saturating_add(calls);
        score.odd = score.odd.saturating_add(odd);
    }
    let Score { calls, odd } = score;
    if odd == 0 {
        println!(rt; "\n{calls} calls in all, every one answered as the story expects.")
    } else {
        println!(rt; "\n{calls} calls in all. THE STORY WAS CONTRADICTED {odd} TIMES.")
    }
}
