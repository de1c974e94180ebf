// Plays a scene and tells it.
use crate::boards::Holding;
use crate::rules::Moral;
use crate::scenes::{Scene, Telling};
use crate::steps::Step;
use crate::table::{Score, Table};
use backplane::Backplane;
use board::Board;
use frames::Entry;
use machines::Machine;
use rack::Rack;
use refusals::Refusal;
use ring_table::Shape;
use rings::{Rings, bytes_for};
use std::io;

// Places of a log, and frames that a lane holds.
const PLACES: usize = 4;

const ROOM: usize = 2;

// Plays a scene on a rack of its own, over rings in bytes of its own.
// Kept: `lane_desk` lends bytes in the same way; it says why.
pub(crate) fn run(rt: &HostRuntime, scene: Scene) -> io::Result<Score> {
    match Shape::of(scene.cards, ROOM) {
        Ok(shape) => {
            let mut bytes = vec![in rt.alloc(); 0u8; bytes_for(shape)]?;
            run_on(rt, scene, &mut Rings::over(bytes.as_mut_slice(), shape))
        }
        Err(refusal) => not_opened(rt, refusal),
    }
}

fn not_opened(rt: &HostRuntime, refusal: Refusal) -> io::Result<Score> {
    let number = refusal.number();
    println!(rt; "  The rack was not opened, refused by {number}.")?;
    Ok(Score { calls: 0, odd: 1 })
}

fn run_on<B: Backplane>(rt: &HostRuntime, scene: Scene, backplane: &mut B) -> io::Result<Score> {
    let mut boards: Vec<Board> = (0..scene.cards)
        .map(|_| <Board as Machine>::start())
        .collect(rt.alloc())?;
    let blank = match Entry::new((0, 1, 1), 0, (0, 0, 0)) {
        Ok(entry) => entry,
        Err(refusal) => return not_opened(rt, refusal),
    };
    let entries = vec![in rt.alloc(); blank; scene.cards as usize * PLACES]?;
    let opened = Rack::open::<B, Board>(
        scene.cards,
        PLACES,
        entries.as_slice(),
        boards.as_mut_slice(),
        backplane,
    );
    match opened {
        Ok(rack) => {
            let mut table = Table {
                rt,
                backplane,
                rack,
                entries,
                boards,
                cards: scene.cards,
                score: Score { calls: 0, odd: 0 },
            };
            table.tell_scene(scene)?;
            Ok(table.score)
        }
        Err(fault) => not_opened(rt, fault.refusal()),
    }
}

impl<B: Backplane> Table<'_, B> {
    fn tell_scene(&mut self, scene: Scene) -> io::Result<()> {
        let rt = self.rt;
        println!(rt; "{scene}")?;
        let begun = self.tell_failure(scene)?;
        self.tell_rest(scene)?;
        if !self.tell_agreement(scene)? {
            self.score.odd = self.score.odd.saturating_add(1);
        }
        self.tell_rule(Moral {
            scene,
            begun,
            promised: self.holder(1),
            held: self.holder(scene.leader()),
        })
    }

    // Until the old leader is gone and the votes are counted; with how many entries the last card stood.
    fn tell_failure(&mut self, scene: Scene) -> io::Result<usize> {
        self.tell_title(scene, "Card 1 is to lead.")?;
        let opening = scene.opening();
        match scene.telling {
            Telling::Full => self.tell(&opening)?,
            Telling::Known | Telling::Brief => {
                self.sum_up("Card 1 is to lead, as in part 1", &opening)?
            }
        }
        self.tell_title(scene, "A carrier books.")?;
        self.tell_some(&scene.first_booking())?;
        self.show_boards()?;
        let begun = self.logged(scene.cards);
        self.tell_title(scene, "The others are to elect a leader.")?;
        self.tell_some(&scene.choosing())?;
        self.tell_some(&scene.counting())?;
        Ok(begun)
    }

    // From the new leader's first act to the end.
    fn tell_rest(&mut self, scene: Scene) -> io::Result<()> {
        let takeover = scene.takeover();
        let spreading = scene.spreading();
        self.tell_title(scene, "The new leader is to take over.")?;
        match scene.telling {
            Telling::Full | Telling::Known => {
                self.tell(&takeover)?;
                self.show_boards()?;
            }
            Telling::Brief => self.sum_up("The new leader is to take over", &takeover)?,
        }
        self.tell_title(scene, "Another carrier asks for the same load.")?;
        self.tell(&[scene.second_booking()])?;
        match scene.telling {
            Telling::Full | Telling::Known => self.tell(&spreading)?,
            Telling::Brief => self.sum_up("All running cards are to confirm", &spreading)?,
        }
        self.show_boards()
    }

    // Where all is told.
    fn tell_title(&self, scene: Scene, title: &str) -> io::Result<()> {
        let rt = self.rt;
        match scene.telling {
            Telling::Full => println!(rt; " {title}"),
            Telling::Known | Telling::Brief => Ok(()),
        }
    }

    // A line for each step.
    fn tell(&mut self, steps: &[Step]) -> io::Result<()> {
        let rt = self.rt;
        for step in steps {
            let outcome = self.perform(*step)?;
            println!(rt; "  {outcome}")?;
        }
        Ok(())
    }

    // The same, of the steps that the scene has.
    fn tell_some(&mut self, steps: &[Option<Step>]) -> io::Result<()> {
        for step in steps.iter().flatten() {
            self.tell(&[*step])?;
        }
        Ok(())
    }

    // Only what was not expected, and how many calls it took.
    fn sum_up(&mut self, title: &str, steps: &[Step]) -> io::Result<()> {
        let rt = self.rt;
        let before = self.score;
        for step in steps {
            let outcome = self.perform(*step)?;
            if outcome.odd() > 0 {
                println!(rt; "  {outcome}")?;
            }
        }
        let calls = self.score.calls.saturating_sub(before.calls);
        let odd = self.score.odd.saturating_sub(before.odd);
        if odd == 0 {
            println!(rt; "  {title}: {calls} calls, all answered as expected.")
        } else {
            println!(rt; "  {title}: {calls} calls, {odd} ANSWERS NOT EXPECTED.")
        }
    }

    // Whether the running cards agree on the holder that the story expects.
    fn tell_agreement(&self, scene: Scene) -> io::Result<bool> {
        let rt = self.rt;
        let Some(held) = self.agreed() else {
            println!(rt; " THE RUNNING CARDS DO NOT AGREE. THE STORY DOES NOT EXPECT THAT.")?;
            return Ok(false);
        };
        let holding = Holding(held);
        println!(rt; " All running cards agree: {holding}.")?;
        if held != Some(scene.winner()) {
            println!(rt; " THE STORY EXPECTS ANOTHER HOLDER.")?;
            return Ok(false);
        }
        Ok(true)
    }

    // The rule to which the scene owes its end, unless it went otherwise than expected.
    fn tell_rule(&self, moral: Moral) -> io::Result<()> {
        let rt = self.rt;
        if self.score.odd > 0 {
            return println!(rt; " THIS PART DID NOT GO AS THE STORY EXPECTS, AND SHOWS NO RULE.");
        }
        let rule = moral.rule();
        println!(rt; " The rule that mattered: {rule}.")?;
        println!(rt; " Without it, {moral}.")
    }
}
