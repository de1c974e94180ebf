// The rule that mattered in a scene, and what would have come of its absence.
use crate::boards::LOAD;
use crate::scenes::{FIRST, Reach, SECOND, Scene};
use std::fmt;

#[derive(Clone, Copy)]
pub enum Rule {
    FreshLog,
    MajorityConfirms,
    VotedLeaves,
    MajorityElects,
}

// What a scene came to: how many entries the card that stood first had then, who holds the load on the first
// leader's board, and who on the others.
#[derive(Clone, Copy)]
pub struct Moral {
    pub scene: Scene,
    pub begun: usize,
    pub promised: Option<u16>,
    pub held: Option<u16>,
}

impl Moral {
    pub(crate) fn rule(self) -> Rule {
        match self.scene.reach {
            Reach::OneCard => Rule::FreshLog,
            Reach::TooLate => Rule::VotedLeaves,
            Reach::Nobody if self.scene.cards == 3 => Rule::MajorityConfirms,
            Reach::Nobody => Rule::MajorityElects,
        }
    }
}

impl fmt::Display for Rule {
    fn fmt<W: fmt::Write>(&self, f: &mut fmt::Formatter<W>) -> fmt::Result {
        f.write_str(match self {
            Rule::FreshLog =>
                "a card votes only for a card whose log is at least as fresh as its own",
            Rule::MajorityConfirms =>
                "a booking is confirmed only once a majority of the cards hold it",
            Rule::VotedLeaves => "a card that has voted takes nothing more from its old leader",
            Rule::MajorityElects => "a card leads only with the votes of a majority",
        })
    }
}

impl fmt::Display for Moral {
    fn fmt<W: fmt::Write>(&self, f: &mut fmt::Formatter<W>) -> fmt::Result {
        let last = self.scene.cards;
        let elsewhere = Elsewhere(self.held);
        match (self.rule(), self.promised) {
            (Rule::FreshLog, Some(carrier)) => write!(
                f,
                "card {last} would have led with {} entries in its log, and load {LOAD} would have gone to carrier {SECOND}.\n  But card 1's board had given it to carrier {carrier}: two trucks, one load",
                self.begun
            ),
            (Rule::FreshLog, None) => write!(
                f,
                "card {last} would have led with {} entries in its log, and the booking of carrier {FIRST} would be gone.\n  Card 1 had no majority and held it back: the load would be lost to the carrier, not sold twice",
                self.begun
            ),
            (Rule::MajorityConfirms, _) => write!(
                f,
                "card 1 would have given load {LOAD} to carrier {FIRST} on its own board{elsewhere}"
            ),
            (Rule::VotedLeaves, _) => write!(
                f,
                "card 2 would have added the late entry, and card 1 given the load to carrier {FIRST}{elsewhere}"
            ),
            (Rule::MajorityElects, _) => {
                let leaders = last.saturating_sub(1);
                write!(
                    f,
                    "each of cards 2 to {last}, which all stood, could have led on its own vote,\n  and given the load to a truck of its own: {leaders} trucks, one load"
                )
            }
        }
    }
}

// Who has the load on the other cards.
#[derive(Clone, Copy)]
struct Elsewhere(Option<u16>);

impl fmt::Display for Elsewhere {
    fn fmt<W: fmt::Write>(&self, f: &mut fmt::Formatter<W>) -> fmt::Result {
        match self.0 {
            Some(carrier) => write!(
                f,
                ".\n  The other cards gave it to carrier {carrier}: two trucks, one load"
            ),
            None => f.write_str(", and the other cards would not know"),
        }
    }
}
