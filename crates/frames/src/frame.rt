// What a lane carries.
ghost use Rattle.std.specs.Prelude.{◌≡◌, true};
ghost use Rattle.frames.specs.Kinds.{kind_number};
ghost use Rattle.frames.specs.Fields.{is_frame};

use crate::kind::Kind;
use std::fmt;

// Kept: eight fields, and no header and words within: they are the fields of a slot in their order, of which the theorems
// on slots speak.
#[derive(Clone, Copy, PartialEq, Eq, Debug)]
pub struct Frame {
    pub kind: Kind,
    pub round: u32,
    pub leader: u8,
    pub count: u32,
    pub w1: u64,
    pub w2: u64,
    pub w3: u64,
    pub w4: u64,
    ghost well: { is_frame (record { kind = kind_number kind; round = round; leader = leader; count = count; w1 = w1; w2 = w2; w3 = w3; w4 = w4 }) ≡ true },
}

// Its fields in their order.
impl fmt::Display for Frame {
    fn fmt<W: fmt::Write>(&self, f: &mut fmt::Formatter<W>) -> fmt::Result {
        let [kind, round, leader, count, w1, w2, w3, w4] = self.fields();
        write!(f, "{kind} {round} {leader} {count} {w1} {w2} {w3} {w4}")
    }
}
