// The lone machine: begins at its start and applies each item in turn.
ghost use Rattle.std.specs.Prelude.{◌≡◌};
ghost use Rattle.machines.specs.Lone.{alone};

use crate::meaning::Machine;
use crate::turns::apply_words;
use frames::Words;

#[derive(Clone, Copy, PartialEq, Eq, Debug)]
pub struct Item {
    pub queue: u8,
    pub words: Words,
}

pub fn lone<M: Machine>(items: &[Item]) -> M
    ensures { M.Machine.state result ≡ alone M.Machine.initial M.Machine.applied M.Machine.unpacked items.now }
{
    let mut machine = M::start();
    for item in items {
        apply_words(&mut machine, item.queue, item.words);
    }
    machine
}
