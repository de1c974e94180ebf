// open: every card electing with all marks null, logs empty, machines at their start.
ghost use Rattle.std.specs.Prelude.{◌≡◌, ◌&&◌, IfOk, nat_le};
ghost use Rattle.std.specs.List.{AllByRecursion};
ghost use Rattle.rack.specs.Opening.{Opening, Promises, StandsAlone};
ghost use Rattle.rack.specs.View.{sizes};

use crate::fault::RackFault;
use crate::seat::Seat;
use crate::state::Rack;
use backplane::{Backplane, is_quiet};
use cards::RackSize;
use frames::Entry;
use machines::Machine;

// The most places that a log may have.
pub const MOST_PLACES: usize = 1024;

fn is_log_size(places: usize) -> bool
    ensures { result ≡ (nat_le 1 places && nat_le places 1024) }
{
    (1..=MOST_PLACES).contains(&places)
}

fn restart<M: Machine + Drop>(machines: &mut [M])
    ensures { AllByRecursion (λ m. M.Machine.state m ≡ M.Machine.initial) machines.new }
{
    for machine in machines.iter_mut() {
        *machine = M::start();
    }
}

impl Rack {
    // Refused by 2 where a size does not fit or frames wait.
    pub fn open<B: Backplane, M: Machine + Drop>(
        cards: u8,
        places: usize,
        entries: &[Entry],
        machines: &mut [M],
        backplane: &B,
    ) -> Result<Rack, RackFault>
        ensures opened { Opening M.Machine.state M.Machine.initial cards places entries.now machines.old machines.new (B.Backplane.count backplane.now) (B.Backplane.room backplane.now) (B.Backplane.lanes backplane.now) result }
        ensures laws { IfOk result (λ rack. Promises M.Machine.initial (λ q w. M.Machine.applied q (M.Machine.unpacked w)) (sizes rack (B.Backplane.room backplane.now))) }
        ensures lone { IfOk result (λ rack. StandsAlone M.Machine.initial M.Machine.applied M.Machine.unpacked (sizes rack (B.Backplane.room backplane.now))) }
    {
        let size = RackSize::try_from(cards).or(Err(RackFault::WrongSize))?;
        if !is_log_size(places) {
            return Err(RackFault::WrongSize);
        }
        let total = cards as usize * places;
        if entries.len() != total || machines.len() != cards as usize {
            return Err(RackFault::WrongSize);
        }
        if backplane.cards() != cards || !is_quiet(backplane) {
            return Err(RackFault::WrongSize);
        }
        restart(machines);
        Ok(Rack {
            size,
            places,
            tally: 0,
            seats: [Seat::opened(); 7],
        })
    }
}
