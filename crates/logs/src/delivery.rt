// Delivering a log's entries to a machine.
ghost use Rattle.std.specs.Prelude.{◌≡◌, length, filter};
ghost use Rattle.protocol.specs.Booking.{inside};
ghost use Rattle.protocol.specs.Committing.{applied, last_header};
ghost use Rattle.logs.specs.Log.{entries_of};

use frames::Entry;
use machines::{Machine, apply_words};
use marks::{Header, Span};

// How many entries were delivered, and the last one's header.
#[derive(Clone, Copy, PartialEq, Eq, Debug)]
pub struct Delivered {
    pub count: usize,
    pub last: Header,
}

// Applies one entry: its queue, and the payload that its words unpack to.
pub fn deliver_one<M: Machine>(entry: Entry, machine: &mut M)
    ensures { M.Machine.state machine.new ≡ M.Machine.applied entry.queue (M.Machine.unpacked entry.payload) (M.Machine.state machine.old) }
{
    apply_words(machine, entry.queue, entry.payload);
}

// Delivers the entries that a span holds, in turn; its low end is the last header where there is none.
pub fn deliver<M: Machine>(log: &[Entry], span: Span, machine: &mut M) -> Delivered
    ensures count { result.count ≡ length (filter (inside span.low span.high) (entries_of log.now)) }
    ensures last { result.last ≡ last_header span.low (filter (inside span.low span.high) (entries_of log.now)) }
    ensures state { M.Machine.state machine.new ≡ applied (λ q w. M.Machine.applied q (M.Machine.unpacked w)) (filter (inside span.low span.high) (entries_of log.now)) (M.Machine.state machine.old) }
{
    let none = Delivered {
        count: 0,
        last: span.low,
    };
    // The machine goes along with the count: a fold does not say what became of a value that its closure captured.
    let (delivered, _) = log
        .iter()
        .filter(|entry| span.holds(entry.header))
        .fold((none, machine), |(so_far, machine), entry| {
            deliver_one(*entry, machine);
            let more = Delivered {
                count: so_far.count + 1,
                last: entry.header,
            };
            (more, machine)
        });
    delivered
}
