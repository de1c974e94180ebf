// Looking into a log, and copying out of it.
ghost use Rattle.std.specs.Prelude.{◌≡◌, length, filter};
ghost use Rattle.std.specs.Option.{option_map};
ghost use Rattle.frames.specs.Views.{entry_fields};
ghost use Rattle.marks.specs.Order.{header_up_to};
ghost use Rattle.protocol.specs.Booking.{entry_at, inside};
ghost use Rattle.protocol.specs.Taking.{kept_up_to};
ghost use Rattle.logs.specs.Log.{entries_of, kept_places, copied_into, copied_count};

use frames::Entry;
use marks::{Header, Span};

pub(crate) fn is_up_to(base: Header, entry: Entry) -> bool
    ensures { result ≡ header_up_to entry.header base }
{
    entry.header <= base
}

// The entry with this header, looked for from the newest end.
pub fn entry_at(log: &[Entry], header: Header) -> Option<Entry>
    ensures { option_map entry_fields result ≡ entry_at header (entries_of log.now) }
{
    log.iter()
        .rev()
        .find(|entry| entry.header == header)
        .copied()
}

pub fn inside_count(log: &[Entry], span: Span) -> usize
    ensures { result ≡ length (filter (inside span.low span.high) (entries_of log.now)) }
{
    log.iter().filter(|entry| span.holds(entry.header)).count()
}

pub fn count_up_to(log: &[Entry], base: Header) -> usize
    ensures { result ≡ length (kept_up_to base (entries_of log.now)) }
{
    log.iter().filter(|entry| is_up_to(base, **entry)).count()
}

// Copies the entries at or below `base` into `out`, or none where they do not fit.
pub fn read_up_to(log: &[Entry], base: Header, out: &mut [Entry]) -> Option<usize>
    ensures answer { result ≡ copied_count (length (kept_up_to base (entries_of log.now))) (length out.old) }
    ensures places { out.new ≡ copied_into (kept_places base log.now) out.old }
{
    let wanted = count_up_to(log, base);
    if out.len() < wanted {
        return None;
    }
    // Kept: tried over `out.iter_mut().zip(..)`, and the proof did not close: of such a loop it is not known what it wrote.
    // Tried over the filtered log with `enumerate`: there the check knows the iterator, and not which entries are copied.
    let mut copied = 0;
    for entry in log {
        if is_up_to(base, *entry) {
            out[copied] = *entry;
            copied += 1;
        }
    }
    Some(wanted)
}
