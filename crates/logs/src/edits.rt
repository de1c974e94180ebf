// Changing a log in place.
ghost use Rattle.std.specs.Prelude.{min, ◌≡◌, ◌+◌, ◌==◌, take, ltb, length, if◌then◌else◌, slice_set, Some, None};
ghost use Rattle.protocol.specs.Taking.{kept_up_to};
ghost use Rattle.logs.specs.Log.{log_of, kept_places, overlaid};
ghost use Rattle.logs.specs.Places.{SamePlaces};

use crate::log::Log;
use crate::reads::is_up_to;
use frames::Entry;
use marks::Header;

impl<'a> Log<'a> {
    // A log in lent places, of which so many are used, and no more than there are.
    pub fn over(places: &'a mut [Entry], used: usize) -> Log<'a>
        ensures same { result.places.ghost_name ≡ places.entry.ghost_name }
        ensures places { result.places.now ≡ places.old }
        ensures used { result.used ≡ min used (length places.old) }
    {
        let used = used.min(places.len());
        Log { places, used }
    }

    pub fn entries(&self) -> &[Entry]
        ensures { result.now ≡ take self.now.used self.now.places.now }
    {
        &self.places[..self.used]
    }

    pub fn capacity(&self) -> usize
        ensures { result ≡ length self.now.places.now }
    {
        self.places.len()
    }

    pub fn is_full(&self) -> bool
        ensures { result ≡ (self.now.used == length self.now.places.now) }
    {
        self.used == self.places.len()
    }

    // Writes an entry into the first place past the used ones, or nothing where there is none.
    pub fn append(&mut self, entry: Entry) -> Option<()>
        ensures same { SamePlaces self.old self.new }
        ensures answer { result ≡ (if ltb self.old.used (length self.old.places.now) then Some tt else None) }
        ensures places { self.new.places.now ≡ (if ltb self.old.used (length self.old.places.now) then slice_set self.old.places.now self.old.used entry else self.old.places.now) }
        ensures used { self.new.used ≡ (if ltb self.old.used (length self.old.places.now) then self.old.used + 1 else self.old.used) }
    {
        if self.is_full() {
            return None;
        }
        self.places[self.used] = entry;
        self.used += 1;
        Some(())
    }

    // Moves the entries at or below `base` to the front, in their order, and uses no place past them; those stay as they were.
    pub fn keep_up_to(&mut self, base: Header)
        ensures same { SamePlaces self.old self.new }
        ensures count { self.new.used ≡ length (kept_up_to base (log_of self.old.places.now self.old.used)) }
        ensures places { self.new.places.now ≡ overlaid (kept_places base (take self.old.used self.old.places.now)) self.old.places.now }
        ensures log { log_of self.new.places.now self.new.used ≡ kept_up_to base (log_of self.old.places.now self.old.used) }
    {
        let mut kept = 0;
        // Kept: the same places are read and written, so both indices are counted; `retain` is a Vec's.
        for i in 0..self.used {
            let entry = self.places[i];
            if is_up_to(base, entry) {
                self.places[kept] = entry;
                kept += 1;
            }
        }
        self.used = kept;
    }
}
