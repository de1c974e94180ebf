// A log that is edited: lent places, and how many of them are used, from the front.
ghost use Rattle.std.specs.Prelude.{◌≤◌, length};

use frames::Entry;

#[derive(Drop)]
pub struct Log<'a> {
    pub places: &'a mut [Entry],
    pub used: usize,
    ghost fit: { used ≤ length places.now },
}
