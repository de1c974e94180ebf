// What a log holds: a header, a queue and a payload packed in three words.
ghost use Rattle.std.specs.Prelude.{◌≡◌, true};
ghost use Rattle.frames.specs.Fields.{is_entry};

use marks::Header;

pub type Words = (u64, u64, u64);

#[derive(Clone, Copy, PartialEq, Eq, Debug)]
pub struct Entry {
    pub header: Header,
    pub queue: u8,
    pub payload: Words,
    ghost well: { is_entry (record { header = header; queue = queue; payload = payload }) ≡ true },
}
