// The lent bytes, a slot at a time.
ghost use Rattle.std.specs.Prelude.{◌≡◌, ◌+◌, ◌*◌, ◌≤◌, length};
ghost use Rattle.frames.specs.Made.{read_at, wrote_at};

use frames::Frame;
use frames::slot::{SLOT, read_slot, write_slot};
use refusals::Refusal;

#[derive(Drop)]
pub struct Store<'a> {
    pub bytes: &'a mut [u8],
}

impl Store<'_> {
    pub(crate) fn write(&mut self, slot: usize, frame: Frame)
        requires { slot * 48 + 48 ≤ length self.old.bytes.now }
        ensures { self.new.bytes.now ≡ wrote_at frame self.old.bytes.now (slot * 48) }
    {
        write_slot(&mut self.bytes[..], slot * SLOT, frame).unwrap()
    }

    #[inline(always)]
    pub(crate) fn read(&self, slot: usize) -> Result<Frame, Refusal>
        requires { slot * 48 + 48 ≤ length self.now.bytes.now }
        ensures { result ≡ read_at self.now.bytes.now (slot * 48) }
    {
        read_slot(&self.bytes[..], slot * SLOT)
    }
}
