// Slots, as C writes and reads them.
ghost use Rattle.std.specs.Prelude.{◌≡◌};
ghost use Rattle.frames.specs.Made.{frame_from, read_at};
ghost use Rattle.rack_link.specs.Slots.{status, numbers_in, placed, with_slot, with_numbers};

use frames::Frame;
use frames::slot::{read_slot, write_slot};
use refusals::Refusal;

// The eight numbers of a frame.
#[repr(C)]
#[derive(Clone, Copy)]
pub struct Fields {
    pub kind: u64,
    pub round: u64,
    pub leader: u64,
    pub count: u64,
    pub w1: u64,
    pub w2: u64,
    pub w3: u64,
    pub w4: u64,
}

fn write(bytes: &mut [u8], start: usize, fields: Fields) -> Result<(), Refusal>
    ensures answer { status result ≡ placed (frame_from (numbers_in fields)) bytes.old start }
    ensures bytes { bytes.new ≡ with_slot (frame_from (numbers_in fields)) bytes.old start }
{
    let frame = Frame::from_fields([
        fields.kind,
        fields.round,
        fields.leader,
        fields.count,
        fields.w1,
        fields.w2,
        fields.w3,
        fields.w4,
    ])?;
    write_slot(bytes, start, frame)
}

// Writes the slot of the frame of these numbers from a start on. Answers 0, or by what it is refused.
#[unsafe(no_mangle)]
pub extern "C" fn rack_slot_write(bytes: &mut [u8], start: usize, fields: &Fields) -> u8
    ensures answer { result ≡ placed (frame_from (numbers_in fields.now)) bytes.old start }
    ensures bytes { bytes.new ≡ with_slot (frame_from (numbers_in fields.now)) bytes.old start }
{
    match write(bytes, start, *fields) {
        Ok(()) => 0,
        Err(why) => why.number(),
    }
}

// Reads the frame whose slot stands from a start on. Answers 0, or by what it is refused.
#[unsafe(no_mangle)]
pub extern "C" fn rack_slot_read(bytes: &[u8], start: usize, fields: &mut Fields) -> u8
    ensures answer { result ≡ status (read_at bytes.now start) }
    ensures fields { fields.new ≡ with_numbers (read_at bytes.now start) fields.old }
{
    match read_slot(bytes, start) {
        Ok(frame) => {
            let [kind, round, leader, count, w1, w2, w3, w4] = frame.fields();
            *fields = Fields {
                kind,
                round,
                leader,
                count,
                w1,
                w2,
                w3,
                w4,
            };
            0
        }
        Err(why) => why.number(),
    }
}
