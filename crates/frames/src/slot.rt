// The 48 bytes of a frame in the caller's memory, written and read at any start.
ghost use Rattle.std.specs.Prelude.{◌≡◌, ◌+◌, ◌<◌, ◌≤◌, ◌++◌, length, take, drop, if◌then◌else◌, Ok, Err, ◌==◌, nat_le};
ghost use Rattle.std.specs.List.{list_all};
ghost use Rattle.std.specs.Simd.Lanes.{digits_l, number_l};
ghost use Rattle.refusals.specs.declared.Refusal.TheVariants.{WrongSize};
ghost use Rattle.frames.specs.Slot.{field_widths, ReadsFields};
ghost use Rattle.frames.specs.Samples.{SlotSample};
ghost use Rattle.frames.specs.Made.{slot, slot_fits, read_at, wrote_at, SlotsAndFrames};

use crate::Frame;
use refusals::Refusal;

pub const SLOT: usize = 48;

// The bytes that each field takes.
const WIDTHS: [usize; 8] = [1, 4, 1, 4, 8, 8, 8, 8];

// The place of each byte of a slot. Kept as a table of bytes: with the loop's own index, a number of 64 bits, in its
// stead the compiler asks two bytes at once, not sixteen.
const PLACES: [u8; SLOT] = [
    0, 1, 2, 3, 4, 5, 6, 7, 8, 9, 10, 11, 12, 13, 14, 15, 16, 17, 18, 19, 20, 21, 22, 23, 24, 25,
    26, 27, 28, 29, 30, 31, 32, 33, 34, 35, 36, 37, 38, 39, 40, 41, 42, 43, 44, 45, 46, 47,
];

fn store(out: &mut [u8], at: usize, value: u64)
    requires { at + 8 ≤ length out.old }
    ensures { out.new ≡ take at out.old ++ (digits_l 256 8 value ++ drop (at + 8) out.old) }
{
    out[at..at + 8].copy_from_slice(&value.to_le_bytes());
}

// Eight bytes are stored for every field, and the next field begins where this one's own bytes end: the zeros
// past them are written over, or stay as the slot's tail.
fn fill(out: &mut [u8], frame: Frame)
    requires { 48 ≤ length out.old }
    ensures { out.new ≡ slot frame ++ drop 48 out.old }
{
    let values = frame.fields();
    let mut at = 1;
    let mut map = 0u16;
    let mut bit = 1u16;
    out[0..48].copy_from_slice(&[0; SLOT]);
    // Kept: an index beside the value. Tried over `zip` with the widths: of such a loop only the iterator is known, and not
    // which field it has come to, so the proof did not close.
    for (i, value) in values.iter().enumerate() {
        store(out, at, *value);
        if *value != 0 {
            at += WIDTHS[i];
            map += bit;
        }
        bit *= 2;
    }
    out[0] = map as u8;
}

// Whether a slot at `start` ends within `len` bytes.
fn slot_fits(len: usize, start: usize) -> bool
    ensures { result ≡ nat_le (start + 48) len }
{
    SLOT <= len && start <= len - SLOT
}

// Writes the frame's slot at `start`; 2 where it would pass the end, and nothing is written then.
pub fn write_slot(bytes: &mut [u8], start: usize, frame: Frame) -> Result<(), Refusal>
    ensures answer { result ≡ (if slot_fits bytes.old start then Ok tt else Err WrongSize) }
    ensures bytes { bytes.new ≡ wrote_at frame bytes.old start }
{
    if !slot_fits(bytes.len(), start) {
        return Err(Refusal::WrongSize);
    }
    fill(&mut bytes[start..], frame);
    Ok(())
}

// At most eight bytes as a number, the low byte first.
fn load(bytes: &[u8]) -> u64
    requires { length bytes.now ≤ 8 }
    ensures { result ≡ number_l 256 bytes.now }
{
    let mut word = [0; 8];
    word[..bytes.len()].copy_from_slice(bytes);
    u64::from_le_bytes(word)
}

// Whether zeros alone stand in a slot from `at` on. Every byte is asked, and none by a branch of its own: so the
// compiler asks sixteen at once.
fn zeros_from(slot: &[u8], at: u8) -> bool
    requires { length slot.now ≡ 48 }
    ensures { result ≡ list_all (λ b. b == 0) (drop at slot.now) }
{
    let mut zeros = true;
    for (i, place) in PLACES.iter().enumerate() {
        zeros &= (*place < at) | (slot[i] == 0);
    }
    zeros
}

// The fields that 48 bytes are the slot of; 8 where they are the slot of none. Inlined: the array is then none in memory.
#[inline(always)]
fn read_fields(slot: &[u8]) -> Result<[u64; 8], Refusal>
    requires { length slot.now ≡ 48 }
    ensures { ReadsFields slot.now result }
{
    let mut values = [0u64; 8];
    let mut left = slot[0];
    let mut at = 1;
    // Kept: the same index, by which the field is written; of what is written through `iter_mut` nothing is known.
    for (i, width) in WIDTHS.iter().enumerate() {
        if left % 2 == 1 {
            let value = load(&slot[at..at + *width]);
            if value == 0 {
                return Err(Refusal::Malformed);
            }
            values[i] = value;
            at += *width;
        }
        left /= 2;
    }
    if !zeros_from(slot, at as u8) {
        return Err(Refusal::Malformed);
    }
    Ok(values)
}

// The frame whose slot stands at `start`; 2 past the end, 8 where the bytes are no frame's slot.
// Inlined: a caller that asks for a row's header has no use for the other fields in memory.
#[inline(always)]
pub fn read_slot(bytes: &[u8], start: usize) -> Result<Frame, Refusal>
    ensures value { result ≡ read_at bytes.now start }
    ensures slots { SlotsAndFrames }
{
    if !slot_fits(bytes.len(), start) {
        return Err(Refusal::WrongSize);
    }
    Frame::from_fields(read_fields(&bytes[start..start + SLOT])?)
}

// The definition at one message.
pub fn slot_sample()
    ensures { SlotSample }
{}
