// Steps that need no rack: slots, payloads, marks and sizes.
use crate::carried::Carried;
use crate::out::Out;
use crate::step::Step;
use crate::told::NOT_DONE;
use frames::Words;
use frames::slot::{read_slot, write_slot};
use machines::through_words;
use marks::{is_epoch, least_epoch};
use refusals::Refusal;
use rings::shape_for;

const WRITTEN: usize = 128;

const READ: usize = 72;

pub(crate) fn step<M: Carried>(code: u64, step: Step<'_>, out: &mut Out<'_>) {
    match code {
        26 => write(step, out),
        27 => read(step, out),
        28 => words_out(payload::<M>(step.three(1)), out),
        29 => match epoch(step) {
            Ok(epoch) => {
                out.done();
                out.epoch(epoch);
            }
            Err(refusal) => out.refused(refusal),
        },
        30 => match shape_for(step.small(1), step.size(2), step.size(3)) {
            Ok(_) => out.done(),
            Err(refusal) => out.refused(refusal),
        },
        31 => words_out(Ok(M::pack(M::unpack(step.three(1)))), out),
        _ => out.put(NOT_DONE),
    }
}

fn words_out(words: Result<Words, Refusal>, out: &mut Out<'_>) {
    match words {
        Ok((first, second, third)) => {
            out.done();
            out.put(first);
            out.put(second);
            out.put(third);
        }
        Err(refusal) => out.refused(refusal),
    }
}

fn payload<M: Carried>(numbers: Words) -> Result<Words, Refusal> {
    let payload = M::make(M::draft(numbers)?)?;
    Ok(M::pack(through_words::<M>(payload)))
}

fn epoch(step: Step<'_>) -> Result<(u32, u8), Refusal> {
    let above = ((step.word(1) & 0xffffffff) as u32, step.small(2));
    if !is_epoch(above) {
        return Err(Refusal::Malformed);
    }
    least_epoch(step.small(3), above)
}

// The bytes of a buffer that was filled before, as words.
fn write(step: Step<'_>, out: &mut Out<'_>) {
    let mut bytes = [0u8; WRITTEN];
    for (k, byte) in bytes.iter_mut().enumerate() {
        *byte = (k as u8).wrapping_mul(37).wrapping_add(11);
    }
    let wrote = match step.frame(3) {
        Ok(frame) => {
            let lent = step.size(2).min(WRITTEN);
            write_slot(&mut bytes[..lent], step.size(1), frame)
        }
        Err(refusal) => Err(refusal),
    };
    out.outcome(wrote);
    for eight in bytes.chunks(8) {
        out.put(
            eight
                .iter()
                .rev()
                .fold(0, |word: u64, byte| (word << 8) | *byte as u64),
        );
    }
}

fn read(step: Step<'_>, out: &mut Out<'_>) {
    let mut bytes = [0u8; READ];
    for (k, byte) in bytes.iter_mut().enumerate() {
        let word = step.word((k / 8).wrapping_add(3));
        *byte = (word >> (8 * (k % 8) as u32) & 255) as u8;
    }
    let lent = step.size(2).min(READ);
    match read_slot(&bytes[..lent], step.size(1)) {
        Ok(frame) => {
            out.done();
            out.frame(frame);
        }
        Err(refusal) => out.refused(refusal),
    }
}
