// What is asked of a backplane by hand.
use crate::carried::Carried;
use crate::out::Out;
use crate::session::Session;
use crate::step::Step;
use crate::told::NOT_DONE;
use backplane::{Backplane, find_room, is_quiet, send_all};
use frames::Frame;
use refusals::Refusal;

const NUMBERS: [u8; 4] = [0, 4, 5, 6];

// A question about a backplane, or a drop.
fn ask<B: Backplane>(backplane: &mut B, step: Step<'_>, out: &mut Out<'_>) {
    let lane = step.lane(1);
    match step.word(0) {
        19 => out.outcome(backplane.drop_first(lane, step.size(4))),
        20 => match backplane.waiting(lane) {
            Ok(count) => out.number(count as u64),
            Err(fault) => out.refused(fault.refusal()),
        },
        21 => match backplane.frame_at(lane, step.size(4)) {
            Ok(frame) => {
                out.done();
                out.frame(frame);
            }
            Err(fault) => out.refused(fault.refusal()),
        },
        22 => {
            out.number(backplane.cards() as u64);
            out.put(backplane.capacity() as u64);
        }
        23 => out.number(is_quiet(backplane) as u64),
        _ => out.outcome(find_room(backplane, lane, step.size(4))),
    }
}

// Where the choice of the backplane stands.
fn which(step: Step<'_>) -> u64 {
    match step.word(0) {
        20 => step.word(4),
        22 | 23 => step.word(1),
        _ => step.word(5),
    }
}

impl<B: Backplane, O: Backplane, M: Carried> Session<'_, B, O, M> {
    pub(crate) fn lanes(&mut self, step: Step<'_>, out: &mut Out<'_>) {
        if step.word(0) == 18 {
            out.outcome(self.send(step));
        } else if which(step) == 0 {
            ask(&mut *self.own, step, out);
        } else {
            ask(&mut *self.odd, step, out);
        }
    }

    fn send(&mut self, step: Step<'_>) -> Result<(), Refusal> {
        let frame = step.frame(4)?;
        Ok(self.own.send(step.lane(1), frame)?)
    }

    // The records behind the step are the frames.
    pub(crate) fn send_all(&mut self, step: Step<'_>, out: &mut Out<'_>) -> usize {
        let count = step.size(4).min(16);
        let frames = (0..count).filter_map(|k| step.record(k).frame(1).ok());
        match frames.collect::<Vec<Frame>>(self.heap) {
            Ok(frames) => out.outcome(send_all(&mut *self.own, step.lane(1), frames.as_slice())),
            Err(_) => out.put(NOT_DONE),
        }
        count
    }

    // Every lane in turn: how many wait, and their numbers.
    pub(crate) fn dump_lanes(&self, out: &mut Out<'_>) {
        let cards = self.own.cards();
        for from in 1..=cards {
            for to in 1..=cards {
                if from != to {
                    for number in NUMBERS {
                        self.dump_lane(backplane::Lane { from, to, number }, out);
                    }
                }
            }
        }
    }

    fn dump_lane(&self, lane: backplane::Lane, out: &mut Out<'_>) {
        let count = self.own.waiting(lane).unwrap_or(0);
        out.put(count as u64);
        for position in 0..count {
            if let Ok(frame) = self.own.frame_at(lane, position) {
                out.frame(frame);
            }
        }
    }
}
