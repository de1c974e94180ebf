// The ten calls one by one, and readings.
use crate::carried::Carried;
use crate::out::Out;
use crate::session::{Session, front, front_mut};
use crate::step::Step;
use crate::told::NOT_DONE;
use backplane::Backplane;
use frames::Entry;
use play::{Reply, play};
use protocol::{Answer, Call};
use rack::Rack;
use refusals::Refusal;

// The calls that are lent a backplane, over the one that is chosen.
fn over_lanes<B: Backplane>(
    rack: &mut Rack,
    entries: &mut [Entry],
    backplane: &mut B,
    call: Call,
) -> Result<Answer, Refusal> {
    Ok(match call {
        Call::Ship(card, peer) => Answer::Count(rack.ship(entries, backplane, card, peer)?),
        Call::Take(card, peer) => Answer::Took(rack.take(entries, backplane, card, peer)?),
        Call::Push(card, peer, kind) => {
            rack.push(backplane, card, peer, kind)?;
            Answer::Done
        }
        Call::Look(card, peer, kind) => {
            rack.look(backplane, card, peer, kind)?;
            Answer::Done
        }
        _ => Answer::Done,
    })
}

// Where the lengths and the choice of the backplane stand in a step.
fn lent(step: Step<'_>) -> (usize, usize, u64) {
    match step.word(0) {
        4 => (step.size(6), 0, 0),
        5 | 6 => (step.size(3), 0, step.word(4)),
        7 | 8 => (0, 0, step.word(4)),
        9 => (step.size(2), step.size(3), 0),
        _ => (0, 0, 0),
    }
}

impl<B: Backplane, O: Backplane, M: Carried> Session<'_, B, O, M> {
    pub(crate) fn call(&mut self, step: Step<'_>, out: &mut Out<'_>) {
        match self.reply(step) {
            Some(reply) => out.reply(reply),
            None => out.put(NOT_DONE),
        }
    }

    // None where no rack is open.
    fn reply(&mut self, step: Step<'_>) -> Option<Reply> {
        let rack = &mut self.opened.as_mut()?.rack;
        let (elen, mlen, which) = lent(step);
        let entries = front_mut(self.entries.as_mut_slice(), elen);
        let call = step.call();
        Some(match call {
            Call::Timeout(card) => rack.timeout(card).map(Answer::ForEpoch),
            Call::Elect(card) => rack.elect(card).map(Answer::Chose),
            Call::Win(card) => rack.win(card).map(Answer::ForEpoch),
            Call::Stop(card) => rack.stop(card).map(|_| Answer::Done),
            Call::Submit(card, queue, payload) => {
                rack.submit(entries, card, queue, payload)
                    .map(Answer::Placed)
            }
            Call::Commit(card) => {
                let machines = front_mut(self.machines.as_mut_slice(), mlen);
                rack.commit(entries, machines, card).map(Answer::Count)
            }
            _ if which == 0 => return Some(over_lanes(rack, entries, &mut *self.own, call)),
            _ => return Some(over_lanes(rack, entries, &mut *self.odd, call)),
        }
        .map_err(|fault| fault.refusal()))
    }

    // The buffer is filled first, so that it is seen what was written.
    pub(crate) fn reading(&mut self, step: Step<'_>, out: &mut Out<'_>) {
        let Some(opened) = &self.opened else {
            return out.put(NOT_DONE);
        };
        let Ok(mark) = Entry::new((0, 1, 1), 15, (7, 7, 7)) else {
            return out.put(NOT_DONE);
        };
        let read = front_mut(self.read.as_mut_slice(), step.size(3));
        read.fill(mark);
        let entries = front(self.entries.as_slice(), step.size(2));
        match opened.rack.reading(entries, step.small(1), read) {
            Ok(count) => out.number(count as u64),
            Err(fault) => {
                out.refused(fault.refusal());
                out.put(0);
            }
        }
        for entry in read.iter() {
            out.entry(*entry);
        }
    }

    pub(crate) fn log(&self, step: Step<'_>, out: &mut Out<'_>) {
        let Some(opened) = &self.opened else {
            return out.put(NOT_DONE);
        };
        match opened.rack.log(front(self.entries.as_slice(), step.size(2)), step.small(1)) {
            Ok(log) => {
                out.number(log.len() as u64);
                for entry in log {
                    out.entry(*entry);
                }
            }
            Err(fault) => out.refused(fault.refusal()),
        }
    }

    pub(crate) fn card(&self, step: Step<'_>, out: &mut Out<'_>) {
        let Some(opened) = &self.opened else {
            return out.put(NOT_DONE);
        };
        match opened.rack.card(step.small(1)) {
            Ok(card) => {
                out.done();
                out.card(&card);
            }
            Err(fault) => out.refused(fault.refusal()),
        }
    }

    pub(crate) fn fits(&self, step: Step<'_>, out: &mut Out<'_>) {
        match &self.opened {
            Some(opened) => {
                let fits = opened.rack.fits(step.size(1), step.size(2), step.small(3));
                out.number(fits as u64);
            }
            None => out.put(NOT_DONE),
        }
    }

    // The records behind the step are the calls.
    pub(crate) fn play(&mut self, step: Step<'_>, out: &mut Out<'_>) -> usize {
        let count = step.size(1).min(16);
        let mut calls = [Call::Stop(0); 16];
        for (k, call) in calls.iter_mut().enumerate() {
            *call = step.record(k).call();
        }
        let mut replies = [Ok(Answer::Done); 20];
        let calls = front(&calls, count);
        let replies = front_mut(&mut replies, step.size(2));
        match self.played(step, calls, replies) {
            Some(played) => out.outcome(played),
            None => {
                out.put(NOT_DONE);
                return count;
            }
        }
        for reply in replies.iter() {
            out.wide_reply(*reply);
        }
        count
    }

    fn played(
        &mut self,
        step: Step<'_>,
        calls: &[Call],
        replies: &mut [Reply],
    ) -> Option<Result<(), Refusal>> {
        let rack = &mut self.opened.as_mut()?.rack;
        let entries = front_mut(self.entries.as_mut_slice(), step.size(3));
        let machines = front_mut(self.machines.as_mut_slice(), step.size(4));
        let played = if step.word(5) == 0 {
            play::<B, M>(rack, entries, machines, &mut *self.own, calls, replies)
        } else {
            play::<O, M>(rack, entries, machines, &mut *self.odd, calls, replies)
        };
        Some(played.map_err(|fault| fault.refusal()))
    }
}
