// A diff in front of a lane, opened.
ghost use Rattle.std.specs.Prelude.{◌≡◌, ◌+◌, ◌≤◌, true, ◌++◌, map, length, take, drop};
ghost use Rattle.backplane.specs.Ports.{SamePort, lanes_at, lanes_of, waits};
ghost use Rattle.marks.specs.Kinds.{header_in};
ghost use Rattle.frames.specs.Carried.{entry_of};
ghost use Rattle.frames.specs.Views.{frame_fields};
ghost use Rattle.protocol.specs.Taking.{is_diff, kept_up_to, installed_log, entered_by};
ghost use Rattle.logs.specs.Places.{SamePlaces, logged};
ghost use Rattle.taking.specs.Wholes.{entry_between, whole_behind};
ghost use Rattle.taking.specs.Openings.{DiffFront, lane_of};
ghost use Rattle.taking.specs.Tokens.{token_of};

use crate::lane::discard;
use backplane::{Backplane, Port};
use frames::{Frame, Kind};
use logs::Log;
use marks::{Epoch, Header, Span, header_in};
use protocol::Card;

// The numbers of a diff whose frames still wait. It cannot be let go: who holds one installs it, passes it over or puts it
// back.
// Kept: `DiffFront` stands at each function that spends it. The token is plain numbers, so it cannot hold the port of which
// that fact speaks.
pub(crate) struct OpenedDiff {
    pub(crate) epoch: Epoch,
    pub(crate) base: Header,
    pub(crate) entries: usize,
}

fn is_entry_between(frame: Frame, span: Span) -> bool
    ensures { result ≡ entry_between span.low span.high (frame_fields frame) }
{
    frame.kind == Kind::DiffEntry && span.holds(frame.header())
}

impl OpenedDiff {
    pub(crate) fn of(head: Frame) -> OpenedDiff
        requires { is_diff (frame_fields head) ≡ true }
        ensures { result ≡ token_of (frame_fields head) }
    {
        OpenedDiff {
            epoch: head.epoch(),
            base: head.base().unwrap(),
            entries: head.w4 as usize,
        }
    }

    // Whether all entries wait behind the head, rising between the base and the epoch.
    pub(crate) fn is_whole<B: Backplane>(&self, port: &Port<'_, B>) -> bool
        ensures { result ≡ whole_behind self.now.base (header_in self.now.epoch 0) self.now.entries (drop 1 (lane_of port.now)) }
    {
        let high = header_in(self.epoch, 0);
        // Kept: a lane is asked by position, so there is no slice to go over; a `try_fold` over positions would carry the
        // header that was read last, and end in an Option that is only asked `is_some`.
        let mut low = self.base;
        for index in 0..self.entries {
            match port.frame_at(index + 1) {
                Some(frame) if is_entry_between(frame, Span { low, high }) => low = frame.header(),
                _ => return false,
            }
        }
        true
    }

    fn copy_entries<B: Backplane>(&self, log: &mut Log<'_>, port: &Port<'_, B>)
        requires whole { whole_behind self.now.base (header_in self.now.epoch 0) self.now.entries (drop 1 (lane_of port.now)) ≡ true }
        requires room { log.old.used + self.now.entries ≤ length log.old.places.now }
        ensures same { SamePlaces log.old log.new }
        ensures log { logged log.new ≡ logged log.old ++ map entry_of (take self.now.entries (drop 1 (lane_of port.now))) }
    {
        // Kept: the same; the frames are read by position.
        for index in 0..self.entries {
            let frame = port.frame_at(index + 1).unwrap();
            log.append(frame.entry().unwrap()).unwrap();
        }
    }

    // Cuts the log to the base and appends the entries; the card follows in the diff's epoch.
    // Kept: card, log and port as three, here, in `take_diff` and in `take_message`. Each is lent on alone: the card to
    // `decide`, the log to `copy_entries`, the port to `pass_over`.
    pub(crate) fn install<B: Backplane>(
        self,
        card: &mut Card,
        log: &mut Log<'_>,
        port: &mut Port<'_, B>,
    )
        requires front { DiffFront port.old.lane.from (lane_of port.old) self }
        requires room { length (kept_up_to self.base (logged log.old)) + self.entries ≤ length log.old.places.now }
        ensures places { SamePlaces log.old log.new }
        ensures card { card.new ≡ entered_by self.epoch card.old }
        ensures log { logged log.new ≡ installed_log self.base (map entry_of (take self.entries (drop 1 (lane_of port.old)))) (logged log.old) }
        ensures lanes { lanes_of port.new ≡ lanes_at port.old (drop (self.entries + 1) (waits port.old)) }
        ensures same { SamePort port.old port.new }
    {
        log.keep_up_to(self.base);
        self.copy_entries(log, port);
        card.enter(self.epoch);
        self.pass_over(port);
    }

    // The frames go, and nothing else changes.
    pub(crate) fn pass_over<B: Backplane>(self, port: &mut Port<'_, B>)
        requires { DiffFront port.old.lane.from (lane_of port.old) self }
        ensures lanes { lanes_of port.new ≡ lanes_at port.old (drop (self.entries + 1) (waits port.old)) }
        ensures same { SamePort port.old port.new }
    {
        let OpenedDiff {
            epoch: _,
            base: _,
            entries,
        } = self;
        discard(port, entries + 1);
    }

    // The frames stay where they wait.
    pub(crate) fn put_back(self) {
        let OpenedDiff {
            epoch: _,
            base: _,
            entries: _,
        } = self;
    }
}
