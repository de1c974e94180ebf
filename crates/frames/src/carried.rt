// What a frame carries.
ghost use Rattle.std.specs.Prelude.{◌≡◌, true, option_map};
ghost use Rattle.marks.specs.Kinds.{is_header};
ghost use Rattle.frames.specs.Fields.{header_of, epoch_of, words_header};
ghost use Rattle.frames.specs.Slot.{field_list};
ghost use Rattle.frames.specs.Views.{entry_fields, frame_fields};
ghost use Rattle.frames.specs.Carried.{carried_entry, carried_base, carried_vote};

use crate::{Entry, Frame, Kind};
use marks::{Epoch, Header, Vote, epoch_of};

impl Frame {
    pub fn fields(&self) -> [u64; 8]
        ensures { result ≡ field_list (frame_fields self.now) }
    {
        [
            self.kind.number() as u64,
            self.round as u64,
            self.leader as u64,
            self.count as u64,
            self.w1,
            self.w2,
            self.w3,
            self.w4,
        ]
    }

    pub fn header(&self) -> Header
        ensures { result ≡ header_of (frame_fields self.now) }
    {
        (self.round, self.leader, self.count)
    }

    pub fn epoch(&self) -> Epoch
        ensures { result ≡ epoch_of (frame_fields self.now) }
    {
        epoch_of(self.header())
    }

    pub fn entry(&self) -> Option<Entry>
        ensures { option_map entry_fields result ≡ carried_entry (frame_fields self.now) }
    {
        match self.kind {
            Kind::Message | Kind::DiffEntry => Some(Entry {
                header: self.header(),
                queue: self.w1 as u8,
                payload: (self.w2, self.w3, self.w4),
            }),
            _ => None,
        }
    }

    // The header in the first three words, where they hold one.
    fn words_header(&self) -> Header
        requires { is_header (words_header (frame_fields self.now)) ≡ true }
        ensures { result ≡ words_header (frame_fields self.now) }
    {
        (self.w1 as u32, self.w2 as u8, self.w3 as u32)
    }

    pub fn base(&self) -> Option<Header>
        ensures { result ≡ carried_base (frame_fields self.now) }
    {
        match self.kind {
            Kind::DiffHead => Some(self.words_header()),
            _ => None,
        }
    }

    pub fn vote(&self) -> Option<Vote>
        ensures { result ≡ carried_vote (frame_fields self.now) }
    {
        match self.kind {
            Kind::VoteRow => Some((self.epoch(), self.words_header())),
            _ => None,
        }
    }
}
