// Frames and entries from plain numbers, refused where they are no frame's and no entry's.
ghost use Rattle.std.specs.Prelude.{◌≡◌, true, ◌&&◌, if◌then◌else◌, Some, None, nat_lt};
ghost use Rattle.frames.specs.Kinds.{kind_number};
ghost use Rattle.frames.specs.Fields.{fields_of, is_entry_header, carries_entry, carries_diff, carries_header, carries_vote};
ghost use Rattle.frames.specs.Views.{entry_fields, frame_fields};
ghost use Rattle.frames.specs.Carried.{of_entry, entry_frame, vote_frame, head_frame};
ghost use Rattle.marks.specs.Kinds.{is_header};
ghost use Rattle.frames.specs.Made.{from_list, frame_from, entry_from};
ghost use Rattle.frames.specs.Numbers.{word_from, frame_from_numbers};

use crate::{Entry, Frame, Kind, Words};
use marks::{Epoch, Header, LAST_COUNT, Vote, epoch_of, header_in, is_card, is_epoch, is_header};
use refusals::Refusal;

pub type FrameWords = (u64, u64, u64, u64);

// The most entries that may follow a diff's head.
pub const MOST_ENTRIES: u64 = 1024;

pub const LAST_QUEUE: u8 = 15;

// An entry's header has a leader and a count of 1 or more.
fn is_entry_header(header: Header) -> bool
    ensures { result ≡ is_entry_header header }
{
    let (_, leader, count) = header;
    is_card(leader) && (1..=LAST_COUNT).contains(&count)
}

fn carries_entry(header: Header, words: FrameWords) -> bool
    ensures { result ≡ carries_entry (fields_of 1 header words) }
{
    is_entry_header(header) && words.0 <= LAST_QUEUE as u64
}

// Three numbers as a header's, where they are of its widths.
fn narrow(round: u64, leader: u64, count: u64) -> Option<Header>
    ensures { result ≡ (if nat_lt round 4294967296 && (nat_lt leader 256 && nat_lt count 4294967296) then Some (round, leader, count) else None) }
{
    let round = u32::try_from(round).ok()?;
    let leader = u8::try_from(leader).ok()?;
    let count = u32::try_from(count).ok()?;
    Some((round, leader, count))
}

// Whether three words hold a header.
fn words_hold_header(words: FrameWords) -> bool
    ensures { result ≡ is_header (words.0, words.1, words.2) }
{
    let (w1, w2, w3, _) = words;
    narrow(w1, w2, w3).is_some_and(|header| is_header(header))
}

// The words of a header, and a last one.
fn header_words(header: Header, last: u64) -> FrameWords
    ensures { result ≡ (header.0, header.1, header.2, last) }
{
    let (round, leader, count) = header;
    (u64::from(round), u64::from(leader), u64::from(count), last)
}

// A whole number of 64 bits.
fn word(number: i128) -> Result<u64, Refusal>
    ensures { result ≡ word_from number }
{
    u64::try_from(number).or(Err(Refusal::Malformed))
}

// Inlined, as the two below: called, each takes header and words from memory, and a reader of slots would have to write
// them there first.
#[inline(always)]
fn carries_diff(header: Header, words: FrameWords) -> bool
    ensures { result ≡ carries_diff (fields_of 2 header words) }
{
    let (_, leader, count) = header;
    is_card(leader) && count == 0 && words.3 <= MOST_ENTRIES && words_hold_header(words)
}

#[inline(always)]
fn carries_header(header: Header, words: FrameWords) -> bool
    ensures { result ≡ carries_header (fields_of 4 header words) }
{
    words == (0, 0, 0, 0) && is_header(header)
}

#[inline(always)]
fn carries_vote(header: Header, words: FrameWords) -> bool
    ensures { result ≡ carries_vote (fields_of 5 header words) }
{
    header.2 == 0 && words.3 == 0 && is_epoch(epoch_of(header)) && words_hold_header(words)
}

// The frame of such a kind that carries this entry.
fn carrying(kind: Kind, entry: Entry) -> Frame
    requires { of_entry kind ≡ true }
    ensures { frame_fields result ≡ entry_frame (kind_number kind) (entry_fields entry) }
{
    let (round, leader, count) = entry.header;
    let (w2, w3, w4) = entry.payload;
    Frame {
        kind,
        round,
        leader,
        count,
        w1: entry.queue as u64,
        w2,
        w3,
        w4,
    }
}

impl Frame {
    // The frame of this kind with these numbers; 8 where they are no frame's.
    // Inlined, as the two below: a frame is handed on through all three, and would be copied at each.
    #[inline(always)]
    pub fn of(kind: Kind, header: Header, words: FrameWords) -> Result<Frame, Refusal>
        ensures { result ≡ frame_from (fields_of (kind_number kind) header words) }
    {
        match kind {
            Kind::Message | Kind::DiffEntry if carries_entry(header, words) => {}
            Kind::DiffHead if carries_diff(header, words) => {}
            Kind::AcceptRow | Kind::CommitRow if carries_header(header, words) => {}
            Kind::VoteRow if carries_vote(header, words) => {}
            _ => return Err(Refusal::Malformed),
        }
        let (round, leader, count) = header;
        let (w1, w2, w3, w4) = words;
        Ok(Frame {
            kind,
            round,
            leader,
            count,
            w1,
            w2,
            w3,
            w4,
        })
    }

    // The same, from a kind's number; 8 where it is no kind's.
    #[inline(always)]
    pub fn new(kind: u8, header: Header, words: FrameWords) -> Result<Frame, Refusal>
        ensures { result ≡ frame_from (fields_of kind header words) }
    {
        Frame::of(Kind::try_from(kind)?, header, words)
    }

    // The same, from the fields in their order; 8 for one that is too large.
    #[inline(always)]
    pub fn from_fields(fields: [u64; 8]) -> Result<Frame, Refusal>
        ensures { result ≡ frame_from (from_list fields) }
    {
        let [kind, round, leader, count, w1, w2, w3, w4] = fields;
        let kind = u8::try_from(kind).or(Err(Refusal::Malformed))?;
        let header = narrow(round, leader, count).ok_or(Refusal::Malformed)?;
        Frame::new(kind, header, (w1, w2, w3, w4))
    }

    // The same, from whole numbers.
    pub fn from_numbers(numbers: [i128; 8]) -> Result<Frame, Refusal>
        ensures { result ≡ frame_from_numbers numbers }
    {
        let mut fields = [0; 8];
        // Kept: a place by its index. Of what is written through `iter_mut` nothing is known.
        for (k, number) in numbers.iter().enumerate() {
            fields[k] = word(*number)?;
        }
        Frame::from_fields(fields)
    }

    // The message of an entry.
    pub fn message(entry: Entry) -> Frame
        ensures { frame_fields result ≡ entry_frame 1 (entry_fields entry) }
    {
        carrying(Kind::Message, entry)
    }

    // An entry's frame in a diff.
    pub fn diff_entry(entry: Entry) -> Frame
        ensures { frame_fields result ≡ entry_frame 3 (entry_fields entry) }
    {
        carrying(Kind::DiffEntry, entry)
    }

    // A vote as a row.
    pub fn vote_row(vote: Vote) -> Result<Frame, Refusal>
        ensures { result ≡ frame_from (vote_frame vote) }
    {
        let (epoch, header) = vote;
        Frame::of(Kind::VoteRow, header_in(epoch, 0), header_words(header, 0))
    }

    // The head of a diff of so many entries.
    pub fn diff_head(epoch: Epoch, base: Header, entries: usize) -> Result<Frame, Refusal>
        ensures { result ≡ frame_from (head_frame epoch base entries) }
    {
        let words = header_words(base, entries as u64);
        Frame::of(Kind::DiffHead, header_in(epoch, 0), words)
    }
}

impl Entry {
    // The entry of these numbers: 3 for a queue above 15, 8 for a header that is no entry's.
    pub fn new(header: Header, queue: u8, payload: Words) -> Result<Entry, Refusal>
        ensures { result ≡ entry_from (record { header = header; queue = queue; payload = payload }) }
    {
        if queue > LAST_QUEUE {
            return Err(Refusal::OutOfRange);
        }
        if !is_entry_header(header) {
            return Err(Refusal::Malformed);
        }
        Ok(Entry {
            header,
            queue,
            payload,
        })
    }
}
