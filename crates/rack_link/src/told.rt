// Answers as words.
use crate::out::Out;
use frames::{Entry, Frame};
use marks::{Epoch, Header, Vote};
use play::Reply;
use protocol::{Answer, Card, PeerRow, Role};
use refusals::Refusal;

// A step that cannot be carried out at all.
pub(crate) const NOT_DONE: u64 = 100;

impl Out<'_> {
    pub(crate) fn done(&mut self) {
        self.put(0);
    }

    pub(crate) fn refused(&mut self, refusal: Refusal) {
        self.put(refusal.number() as u64);
    }

    pub(crate) fn number(&mut self, number: u64) {
        self.put(0);
        self.put(number);
    }

    pub(crate) fn epoch(&mut self, epoch: Epoch) {
        self.put(epoch.0 as u64);
        self.put(epoch.1 as u64);
    }

    pub(crate) fn header(&mut self, header: Header) {
        self.epoch((header.0, header.1));
        self.put(header.2 as u64);
    }

    pub(crate) fn vote(&mut self, vote: Vote) {
        self.epoch(vote.0);
        self.header(vote.1);
    }

    pub(crate) fn entry(&mut self, entry: Entry) {
        self.header(entry.header);
        self.put(entry.queue as u64);
        let (first, second, third) = entry.payload;
        self.put(first);
        self.put(second);
        self.put(third);
    }

    pub(crate) fn frame(&mut self, frame: Frame) {
        for field in frame.fields() {
            self.put(field);
        }
    }

    // Whether it was done, and by what it was refused.
    pub(crate) fn outcome<F: Into<Refusal> + Drop>(&mut self, outcome: Result<(), F>) {
        match outcome {
            Ok(()) => self.done(),
            Err(fault) => self.refused(fault.into()),
        }
    }

    pub(crate) fn reply(&mut self, reply: Reply) {
        match reply {
            Ok(answer) => {
                self.put(0);
                self.answer(answer);
            }
            Err(refusal) => self.refused(refusal),
        }
    }

    // As many words as the answer has.
    fn answer(&mut self, answer: Answer) {
        match answer {
            Answer::ForEpoch(epoch) => self.epoch(epoch),
            Answer::Chose(choice) => self.put(choice.number() as u64),
            Answer::Placed(header) => self.header(header),
            Answer::Count(count) => self.put(count as u64),
            Answer::Took(intake) => self.put(intake.number() as u64),
            Answer::Done => {}
        }
    }

    fn peer(&mut self, row: PeerRow) {
        match row.shipped {
            None => self.put(0),
            Some(count) => self.put(count as u64 + 1),
        }
        self.header(row.accept);
        self.vote(row.vote);
        self.header(row.commit);
    }

    pub(crate) fn card(&mut self, card: &Card) {
        self.put(match card.role {
            Role::Electing => 0,
            Role::Leader => 1,
            Role::Follower => 2,
        });
        self.put(card.stopped as u64);
        self.epoch(card.current);
        self.epoch(card.newest);
        self.header(card.accepted);
        self.header(card.committed);
        self.header(card.next);
        self.vote(card.vote);
        for row in card.peers.rows {
            self.peer(row);
        }
    }

    // Four words, whatever the answer.
    pub(crate) fn wide_reply(&mut self, reply: Reply) {
        let (status, (first, second, third)) = match reply {
            Ok(answer) => (0, words_of(answer)),
            Err(refusal) => (refusal.number() as u64, (0, 0, 0)),
        };
        self.put(status);
        self.put(first);
        self.put(second);
        self.put(third);
    }
}

fn words_of(answer: Answer) -> (u64, u64, u64) {
    match answer {
        Answer::ForEpoch((round, leader)) => (round as u64, leader as u64, 0),
        Answer::Chose(choice) => (choice.number() as u64, 0, 0),
        Answer::Placed((round, leader, count)) => (round as u64, leader as u64, count as u64),
        Answer::Count(count) => (count as u64, 0, 0),
        Answer::Took(intake) => (intake.number() as u64, 0, 0),
        Answer::Done => (0, 0, 0),
    }
}
