// The calls of a deed, and a call as the run program reads it, with its reply.
use crate::steps::Deed;
use board::Board;
use frames::Kind;
use machines::Machine;
use play::Reply;
use protocol::Call;
use std::alloc::{AllocError, Global};
use std::fmt;

// A card tells another its row of this kind.
fn tells(from: u8, to: u8, kind: Kind) -> (Call, Call) {
    let number = kind.number();
    (Call::Push(from, to, number), Call::Look(to, from, number))
}

// What a card is called for to do a deed.
pub(crate) fn calls(heap: Global, deed: Deed, card: u8) -> Result<Vec<Call>, AllocError> {
    Ok(match deed {
        Deed::Stand => vec![in heap; Call::Timeout(card)]?,
        Deed::Hear(from) => {
            let (push, look) = tells(from, card, Kind::VoteRow);
            vec![in heap; push, look, Call::Elect(card)]?
        }
        Deed::VoteTo(to) => {
            let (push, look) = tells(card, to, Kind::VoteRow);
            vec![in heap; push, look]?
        }
        Deed::CountVotes => vec![in heap; Call::Win(card)]?,
        Deed::Book(payload) => {
            vec![in heap; Call::Submit(card, 0, <Board as Machine>::pack(payload))]?
        }
        Deed::HandedBy(from, _) => {
            let (push, look) = tells(card, from, Kind::AcceptRow);
            vec![in heap; Call::Ship(from, card), Call::Take(card, from), push, look]?
        }
        Deed::SentBy(from) => vec![in heap; Call::Ship(from, card)]?,
        Deed::Reads(from) => {
            let (push, look) = tells(card, from, Kind::AcceptRow);
            vec![in heap; Call::Take(card, from), push, look]?
        }
        Deed::Confirm => vec![in heap; Call::Commit(card)]?,
        Deed::Follow(from) => {
            let (push, look) = tells(from, card, Kind::CommitRow);
            vec![in heap; push, look, Call::Commit(card), Call::Commit(card)]?
        }
        Deed::Stop => vec![in heap; Call::Stop(card)]?,
    })
}

#[derive(Clone, Copy)]
pub struct Said(pub Call, pub Reply);

impl fmt::Display for Said {
    fn fmt<W: fmt::Write>(&self, f: &mut fmt::Formatter<W>) -> fmt::Result {
        match self.0 {
            Call::Timeout(card) => write!(f, "timeout {card}"),
            Call::Elect(card) => write!(f, "elect {card}"),
            Call::Win(card) => write!(f, "win {card}"),
            Call::Submit(card, queue, (load, act, carrier)) => {
                write!(f, "submit {card} {queue} {load} {act} {carrier}")
            }
            Call::Ship(card, peer) => write!(f, "ship {card} {peer}"),
            Call::Take(card, peer) => write!(f, "take {card} {peer}"),
            Call::Push(card, peer, kind) => write!(f, "push {card} {peer} {kind}"),
            Call::Look(card, peer, kind) => write!(f, "look {card} {peer} {kind}"),
            Call::Commit(card) => write!(f, "commit {card}"),
            Call::Stop(card) => write!(f, "stop {card}"),
        }?;
        match self.1 {
            Ok(answer) => write!(f, ": {answer}"),
            Err(refusal) => write!(f, ": {refusal}"),
        }
    }
}
