// What a line asks: the rack's size, a card, its newest epoch and accepted header, and every card's vote row.
use marks::{Epoch, Header, Vote, is_epoch, is_header};
use numerals::number;
use std::alloc::{AllocError, Global};

#[derive(Drop)]
pub struct Case {
    pub cards: u8,
    pub card: u8,
    pub newest: Epoch,
    pub accepted: Header,
    // The card's own vote, and every card's.
    pub own: Vote,
    pub votes: Vec<Vote>,
}

// None for a line that is no such case.
pub(crate) fn read(heap: Global, line: &str) -> Result<Option<Case>, AllocError> {
    let Some(numbers): Option<Vec<i128>> = line.split_whitespace().map(number).collect(heap)? else {
        return Ok(None);
    };
    let [cards, card, e1, e2, h1, h2, h3, rows @ ..] = numbers.as_slice() else {
        return Ok(None);
    };
    let (Some(newest), Some(accepted)) = (epoch(*e1, *e2), header(*h1, *h2, *h3)) else {
        return Ok(None);
    };
    let (Ok(cards), Ok(card)) = (u8::try_from(*cards), u8::try_from(*card)) else {
        return Ok(None);
    };
    let (rows, rest) = rows.as_chunks::<5>();
    if !matches!(cards, 3 | 5 | 7) || rows.len() != cards as usize || !rest.is_empty() {
        return Ok(None);
    }
    let Some(votes): Option<Vec<Vote>> = rows.iter().map(vote).collect(heap)? else {
        return Ok(None);
    };
    let place = (card as usize).wrapping_sub(1);
    let Some(own) = votes.get(place).copied() else {
        return Ok(None);
    };
    Ok(Some(Case {
        cards,
        card,
        newest,
        accepted,
        own,
        votes,
    }))
}

fn vote(row: &[i128; 5]) -> Option<Vote> {
    let [e1, e2, h1, h2, h3] = *row;
    Some((epoch(e1, e2)?, header(h1, h2, h3)?))
}

fn epoch(round: i128, leader: i128) -> Option<Epoch> {
    let epoch = (u32::try_from(round).ok()?, u8::try_from(leader).ok()?);
    is_epoch(epoch).then_some(epoch)
}

fn header(round: i128, leader: i128, count: i128) -> Option<Header> {
    let header = (
        u32::try_from(round).ok()?,
        u8::try_from(leader).ok()?,
        u32::try_from(count).ok()?,
    );
    is_header(header).then_some(header)
}
