// What a card reads off the rows of all cards.
ghost use Rattle.std.specs.Prelude.{◌≡◌};
ghost use Rattle.protocol.specs.Voting.{largest_vote, is_elected};
ghost use Rattle.marks.specs.Order.{vote_up_to};
ghost use Rattle.marks.specs.Rows.{count_between};
ghost use Rattle.protocol.specs.Rows.{vote_of, vote_rows};
ghost use Rattle.cards.specs.Parts.{of_cards};
ghost use Rattle.cards.specs.Sizes.{card_count};

use crate::member::Member;
use marks::Vote;
use marks::rows::Mark;
use protocol::{Card, is_majority};

impl Member {
    // A card's vote row: its own vote in its own place, a copy elsewhere.
    fn vote_of(self, card: &Card, place: u8) -> Vote
        ensures { result ≡ vote_of self.number card.now.vote card.now.peers place }
    {
        if place == self.number {
            card.vote
        } else {
            card.peers.row(place).vote
        }
    }

    // The largest of the n vote rows, the card's own among them.
    // Kept: a row is read when it is its turn, as where rows are counted. Tried by `known_rows` and `largest`: the compiler
    // then writes all seven rows to memory and copies them before the first is compared, and a timeout takes twice the time.
    pub fn largest_vote(self, card: &Card) -> Vote
        ensures { result ≡ largest_vote (of_cards self.size) self.number card.now }
    {
        let mut most = card.vote;
        for before in 0..self.size.cards() {
            let vote = self.vote_of(card, before + 1);
            if most.up_to(vote) {
                most = vote;
            }
        }
        most
    }

    // How many of the n vote rows equal the card's vote.
    fn equal_votes(self, card: &Card) -> usize
        ensures { result ≡ count_between vote_up_to card.now.vote card.now.vote (vote_rows (card_count self.size) self.number card.now.vote card.now.peers) }
    {
        let vote = card.vote;
        card.peers
            .known_between(self.number, vote, self.size.cards(), vote, vote)
    }

    // A majority of vote rows equals the card's vote, and it leads that epoch.
    pub fn is_elected(self, card: &Card) -> bool
        ensures { result ≡ is_elected (of_cards self.size) self.number card.now }
    {
        card.vote.0.1 == self.number && is_majority(self.equal_votes(card), self.size.cards())
    }
}
