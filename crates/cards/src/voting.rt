// timeout, elect, win and stop, on the card alone.
ghost use Rattle.std.specs.Prelude.{◌≡◌};
ghost use Rattle.protocol.specs.Voting.{standing_epoch};
ghost use Rattle.protocol.specs.declared.answer.Answer.TheVariants.{ForEpoch, Chose, Done};
ghost use Rattle.cards.specs.Faults.{replied};
ghost use Rattle.cards.specs.Parts.{of_cards, timeout_part, elect_part, win_part, stop_part};

use crate::fault::CardFault;
use crate::member::Member;
use marks::{Epoch, least_epoch};
use protocol::{Card, Choice, Role};
use refusals::Refusal;

// Kept: a call's checks stand in it one by one, in the order of their refusals' numbers, as its definition lists them. A
// function for each would take the order out of sight.
impl Member {
    // The least epoch that the card leads above its newest epoch and the largest vote's, if there is one.
    fn standing_epoch(self, card: &Card) -> Result<Epoch, Refusal>
        ensures { result ≡ standing_epoch (of_cards self.size) self.number card.now }
    {
        least_epoch(self.number, card.newest.max(self.largest_vote(card).0))
    }

    pub fn timeout(self, card: &mut Card) -> Result<Epoch, CardFault>
        ensures { (replied ForEpoch result, card.new) ≡ timeout_part self.size self.number card.old }
    {
        if card.stopped {
            return Err(CardFault::Stopped);
        }
        let epoch = self.standing_epoch(card).map_err(|_| CardFault::UsedUp)?;
        card.stand(epoch);
        Ok(epoch)
    }

    pub fn elect(self, card: &mut Card) -> Result<Choice, CardFault>
        ensures { (replied Chose result, card.new) ≡ elect_part self.size self.number card.old }
    {
        if card.stopped {
            return Err(CardFault::Stopped);
        }
        if card.role != Role::Electing {
            return Err(CardFault::WrongRole);
        }
        let most = self.largest_vote(card);
        let choice = Choice::of(card.accepted, card.vote, most);
        match choice {
            Choice::Kept => {}
            Choice::Stood => {
                let epoch = self.standing_epoch(card).map_err(|_| CardFault::UsedUp)?;
                card.stand(epoch);
            }
            Choice::Joined => card.join(most),
        }
        Ok(choice)
    }

    pub fn win(self, card: &mut Card) -> Result<Epoch, CardFault>
        ensures { (replied ForEpoch result, card.new) ≡ win_part self.size self.number card.old }
    {
        if card.stopped {
            return Err(CardFault::Stopped);
        }
        if card.role != Role::Electing {
            return Err(CardFault::WrongRole);
        }
        if !self.is_elected(card) {
            return Err(CardFault::NotElected);
        }
        card.lead();
        Ok(card.newest)
    }
}

pub fn stop(card: &mut Card) -> Result<(), CardFault>
    ensures { (replied (λ _. Done) result, card.new) ≡ stop_part card.old }
{
    if card.stopped {
        return Err(CardFault::Stopped);
    }
    card.stop();
    Ok(())
}
