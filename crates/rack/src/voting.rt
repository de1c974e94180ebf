// timeout, elect, win and stop.
ghost use Rattle.std.specs.Prelude.{◌≡◌, List as Listing};
ghost use Rattle.frames.specs.declared.entry.Entry.{Entry as AnEntry};
ghost use Rattle.backplane.specs.Lanes.{Lanes};
ghost use Rattle.protocol.specs.Voting.{timeout, elect, win};
ghost use Rattle.protocol.specs.Exchange.{stop};
ghost use Rattle.protocol.specs.declared.answer.Answer.TheVariants.{ForEpoch, Chose, Done};
ghost use Rattle.rack.specs.Faults.{told};
ghost use Rattle.rack.specs.View.{view, sizes};

use crate::fault::RackFault;
use crate::state::Rack;
use marks::Epoch;
use protocol::Choice;

// Kept: four calls that are alike but for what they ask of the card. The contract of each is an equation by its own definition;
// one function over a closure could only say what the closure says.
impl Rack {
    pub fn timeout(&mut self, card: u8) -> Result<Epoch, RackFault>
        ensures step { (entries : Listing AnEntry) (lanes : Lanes) → (told ForEpoch result, view self.new entries (λ _. tt {0}) lanes) ≡ timeout (sizes self.old 0) card (view self.old entries (λ _. tt {0}) lanes) }
        ensures sizes { sizes self.new 0 ≡ sizes self.old 0 }
    {
        self.seat(card)?;
        let member = self.member(card);
        Ok(member.timeout(&mut self.seats[card as usize - 1].card)?)
    }

    // The card stands itself, joins the largest vote, or keeps its own.
    pub fn elect(&mut self, card: u8) -> Result<Choice, RackFault>
        ensures step { (entries : Listing AnEntry) (lanes : Lanes) → (told Chose result, view self.new entries (λ _. tt {0}) lanes) ≡ elect (sizes self.old 0) card (view self.old entries (λ _. tt {0}) lanes) }
        ensures sizes { sizes self.new 0 ≡ sizes self.old 0 }
    {
        self.seat(card)?;
        let member = self.member(card);
        Ok(member.elect(&mut self.seats[card as usize - 1].card)?)
    }

    // The card leads its vote's epoch once a majority of votes equals its own.
    pub fn win(&mut self, card: u8) -> Result<Epoch, RackFault>
        ensures step { (entries : Listing AnEntry) (lanes : Lanes) → (told ForEpoch result, view self.new entries (λ _. tt {0}) lanes) ≡ win (sizes self.old 0) card (view self.old entries (λ _. tt {0}) lanes) }
        ensures sizes { sizes self.new 0 ≡ sizes self.old 0 }
    {
        self.seat(card)?;
        let member = self.member(card);
        Ok(member.win(&mut self.seats[card as usize - 1].card)?)
    }

    pub fn stop(&mut self, card: u8) -> Result<(), RackFault>
        ensures step { (entries : Listing AnEntry) (lanes : Lanes) → (told (λ _. Done) result, view self.new entries (λ _. tt {0}) lanes) ≡ stop (sizes self.old 0) card (view self.old entries (λ _. tt {0}) lanes) }
        ensures sizes { sizes self.new 0 ≡ sizes self.old 0 }
    {
        self.seat(card)?;
        cards::voting::stop(&mut self.seats[card as usize - 1].card)?;
        Ok(())
    }
}
