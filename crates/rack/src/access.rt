// A card of the rack, its part of the entries, and what is written back.
ghost use Rattle.std.specs.Prelude.{◌≡◌, ◌+◌, ◌-◌, ◌*◌, ◌≤◌, true, if◌then◌else◌, IfOk, Ok, Err, slice_index_or};
ghost use Rattle.backplane.specs.Lanes.{is_card};
ghost use Rattle.protocol.specs.Rack.{opened_card, no_peer};
ghost use Rattle.cards.specs.Sizes.{card_count};
ghost use Rattle.rack.specs.Seats.{opened_seat, cards_in};
ghost use Rattle.rack.specs.View.{sizes};
ghost use Rattle.rack.specs.declared.fault.RackFault.TheVariants.{NoSuchCard};

use crate::fault::RackFault;
use crate::seat::Seat;
use crate::state::Rack;
use cards::Member;
use protocol::Card;

impl Rack {
    // Whether a card of the rack has this number.
    fn has(&self, card: u8) -> bool
        ensures { result ≡ is_card (card_count self.now.size) card }
    {
        (1..=self.size.cards()).contains(&card)
    }

    pub fn card(&self, card: u8) -> Result<Card, RackFault>
        ensures { result ≡ (if is_card (card_count self.now.size) card then Ok (slice_index_or (cards_in self.now.seats) (card - 1) opened_card) else Err NoSuchCard) }
    {
        Ok(self.seat(card)?.card)
    }

    // Its seat.
    pub(crate) fn seat(&self, card: u8) -> Result<Seat, RackFault>
        ensures value { result ≡ (if is_card (card_count self.now.size) card then Ok (slice_index_or self.now.seats (card - 1) opened_seat) else Err NoSuchCard) }
        ensures fits { IfOk result (λ seat. seat.used ≤ self.now.places) }
    {
        if !self.has(card) {
            return Err(RackFault::NoSuchCard);
        }
        Ok(self.seats[card as usize - 1])
    }

    // The same for a call that names a peer, which is another card.
    pub(crate) fn seat_to(&self, card: u8, peer: u8) -> Result<Seat, RackFault>
        ensures value { result ≡ (if no_peer (sizes self.now 0) card peer then Err NoSuchCard else Ok (slice_index_or self.now.seats (card - 1) opened_seat)) }
        ensures fits { IfOk result (λ seat. seat.used ≤ self.now.places) }
    {
        let seat = self.seat(card)?;
        if !self.has(peer) || card == peer {
            return Err(RackFault::NoSuchCard);
        }
        Ok(seat)
    }

    pub(crate) fn member(&self, card: u8) -> Member
        ensures { result ≡ record { size = self.now.size; number = card } }
    {
        Member {
            size: self.size,
            number: card,
        }
    }

    pub(crate) fn total(&self) -> usize
        ensures { result ≡ card_count self.now.size * self.now.places }
    {
        self.size.cards() as usize * self.places
    }

    pub(crate) fn start(&self, card: u8) -> usize
        requires { is_card (card_count self.now.size) card ≡ true }
        ensures start { result ≡ (card - 1) * self.now.places }
        ensures within { result + self.now.places ≤ card_count self.now.size * self.now.places }
    {
        (card as usize - 1) * self.places
    }
}
