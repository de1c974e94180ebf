// The parts of the story: the same phases for every size and every way in which the leader fails.
use crate::boards::LOAD;
use crate::steps::{Deed, Hope, Parcel, Span, Step};
use board::{Act, Board};
use machines::Machine;
use protocol::{Answer, Choice, Intake, is_majority};
use refusals::Refusal;
use std::fmt;

// The carrier that books first, and the one that asks for the same load afterwards.
pub const FIRST: u16 = 4711;

pub const SECOND: u16 = 5150;

// Whom the first booking reaches before the leader is gone.
#[derive(Clone, Copy, PartialEq, Eq)]
pub enum Reach {
    OneCard,
    Nobody,
    TooLate,
}

#[derive(Clone, Copy)]
pub struct Scene {
    pub cards: u8,
    pub reach: Reach,
    pub telling: Telling,
}

// How much of a scene is told call by call: all, all but the opening, or all but what is routine.
#[derive(Clone, Copy, PartialEq, Eq)]
pub enum Telling {
    Full,
    Known,
    Brief,
}

fn booking_for(carrier: u16) -> Deed {
    let booking = (LOAD as u64, Act::Book, carrier as u64);
    Deed::Book(<Board as Machine>::make(booking).ok().flatten())
}

impl Scene {
    // The card that the first booking reaches so, if this is how it goes: by OneCard it has the booking in its log
    // when the leader is gone, by TooLate the booking is under way to it when it votes.
    fn reached(self, reach: Reach) -> Option<Span> {
        (self.reach == reach).then_some(Span::one(2))
    }

    // Who leads in the end: the card that holds the booking, otherwise the last, which stands first.
    pub(crate) fn leader(self) -> u8 {
        match self.reach {
            Reach::OneCard => 2,
            _ => self.cards,
        }
    }

    // Who holds the load in the end.
    pub(crate) fn winner(self) -> u16 {
        match self.reach {
            Reach::OneCard => FIRST,
            _ => SECOND,
        }
    }

    // All but the first leader and the last one.
    fn followers(self) -> Span {
        match self.reach {
            Reach::OneCard => Span::new(3, self.cards),
            _ => self.middle(),
        }
    }

    // All but the first leader and the card that stands first.
    fn middle(self) -> Span {
        Span::new(2, self.cards.saturating_sub(1))
    }

    // Card 1 comes to lead all others.
    pub(crate) fn opening(self) -> [Step; 6] {
        let lead = Span::one(1);
        let rest = Span::new(2, self.cards);
        [
            Step::new(lead, Deed::Stand, None),
            Step::new(rest, Deed::Hear(1), Some(Ok(Answer::Chose(Choice::Joined)))),
            Step::new(rest, Deed::VoteTo(1), None),
            Step::new(lead, Deed::CountVotes, None),
            Step::new(
                rest,
                Deed::HandedBy(1, Parcel::Log),
                Some(Ok(Answer::Took(Intake::Installed))),
            ),
            Step::new(lead, Deed::Confirm, Some(Ok(Answer::Count(0)))),
        ]
    }

    // The first carrier books, and the leader gets as far as the scene says.
    pub(crate) fn first_booking(self) -> [Option<Step>; 5] {
        let lead = Span::one(1);
        let handed = Deed::HandedBy(1, Parcel::Entry);
        let appended = Some(Ok(Answer::Took(Intake::Appended)));
        let dies = (self.reach != Reach::TooLate).then_some(lead);
        [
            Some(Step::new(lead, booking_for(FIRST), None)),
            self.reached(Reach::OneCard)
                .map(|holder| Step::new(holder, handed, appended)),
            self.reached(Reach::TooLate).map(|late| Step::new(
                late,
                Deed::SentBy(1),
                Some(Ok(Answer::Count(1))),
            )),
            dies.map(|card| Step::new(card, Deed::Confirm, self.first_confirmed())),
            dies.map(|card| Step::new(card, Deed::Stop, None)),
        ]
    }

    // The leader may confirm once a majority holds the booking, itself counted.
    fn first_confirmed(self) -> Hope {
        let holders = if self.reach == Reach::OneCard { 2 } else { 1 };
        if is_majority(holders, self.cards) {
            Some(Ok(Answer::Count(1)))
        } else {
            Some(Err(Refusal::NothingDue))
        }
    }

    // The last card stands first, the others stand and choose.
    pub(crate) fn choosing(self) -> [Option<Step>; 4] {
        let hear = Deed::Hear(self.cards);
        let middle = self.middle();
        let joining = self
            .reached(Reach::OneCard)
            .map_or(Some(middle), |holder| middle.above(holder.last));
        [
            Some(Step::new(Span::one(self.cards), Deed::Stand, None)),
            Some(Step::new(middle, Deed::Stand, None)),
            self.reached(Reach::OneCard).map(|holder| Step::new(
                holder,
                hear,
                Some(Ok(Answer::Chose(Choice::Stood))),
            )),
            joining.map(|rest| Step::new(rest, hear, Some(Ok(Answer::Chose(Choice::Joined))))),
        ]
    }

    // The old leader's booking arrives after the choice; or the card that holds more is heard. Then votes are counted.
    pub(crate) fn counting(self) -> [Option<Step>; 6] {
        let leader = self.leader();
        let rest = self.followers();
        let passed = Some(Ok(Answer::Took(Intake::PassedOver)));
        let undue = Some(Err(Refusal::NothingDue));
        let joined = Some(Ok(Answer::Chose(Choice::Joined)));
        let old = self.reached(Reach::TooLate).map(|_| Span::one(1));
        [
            self.reached(Reach::TooLate)
                .map(|late| Step::new(late, Deed::Reads(1), passed)),
            old.map(|card| Step::new(card, Deed::Confirm, undue)),
            old.map(|card| Step::new(card, Deed::Stop, None)),
            self.reached(Reach::OneCard)
                .map(|_| Step::new(rest, Deed::Hear(leader), joined)),
            Some(Step::new(rest, Deed::VoteTo(leader), None)),
            Some(Step::new(Span::one(leader), Deed::CountVotes, None)),
        ]
    }

    // The new leader hands on its log, and confirms what it took over.
    pub(crate) fn takeover(self) -> [Step; 2] {
        let leader = self.leader();
        let handed = Deed::HandedBy(leader, Parcel::Log);
        [
            Step::new(
                self.followers(),
                handed,
                Some(Ok(Answer::Took(Intake::Installed))),
            ),
            Step::new(
                Span::one(leader),
                Deed::Confirm,
                Some(Ok(Answer::Count(self.inherited()))),
            ),
        ]
    }

    // Entries of earlier terms that the new leader has in its log.
    fn inherited(self) -> u32 {
        if self.reach == Reach::OneCard { 1 } else { 0 }
    }

    // Another carrier asks for the same load.
    pub(crate) fn second_booking(self) -> Step {
        Step::new(Span::one(self.leader()), booking_for(SECOND), None)
    }

    // All running cards confirm it.
    pub(crate) fn spreading(self) -> [Step; 3] {
        let leader = self.leader();
        let rest = self.followers();
        let handed = Deed::HandedBy(leader, Parcel::Entry);
        [
            Step::new(rest, handed, Some(Ok(Answer::Took(Intake::Appended)))),
            Step::new(Span::one(leader), Deed::Confirm, Some(Ok(Answer::Count(1)))),
            Step::new(
                rest,
                Deed::Follow(leader),
                Some(Ok(Answer::Count(self.inherited().saturating_add(1)))),
            ),
        ]
    }
}

impl fmt::Display for Scene {
    fn fmt<W: fmt::Write>(&self, f: &mut fmt::Formatter<W>) -> fmt::Result {
        let cards = self.cards;
        let reach = match self.reach {
            Reach::OneCard => "The leader gets the booking to one card only, and dies",
            Reach::Nobody => "The leader gets the booking to nobody, and dies",
            Reach::TooLate =>
                "The leader is slow: its booking arrives after the vote for a new leader",
        };
        write!(f, "{cards} cards. {reach}.")
    }
}
