// take: the first message or whole diff that waits from a peer enters the card's log, is passed over, or is refused.
#![tactic(auto)]

mod diff;
mod front;
mod installing;
mod lane;
mod message;
mod taking;
mod verdict;

pub use taking::take;
