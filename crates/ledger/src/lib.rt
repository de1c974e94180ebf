// The carrier ledger: 32 balances in cents, changed by postings.
#![tactic(auto)]

mod accounts;
mod balances;
mod making;
mod postings;
mod runs;

pub use balances::Ledger;
pub use postings::Posting;
pub use runs::{lone_ledger, sample_words};
