// Cases at every edge of the two machines.
#![tactic(auto)]

#[cfg(test)]
mod board_cases;
#[cfg(test)]
mod ledger_cases;
