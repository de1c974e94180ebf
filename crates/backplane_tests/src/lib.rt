// One table of calls for every backplane of three cards with room for eight frames, and what is particular to each.
#![tactic(auto)]

#[cfg(test)]
mod steps;
#[cfg(test)]
mod tests;
