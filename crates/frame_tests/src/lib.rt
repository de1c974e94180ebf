#![tactic(auto)]

// Cases for marks, frames, slots and numbers on a line.
#[cfg(test)]
mod marks_cases;
#[cfg(test)]
mod numeral_cases;
#[cfg(test)]
mod slot_cases;
