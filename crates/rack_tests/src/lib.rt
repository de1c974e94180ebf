// What no script of calls can bring about: memory of a wrong length, frames sent by hand, marks at their ends.
#![tactic(auto)]

#[cfg(test)]
mod bench;
#[cfg(test)]
mod ends;
#[cfg(test)]
mod fronts;
#[cfg(test)]
mod sizes;
