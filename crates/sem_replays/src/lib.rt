//! Tests that compare seeded runs and plays with the answers of two independent reference programs.
//! No program uses this crate.
#![tactic(auto)]

#[cfg(test)]
mod answers;
#[cfg(test)]
mod many_seeds;
#[cfg(test)]
mod seeded;
#[cfg(test)]
mod stops;
