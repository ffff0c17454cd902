//! Tests of whole runs, on one thread and in threads. No program uses this crate.
#![tactic(auto)]

#[cfg(test)]
mod changes;
#[cfg(test)]
mod endings;
#[cfg(test)]
mod faults;
#[cfg(test)]
mod gates;
#[cfg(test)]
mod seeds;
#[cfg(test)]
mod threads;
#[cfg(test)]
mod transfers;
#[cfg(test)]
mod turns;
