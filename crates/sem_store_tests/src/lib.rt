//! Tests of keys, of what a kernel stores, and of what a seed draws. No program uses this crate.
#![tactic(auto)]

#[cfg(test)]
mod capabilities;
#[cfg(test)]
mod draws;
#[cfg(test)]
mod jobs;
#[cfg(test)]
mod keys;
#[cfg(test)]
mod parks;
