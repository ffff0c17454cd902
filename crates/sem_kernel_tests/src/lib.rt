//! Tests of kernels and of their world, of their links, and of what is told of their journals. No
//! program uses this crate.
#![tactic(auto)]

#[cfg(test)]
mod journals;
#[cfg(test)]
mod kernels;
#[cfg(test)]
mod links;
#[cfg(test)]
mod memories;
#[cfg(test)]
mod messages;
#[cfg(test)]
mod setups;
