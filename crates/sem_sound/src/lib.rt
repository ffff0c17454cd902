//! A kernel's side is always sound: at the start, and after every locally enabled act, whatever
//! fitting messages it fetches. So every call of a store meets what the store needs.
#![tactic(auto)]

pub mod stores;
