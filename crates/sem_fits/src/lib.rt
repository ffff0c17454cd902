//! What a schedule tells fits into the text of its report: the fields of the messages under way, of
//! the entries, and of the held keys at the end are in the ranges of the version.
#![tactic(auto)]

pub mod ranges;
