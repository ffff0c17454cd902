//! Tests of traces, entries, reports and records, read and printed, and of the words of a command
//! line. No program uses this crate.
#![tactic(auto)]

#[cfg(test)]
mod commands;
#[cfg(test)]
mod entries;
#[cfg(test)]
mod faults;
#[cfg(test)]
mod file_commands;
#[cfg(test)]
mod long_reports;
#[cfg(test)]
mod records;
#[cfg(test)]
mod reports;
#[cfg(test)]
mod traces;
#[cfg(test)]
mod words_of_lines;
