//! Tests of what shows reports and outcomes: charts, forests, bars, timelines, counts,
//! explanations, comparisons and logs put together. No program uses this crate.
#![tactic(auto)]

#[cfg(test)]
mod assemblies;
#[cfg(test)]
mod comparisons;
#[cfg(test)]
mod drawings;
#[cfg(test)]
mod explanations;
#[cfg(test)]
mod hints;
#[cfg(test)]
mod listings;
#[cfg(test)]
mod memories;
#[cfg(test)]
mod outcomes;
#[cfg(test)]
mod stories;
#[cfg(test)]
mod trees;
#[cfg(test)]
mod views;
