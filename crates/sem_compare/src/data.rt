// The outcomes of a trace, as they are told. In JSON, each is one object with these members.
use serde::{Deserialize, Serialize};

/// Some outcomes of a trace, or all of them.
#[derive(Debug, Drop, PartialEq, Serialize, Deserialize)]
pub struct Outcomes {
    /// The canonical text of the trace.
    pub trace: String,
    /// The seeds of the runs; none if all schedules were searched.
    pub seeds: Vec<SeedRange>,
    /// How many histories there are, if all schedules were searched.
    pub histories: Option<u64>,
    pub outcomes: Vec<Outcome>,
}

/// Consecutive seeds.
#[derive(Clone, Copy, Debug, PartialEq, Eq, Serialize, Deserialize)]
pub struct SeedRange {
    pub from: u64,
    pub count: u64,
}

/// The outcome of a run.
#[derive(Debug, Drop, PartialEq, Serialize, Deserialize)]
pub struct Outcome {
    /// How many of the seeds, or of the complete histories, end with it.
    pub count: u64,
    /// The least of these seeds.
    pub seed: Option<u64>,
    /// Each call of the trace, VPE by VPE.
    pub calls: Vec<CallEnd>,
    /// The held keys at the end, in rising key order.
    pub held: Vec<HeldKey>,
}

/// How a call ended.
#[derive(Debug, Drop, PartialEq, Serialize, Deserialize)]
pub struct CallEnd {
    pub vpe: u16,
    /// The number of the call among those of the VPE, from 0 on.
    pub call: u64,
    /// The words of the call.
    pub words: String,
    /// The name of the code of its reply; none if it got no reply.
    pub code: Option<String>,
}

/// A held capability.
#[derive(Debug, Drop, PartialEq, Serialize, Deserialize)]
pub struct HeldKey {
    pub key: String,
    pub selector: u8,
}
