// The outcome of a run, and the run that shows it.
use sem_msg::{HeldList, Journal};
use std::marker::Model;

/// The outcome of a run: the codes of the replies to each VPE, in the order of the setup; and the
/// keys held at the end, each with its selector, in rising key order.
#[derive(Debug, Drop)]
pub struct RunOutcome {
    pub codes: Vec<Vec<u8>>,
    pub held: HeldList,
}

impl Model for RunOutcome {
    ghost use Rattle.std.specs.Prelude.{map};
    ghost use Rattle.sem_msg.specs.Audits.{held_pairs};
    ghost use Rattle.sem_histories.specs.Outcomes.{RunOutcome as RunOutcomeValue};

    ghost Value = { RunOutcomeValue };

    ghost view = { λ o. record {
      codes = map (λ c. c.items) o.codes.items;
      held = held_pairs o.held;
    } };
}

/// An outcome, and the journal of a run that ends with it.
#[derive(Debug, Drop)]
pub struct Witness {
    pub journal: Journal,
    pub outcome: RunOutcome,
}

impl Model for Witness {
    ghost use Rattle.sem_histories.specs.Listing.{Witness as WitnessValue};

    ghost Value = { WitnessValue };

    ghost view = { λ w. record { journal = w.journal.entries; outcome = w.outcome } };
}

/// An outcome, and how many complete histories end with it.
#[derive(Debug, Drop)]
pub struct Listed {
    pub witness: Witness,
    pub histories: u64,
}

/// All outcomes of a setup.
#[derive(Debug, Drop)]
pub struct AllOutcomes {
    pub found: Vec<Listed>,
    /// How many histories the search met, complete ones and others.
    pub histories: u64,
}

/// An outcome, how many seeds of a sample end with it, and the least of them, whose run shows it.
#[derive(Debug, Drop)]
pub struct Sampled {
    pub witness: Witness,
    pub count: u64,
    pub seed: u64,
}
