// What was found of a setup.
use sem_histories::{AllOutcomes, Sampled, Witness};

/// Outcomes of a setup, as they were found.
#[derive(Debug, Drop)]
pub enum Found {
    /// By that many seeds, from the seed `from` on.
    Sampled {
        from: u64,
        seeds: u64,
        found: Vec<Sampled>,
    },
    /// All outcomes.
    All {
        all: AllOutcomes,
    },
}

impl Found {
    /// The run that shows the outcome of that number.
    pub fn witness(&self, number: u64) -> Option<&Witness> {
        let place = number as usize;
        match self {
            Found::Sampled { found, .. } => found.get(place).map(|it| &it.witness),
            Found::All { all } => all.found.get(place).map(|it| &it.witness),
        }
    }
}
