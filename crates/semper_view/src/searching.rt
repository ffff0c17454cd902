// The search for the outcomes of a trace.
use sem_compare::{Found, Telling, no_trace, outcomes_of, too_many};
use sem_draw::Answer;
use sem_msg::Setup;
use sem_outcomes::{Progress, SearchError, all_outcomes_told, sample_outcomes_told};
use sem_reader::read_trace;
use sem_trace::TraceError;
use std::alloc::{AllocError, Global};

/// Which outcomes of a trace are asked for.
#[derive(Clone, Copy, Debug, PartialEq, Eq)]
pub enum Search {
    /// Those of that many seeds, from the seed `from` on.
    Seeds { from: u64, seeds: u64 },
    /// All of them, if there are no more histories than the limit.
    All { limit: usize },
}

/// The answer, with these bytes as the trace.
pub fn outcomes<P: Progress>(
    alloc: Global,
    search: Search,
    telling: Telling,
    bytes: &[u8],
    progress: &mut P,
) -> Result<Answer, AllocError> {
    let setup = match read_trace(alloc, bytes) {
        Ok(setup) => setup,
        Err(TraceError::Refused(fault)) => return no_trace(alloc, bytes, &fault),
        Err(TraceError::Memory) => return Err(AllocError),
    };
    match search {
        Search::Seeds { from, seeds } => {
            let seeds = seeds.min(u64::MAX.saturating_sub(from));
            let found = sample_outcomes_told(alloc, &setup, from, seeds, progress)?;
            let found = Found::Sampled { from, seeds, found };
            outcomes_of(alloc, telling, &setup, &found)
        }
        Search::All { limit } => search_all(alloc, limit, telling, &setup, progress),
    }
}

// The answer from all schedules of the setup.
fn search_all<P: Progress>(
    alloc: Global,
    limit: usize,
    telling: Telling,
    setup: &Setup,
    progress: &mut P,
) -> Result<Answer, AllocError> {
    match all_outcomes_told(alloc, setup, limit, progress) {
        Ok(all) => outcomes_of(alloc, telling, setup, &Found::All { all }),
        Err(SearchError::TooMany) => too_many(alloc, limit),
        Err(SearchError::Memory) => Err(AllocError),
    }
}
