// What is found in a report while it is checked.
ghost use Rattle.std.specs.Prelude.{◌≡◌};
ghost use Rattle.sem_run.specs.Findings.{question_about, IsNew, IsFound, IsFoundBefore};

use crate::findings::Finding;
use sem_check::Watch;
use sem_cli::Question;
use sem_kernel::World;
use sem_key::OutOfMemory;
use sem_mem::Account;
use sem_msg::{Entry, Setup};
use sem_query::Sighting;
use std::alloc::Global;

impl Finding {
    /// Nothing is found yet for the question.
    pub fn new(alloc: Global, question: Question) -> Self
        ensures question { question_about result ≡ question }
        ensures new { IsNew result }
    {
        match question {
            Question::Check => Finding::Nothing,
            Question::Contents => Finding::Accounted(Account::new(alloc)),
            Question::Holder { key, count } => Finding::Sighted(Sighting::new(key, count)),
            Question::Path { key } => Finding::Line(key),
            Question::Denied { entry } => Finding::Denial(entry),
        }
    }
}

impl Watch for Finding {
    type Subject = Question;

    ghost subject = { λ f. question_about f };

    ghost is_new = { λ f. IsNew f };

    ghost gathers = { λ T J f. IsFound T J f };

    ghost expects = { λ T J e f. IsFoundBefore T J e f };

    fn begin(&mut self, setup: &Setup, world: &World) {
        match self {
            Finding::Sighted(sighting) => sighting.begin(setup, world),
            _ => {}
        }
    }

    fn before(
        &mut self,
        setup: &Setup,
        world: &World,
        past: &[Entry],
        next: &Entry,
    ) -> Result<(), OutOfMemory> {
        match self {
            Finding::Accounted(account) => account.before(world, past.len() as u64, next),
            Finding::Sighted(sighting) => sighting.before(setup, world, past, next),
            _ => {}
        }
        Ok(())
    }

    fn after(
        &mut self,
        setup: &Setup,
        world: &World,
        past: &[Entry],
        next: &Entry,
    ) -> Result<(), OutOfMemory> {
        match self {
            Finding::Accounted(account) => account.after(setup, past, next),
            Finding::Sighted(sighting) => {
                sighting.after(setup, world, past, next);
                Ok(())
            }
            _ => Ok(()),
        }
    }
}
