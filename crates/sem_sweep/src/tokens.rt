ghost use Rattle.std.specs.Prelude.{◌≡◌, ℕ, IfSome, IsSome, IsSomeAnd};
ghost use Rattle.sem_msg.specs.declared.message.Message.TheVariants.{RevokeDone};
ghost use Rattle.sem_msg.specs.JobRows.{job_of, count_lowered};
ghost use Rattle.sem_msg.specs.Setup.{Setup as SetupOf};
ghost use Rattle.sem_machine.specs.Sides.{Side};
ghost use Rattle.sem_machine.specs.Stores.{with_jobs};
ghost use Rattle.sem_machine.specs.Revokes.{finished};
ghost use Rattle.sem_machine.specs.Handles.{handle_row};

use sem_jobs::Jobs;

/// A token came back to the job, if it is there. Returns its id if it is to finish now.
pub fn revoke_done(job: u32, jobs: &mut Jobs) -> Option<u32>
    ensures row { (T : SetupOf) (i from : ℕ) (s : Side) →
        finished T i result (with_jobs jobs.new.jobs jobs.new.next s)
        ≡ handle_row T i (with_jobs jobs.old.jobs jobs.old.next s) from (RevokeDone job) }
    ensures lowered { jobs.new ≡ record jobs.old { jobs = count_lowered job jobs.old.jobs } }
    ensures answer { IfSome result (λ j. j ≡ job) }
    ensures done { IsSome result → IsSomeAnd (job_of jobs.new.jobs job) (λ x. x.count ≡ 0) }
    ensures there { IfSome result (λ j. IsSome (job_of jobs.new.jobs j)) }
{
    jobs.token_back(job)
}
