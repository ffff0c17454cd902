// How many capabilities the jobs have marked, in groups of jobs. The ids of a group have the same
// rest, so jobs that are opened one after the other are of different groups.
ghost use Rattle.std.specs.Prelude.{◌≡◌, ◌^◌, ◌+◌, ◌-◌, ◌<◌, ◌≤◌, vec_len, IfOk, IfSome};
ghost use Rattle.std.specs.Prelude.{get_or, set, replicate};
ghost use Rattle.sem_caps.specs.Stored.{group_of as group_of_spec, mark_groups, with_mark_counted};
ghost use Rattle.sem_caps.specs.Stored.{without_mark};

use sem_key::OutOfMemory;
use std::alloc::Global;

// How many groups there are.
const GROUPS: usize = 256;

// The group of the job.
fn group_of(job: u32) -> usize
    ensures group { result ≡ group_of_spec job }
    ensures few { result < mark_groups }
{
    job as usize % GROUPS
}

// No marks.
pub fn no_marks(alloc: Global) -> Result<Vec<usize>, OutOfMemory>
    ensures { IfOk result (λ marks. marks.items ≡ replicate mark_groups 0) }
{
    Ok(vec![in alloc; 0; GROUPS]?)
}

// How many capabilities the group of the job has marked.
pub fn count_of(job: u32, marks: &Vec<usize>) -> usize
    requires { vec_len marks.now ≡ mark_groups }
    ensures { result ≡ get_or marks.now.items (group_of_spec job) 0 }
{
    marks[group_of(job)]
}

// The job marks one more.
pub fn add_mark(job: u32, marks: &mut Vec<usize>)
    requires groups { vec_len marks.old ≡ mark_groups }
    requires few { get_or marks.old.items (group_of_spec job) 0 < 2 ^ 64 - 1 }
    ensures { marks.new.items ≡ with_mark_counted job marks.old.items }
{
    marks[group_of(job)] += 1;
}

// So many that the job has marked are marked no more.
pub fn drop_marks(job: u32, count: usize, marks: &mut Vec<usize>)
    requires groups { vec_len marks.old ≡ mark_groups }
    requires most { count ≤ get_or marks.old.items (group_of_spec job) 0 }
    ensures { marks.new.items ≡ set marks.old.items (group_of_spec job)
        (get_or marks.old.items (group_of_spec job) 0 - count) }
{
    marks[group_of(job)] -= count;
}

// The mark, if it is one, is taken away.
pub fn drop_mark(mark: Option<u32>, marks: &mut Vec<usize>)
    requires groups { vec_len marks.old ≡ mark_groups }
    requires some { IfSome mark (λ job. 1 ≤ get_or marks.old.items (group_of_spec job) 0) }
    ensures { marks.new.items ≡ without_mark mark marks.old.items }
{
    if let Some(job) = mark {
        drop_marks(job, 1, marks);
    }
}
