// What a job has marked is taken out of a store.
ghost use Rattle.std.specs.Prelude.{IfSome};
ghost use Rattle.sem_caps.specs.Stored.{capabilities_in, rows_of, IsOnlyMarked, IsTallied};
ghost use Rattle.sem_caps.specs.Taking.{CanTakeOut, HasTakenOut};

use crate::marks::count_of;
use crate::rows::{child_count, take_marked};
use crate::spot::Spot;
use sem_key::{Cap, Key};
use slab::Slab;

// Takes what the job has marked out of the slab, closes the list over it, and appends the key and
// the selector of each to `gone`. Of that many links to children, gives how many are left. Where
// the job has marked nothing, or only what stands at the given place, it does not look at the rest.
pub fn take_out(
    slab: &mut Slab<Cap>,
    spots: &mut Vec<Spot>,
    marks: &Vec<usize>,
    links: usize,
    alone: Option<usize>,
    job: u32,
    gone: &mut Vec<(Key, u8)>,
) -> usize
    requires can { CanTakeOut job slab.old spots.old gone.old links }
    requires tallied { IsTallied (rows_of slab.old spots.old.items) marks.now.items }
    requires alone { IfSome alone
        (IsOnlyMarked job (capabilities_in (rows_of slab.old spots.old.items))) }
    ensures { HasTakenOut job slab.old slab.new spots.old spots.new gone.old gone.new result }
{
    if count_of(job, marks) == 0 {
        return links;
    }
    match alone {
        Some(at) => take_alone(slab, spots, links, at, job, gone),
        None => take_marked(slab, spots, links, job, gone),
    }
}

// Takes what stands at that place, all that the job has marked, out of the slab and the list, and
// appends its key and selector to `gone`. Of that many links to children, gives how many are left.
fn take_alone(
    slab: &mut Slab<Cap>,
    spots: &mut Vec<Spot>,
    links: usize,
    at: usize,
    job: u32,
    gone: &mut Vec<(Key, u8)>,
) -> usize
    requires can { CanTakeOut job slab.old spots.old gone.old links }
    requires alone { IsOnlyMarked job (capabilities_in (rows_of slab.old spots.old.items)) at }
    ensures { HasTakenOut job slab.old slab.new spots.old spots.new gone.old gone.new result }
{
    let spot = spots.remove(at);
    let cap = slab.remove(spot.place());
    gone.push_reserved((cap.key, cap.selector));
    links - child_count(&cap)
}
