// The machine led through entries, with what happens to one key.
ghost use Rattle.std.specs.Prelude.{◌≡◌, ◌<◌, [], ◌∷◌, ◌++◌, true, List, length, IfOk, OnOk};
ghost use Rattle.sem_msg.specs.declared.limits.TheConstants.{ENDPOINTS};
ghost use Rattle.sem_msg.specs.declared.entry.Entry.{Entry as EntryValue};
ghost use Rattle.sem_machine.specs.Machine.{is_enabled};
ghost use Rattle.sem_machine.specs.Schedules.{IsSchedule, world_after};
ghost use Rattle.sem_story.specs.Stages.{stage_in};
ghost use Rattle.sem_story.specs.Telling.{TellStages, last_stage};
ghost use Rattle.sem_story.specs.Walks.{AreFirst, IsAfter, IsOneOf, Notes};

use crate::rows::{Happening, StoryRow};
use crate::stages::{Stage, object_given, object_of, seen_at_home, stage_after};
use sem_kernel::World;
use sem_key::{Key, Object, OutOfMemory, same_key};
use sem_msg::{Act, ENDPOINTS, Entry, Setup};
use sem_query::laws::{
    entries_move_few_keys, keys_live_once, lives_go_on, lives_tell_where_keys_are,
    moved_keys_are_seen_at_home,
};
use std::alloc::Global;

/// The world after some entries, and what happened to a key by then.
#[derive(Drop)]
pub struct Walk {
    /// What happened to the key, in the order of the entries.
    pub rows: Vec<StoryRow>,
    /// What the key gives its holder, once it is made.
    pub object: Option<Object>,
    /// The stage of the key.
    pub stage: Stage,
    world: World,
    // The endpoints that are bound to the key.
    bound: Vec<u8>,
}

// When something happens: the number of the entry, and the stage of the key after it.
#[derive(Clone, Copy)]
struct When {
    number: u64,
    stage: Stage,
}

impl Walk {
    // The walk before the first entry.
    fn start(alloc: Global, setup: &Setup, key: Key) -> Result<Walk, OutOfMemory>
        ensures { IfOk result (λ w. IsAfter setup.now [] key w) }
    {
        setup.keeps_its_rules();
        lives_go_on();
        lives_tell_where_keys_are();
        let world = World::boot(alloc, setup)?;
        let stage = seen_at_home(setup, &world, key);
        Ok(Walk {
            rows: first_rows(alloc, stage)?,
            object: object_of(&world, setup.owner_of(key), key),
            stage,
            world,
            bound: Vec::new(alloc),
        })
    }

    // Goes through the entry of that number.
    fn go_on(
        &mut self,
        setup: &Setup,
        key: Key,
        number: u64,
        entry: &Entry,
    ) -> Result<(), OutOfMemory>
        requires { is_enabled self.old.world.setup self.old.world.world entry.now.event ≡ true }
        ensures { OnOk result ((J before later : List EntryValue)
            → IsSchedule setup.now J → J ≡ before ++ entry.now ∷ later → number ≡ length before
            → IsAfter setup.now before key self.old
            → IsAfter setup.now (before ++ entry.now ∷ []) key self.new) }
    {
        setup.keeps_its_rules();
        entries_move_few_keys();
        moved_keys_are_seen_at_home();
        keys_live_once();
        self.world.advance(entry.event)?;
        let before = self.stage;
        let seen = seen_at_home(setup, &self.world, key);
        self.stage = stage_after(setup, key, entry, before, seen);
        let when = When {
            number,
            stage: self.stage,
        };
        self.object = object_after(&self.world, key, entry, self.object);
        note_grant(&mut self.rows, when, key, entry)?;
        let may_bind = calls(entry, key.vpe);
        note_bindings(
            &mut self.rows,
            &mut self.bound,
            when,
            &self.world,
            key,
            may_bind,
        )?;
        note_stage(&mut self.rows, when, before)?;
        Ok(())
    }
}

/// The walk of the key through the entries, a schedule.
pub fn walk_through(
    alloc: Global,
    setup: &Setup,
    entries: &[Entry],
    key: Key,
) -> Result<Walk, OutOfMemory>
    requires { IsSchedule setup.now entries.now }
    ensures rows { IfOk result (λ w. TellStages setup.now entries.now key w.rows.items) }
    ensures stage { IfOk result
        (λ w. w.stage ≡ stage_in setup.now (world_after setup.now entries.now) key) }
{
    let mut walk = Walk::start(alloc, setup, key)?;
    for place in 0..entries.len() {
        walk.go_on(setup, key, place as u64, &entries[place])?;
    }
    Ok(walk)
}

// The rows of a key before the first entry.
fn first_rows(alloc: Global, stage: Stage) -> Result<Vec<StoryRow>, OutOfMemory>
    ensures { IfOk result (λ rows. AreFirst stage rows.items) }
{
    let mut rows = Vec::new(alloc);
    if stage == Stage::Nowhere {
        return Ok(rows);
    }
    rows.push(StoryRow {
        entry: None,
        happening: declared(stage),
        stage,
    })?;
    Ok(rows)
}

// What happened to a key that has a place before the first entry.
fn declared(stage: Stage) -> Happening {
    match stage {
        Stage::Held { selector, .. } => Happening::Declared { selector },
        _ => changed(Stage::Nowhere, stage),
    }
}

// What the key gives its holder, once it is made; `before` is what was known before the entry.
fn object_after(world: &World, key: Key, entry: &Entry, before: Option<Object>) -> Option<Object> {
    match entry.grant {
        Some((parent, child)) if same_key(&child, &key) => {
            object_given(world, entry.event.kernel, parent, child)
        }
        _ => before,
    }
}

// Notes what happened.
fn note(rows: &mut Vec<StoryRow>, when: When, happening: Happening) -> Result<(), OutOfMemory>
    ensures notes { OnOk result (Notes when rows.old.items rows.new.items) }
    ensures last { OnOk result (last_stage rows.new.items ≡ when.stage) }
{
    rows.push(StoryRow {
        entry: Some(when.number),
        happening,
        stage: when.stage,
    })?;
    Ok(())
}

// Notes that the entry makes the key, or another key from it.
fn note_grant(
    rows: &mut Vec<StoryRow>,
    when: When,
    key: Key,
    entry: &Entry,
) -> Result<(), OutOfMemory>
    ensures notes { OnOk result (Notes when rows.old.items rows.new.items) }
    ensures last { OnOk result
        (IsOneOf (last_stage rows.new.items) (last_stage rows.old.items) when.stage) }
{
    match entry.grant {
        Some((_, child)) if same_key(&child, &key) => note(rows, when, Happening::Granted),
        Some((parent, child)) if same_key(&parent, &key) => {
            note(rows, when, Happening::Child { key: child })
        }
        _ => Ok(()),
    }
}

// Notes the stage of the key, if it changed.
fn note_stage(rows: &mut Vec<StoryRow>, when: When, before: Stage) -> Result<(), OutOfMemory>
    ensures notes { OnOk result (Notes when rows.old.items rows.new.items) }
    ensures last { OnOk result (IsOneOf (last_stage rows.old.items) before when.stage
        → last_stage rows.new.items ≡ when.stage) }
{
    if before == when.stage {
        return Ok(());
    }
    note(rows, when, changed(before, when.stage))
}

// What happens to a key whose stage changes.
fn changed(before: Stage, later: Stage) -> Happening {
    match (before, later) {
        (_, Stage::Nowhere) => Happening::Gone,
        (_, Stage::OnItsWay) => Happening::Sent,
        (_, Stage::Arrived) => Happening::Arrived,
        (Stage::Held { .. }, Stage::Held { mark: None, .. }) => Happening::Unmarked,
        (
            Stage::Held { .. },
            Stage::Held {
                mark: Some(job),
                ..
            },
        ) => Happening::Marked { job },
        (_, Stage::Held { selector, .. }) => Happening::Held { selector },
    }
}

// Notes which endpoints are no longer bound to the key, and, if the VPE calls, which are now.
fn note_bindings(
    rows: &mut Vec<StoryRow>,
    bound: &mut Vec<u8>,
    when: When,
    world: &World,
    key: Key,
    may_bind: bool,
) -> Result<(), OutOfMemory>
    ensures notes { OnOk result (Notes when rows.old.items rows.new.items) }
    ensures last { OnOk result
        (IsOneOf (last_stage rows.new.items) (last_stage rows.old.items) when.stage) }
{
    for endpoint in 0..ENDPOINTS as u8 {
        let was_bound = bound.contains(&endpoint);
        if (was_bound || may_bind) && is_bound(world, key, endpoint) != was_bound {
            note_binding(rows, bound, when, endpoint, was_bound)?;
        }
    }
    Ok(())
}

// Whether the entry is a call of the VPE.
fn calls(entry: &Entry, caller: u16) -> bool {
    match entry.event.act {
        Act::Call { vpe } => vpe == caller,
        _ => false,
    }
}

// Whether the endpoint of the VPE of the key is bound to the key.
fn is_bound(world: &World, key: Key, endpoint: u8) -> bool
    requires { endpoint < ENDPOINTS }
{
    match world.binding(key.vpe, endpoint) {
        Some((bound, _)) => same_key(&bound, &key),
        None => false,
    }
}

// Notes that the endpoint was unbound, or otherwise that it was bound.
fn note_binding(
    rows: &mut Vec<StoryRow>,
    bound: &mut Vec<u8>,
    when: When,
    endpoint: u8,
    was_bound: bool,
) -> Result<(), OutOfMemory>
    ensures notes { OnOk result (Notes when rows.old.items rows.new.items) }
    ensures last { OnOk result
        (IsOneOf (last_stage rows.new.items) (last_stage rows.old.items) when.stage) }
{
    if was_bound {
        bound.retain(|one| *one != endpoint);
        note(rows, when, Happening::Unbound { endpoint })
    } else {
        bound.push(endpoint)?;
        note(rows, when, Happening::Bound { endpoint })
    }
}
