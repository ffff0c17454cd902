// The held marked keys and the jobs that have marked them, kept from entry to entry. A token that
// comes back to a job can move only these.
ghost use Rattle.std.specs.Prelude.{◌≡◌, ◌++◌, List, map, filter, not, Contains, Some, IsTrue};
ghost use Rattle.std.specs.Prelude.{IfSome, IfNone, OnOk};
ghost use Rattle.sem_key.specs.KeyName.{KeyName};
ghost use Rattle.sem_msg.specs.Lookups.{owner_of};
ghost use Rattle.sem_machine.specs.Machine.{side};
ghost use Rattle.sem_query.specs.MarkedKeys.{mark_at, has_mark_of as is_marked_by_spec, AreAllMarked};
ghost use Rattle.sem_query.specs.MarkedKeys.{marking, above_in, IsSeen, IsBounded};
ghost use Rattle.sem_query.specs.MarkedKeys.{is_swept as is_swept_spec, AreParted};

use crate::entries::returned;
use crate::sights::kernel_at;
use sem_kernel::World;
use sem_key::{Key, OutOfMemory};
use sem_msg::{Entry, Setup};
use std::alloc::Global;

/// A token that comes back to a job, as seen before the entry that handles it.
#[derive(Clone, Copy, Debug)]
pub struct Token {
    pub job: u32,
    /// A key that the job has marked.
    pub key: Key,
    /// The parent of that key and the job that has marked it, if the same kernel holds it marked.
    pub above: Option<(Key, u32)>,
}

/// Appends the key with its job, if its owner holds it marked.
pub fn push_marked(
    marked: &mut Vec<(Key, u32)>,
    setup: &Setup,
    world: &World,
    key: Key,
) -> Result<(), OutOfMemory>
    ensures { OnOk result (marked.new.items
        ≡ marked.old.items ++ marking setup.now world.now.world key) }
{
    if let Some(job) = mark_of(setup, world, key) {
        marked.push((key, job))?;
    }
    Ok(())
}

// The job that has marked the key, if its owner holds it marked.
fn mark_of(setup: &Setup, world: &World, key: Key) -> Option<u32>
    ensures { result ≡ mark_at setup.now world.now.world key }
{
    let kernel = kernel_at(world, setup.owner_of(key))?;
    match kernel.held(key) {
        Some(cap) => cap.mark,
        None => None,
    }
}

// Whether its owner holds the key, and the job has marked it.
fn is_marked_by(setup: &Setup, world: &World, key: Key, job: u32) -> bool
    ensures { result ≡ is_marked_by_spec setup.now world.now.world key job }
{
    match mark_of(setup, world, key) {
        Some(by) => by == job,
        None => false,
    }
}

/// The token that the entry handles, if one comes back to a job that marks a key. The world must be
/// the one before the entry.
pub fn token_of(marked: &[(Key, u32)], setup: &Setup, world: &World, entry: &Entry) -> Option<Token>
    requires { AreAllMarked setup.now world.now.world marked.now }
    ensures { IsSeen setup.now world.now.world entry.now result }
{
    let Some(job) = returned(entry) else {
        return None;
    };
    match first_marked(marked, setup, entry.event.kernel, job) {
        Some(key) => Some(Token {
            job,
            key,
            above: above(setup, world, key),
        }),
        None => None,
    }
}

// The first of the keys of the kernel of that number that the job has marked.
fn first_marked(marked: &[(Key, u32)], setup: &Setup, number: u32, job: u32) -> Option<Key>
    ensures found { IfSome result
        (λ k. Contains marked.now (k, job) × (owner_of setup.now k ≡ number)) }
    ensures none { IfNone result ((k : KeyName) → owner_of setup.now k ≡ number
        → Contains marked.now (k, job) → ⊥) }
{
    for marking in marked {
        if marking.1 == job && setup.owner_of(marking.0) == number {
            return Some(marking.0);
        }
    }
    None
}

// The parent of the key with the job that has marked it, if the key's owner holds it marked.
fn above(setup: &Setup, world: &World, key: Key) -> Option<(Key, u32)>
    ensures { result ≡ above_in (side world.now.world (owner_of setup.now key)) key }
{
    let kernel = kernel_at(world, setup.owner_of(key))?;
    let parent = kernel.held(key)?.parent?;
    let job = kernel.held(parent)?.mark?;
    Some((parent, job))
}

/// If a token came back, appends the marked keys that it may have taken away to `moved`. The others
/// stay marked. The world must be the one after the entry.
pub fn push_swept(
    alloc: Global,
    marked: &mut Vec<(Key, u32)>,
    setup: &Setup,
    world: &World,
    entry: &Entry,
    token: Option<Token>,
    moved: &mut Vec<Key>,
) -> Result<(), OutOfMemory>
    ensures { OnOk result ((gone : List KeyName) × (moved.new.items ≡ moved.old.items ++ gone)
        × AreParted setup.now world.now.world entry.now token
        marked.old.items marked.new.items gone) }
{
    let Some(token) = token else {
        return Ok(());
    };
    if is_marked_by(setup, world, token.key, token.job) {
        return Ok(());
    }
    let only = if is_bounded(setup, world, &token) {
        Some(token.job)
    } else {
        None
    };
    part(alloc, marked, setup, world, entry.event.kernel, only, moved)?;
    Ok(())
}

// Whether the job that marked the parent still marks it. Then only the token's job finishes.
fn is_bounded(setup: &Setup, world: &World, token: &Token) -> bool
    ensures { IsTrue result → IsBounded setup.now world.now.world token.now }
{
    match token.above {
        Some((parent, job)) => is_marked_by(setup, world, parent, job),
        None => true,
    }
}

// Appends the swept keys of the kernel of that number to `moved`: those of one job, if one is
// given, otherwise those whose mark changed. The others stay.
fn part(
    alloc: Global,
    marked: &mut Vec<(Key, u32)>,
    setup: &Setup,
    world: &World,
    number: u32,
    only: Option<u32>,
    moved: &mut Vec<Key>,
) -> Result<(), OutOfMemory>
    ensures kept { OnOk result (marked.new.items ≡ filter
        (λ p. not (is_swept_spec setup.now world.now.world number only p)) marked.old.items) }
    ensures gone { OnOk result (moved.new.items ≡ moved.old.items ++ map (λ p. p.0)
        (filter (is_swept_spec setup.now world.now.world number only) marked.old.items)) }
{
    let mut kept = Vec::new(alloc);
    for marking in marked.as_slice() {
        if is_swept(setup, world, number, only, *marking) {
            moved.push(marking.0)?;
        } else {
            kept.push(*marking)?;
        }
    }
    *marked = kept;
    Ok(())
}

// Whether the key belongs to the kernel of that number and is swept.
fn is_swept(
    setup: &Setup,
    world: &World,
    number: u32,
    only: Option<u32>,
    marking: (Key, u32),
) -> bool
    ensures { result ≡ is_swept_spec setup.now world.now.world number only marking }
{
    let (key, job) = marking;
    if setup.owner_of(key) != number {
        return false;
    }
    match only {
        Some(by) => job == by,
        None => !is_marked_by(setup, world, key, job),
    }
}
