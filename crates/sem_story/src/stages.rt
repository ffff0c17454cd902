// The stages of a key.
ghost use Rattle.std.specs.Prelude.{◌≡◌, false, option_copied};
ghost use Rattle.std.specs.Option.{option_map_or};
ghost use Rattle.sem_key.specs.KeyName.{key_eq};
ghost use Rattle.sem_msg.specs.Lookups.{owner_of};
ghost use Rattle.sem_msg.specs.ParkedStates.{is_ready_with as is_ready_with_spec};
ghost use Rattle.sem_machine.specs.Sides.{no_side};
ghost use Rattle.sem_machine.specs.Machine.{side};
ghost use Rattle.sem_machine.specs.Journals.{ends};
ghost use Rattle.sem_query.specs.Whereabouts.{brings as brings_spec};
ghost use Rattle.sem_query.specs.Changes.{may_revoke as is_revoking_spec, grants_key};
ghost use Rattle.sem_story.specs.Stages.{seen_by};
ghost use Rattle.sem_story.specs.Changes.{is_brought_by as is_brought_by_spec};
ghost use Rattle.sem_story.specs.Changes.{asks_for as asks_for_spec};
ghost use Rattle.sem_story.specs.Changes.{is_asked_by as is_asked_by_spec};
ghost use Rattle.sem_story.specs.Changes.{begins_at as begins_at_spec, resumes as resumes_spec};
ghost use Rattle.sem_story.specs.Changes.{leaves_by as leaves_by_spec};
ghost use Rattle.sem_story.specs.Changes.{stage_after as stage_after_spec};

use sem_draw::State;
use sem_kernel::{Kernel, World};
use sem_key::{Key, Object, same_key};
use sem_msg::{Act, Call, Detail, Entry, Message, Parked, Setup};

/// The stage of a key.
#[derive(Clone, Copy, Debug, PartialEq, Eq)]
pub enum Stage {
    /// It is nowhere: not yet made, no longer held, or never to be.
    Nowhere,
    /// It was granted to a VPE of another kernel, and has not arrived there.
    OnItsWay,
    /// It has arrived there, and is not yet installed.
    Arrived,
    /// It is held at this selector, and marked by this job, if by any.
    Held { selector: u8, mark: Option<u32> },
}

impl Stage {
    /// The state in which it is drawn.
    pub fn state(self) -> State {
        match self {
            Stage::Nowhere => State::Gone,
            Stage::OnItsWay | Stage::Arrived => State::OnItsWay,
            Stage::Held { mark: Some(_), .. } => State::Marked,
            Stage::Held { mark: None, .. } => State::Held,
        }
    }
}

/// What the kernel of its VPE tells of a key: that it is held, or ready to be installed; nowhere if
/// it tells neither.
pub fn seen_at_home(setup: &Setup, world: &World, key: Key) -> Stage
    ensures { result ≡ seen_by key (side world.now.world (owner_of setup.now key)) }
{
    let Some(kernel) = kernel_at(world, setup.owner_of(key)) else {
        return Stage::Nowhere;
    };
    match kernel.held(key) {
        Some(cap) => Stage::Held {
            selector: cap.selector,
            mark: cap.mark,
        },
        None if is_ready_with(key, &kernel.parked(key.vpe)) => Stage::Arrived,
        None => Stage::Nowhere,
    }
}

// The kernel of that number; none if there is no such kernel.
fn kernel_at(world: &World, number: u32) -> Option<&Kernel>
    ensures { option_map_or (λ k. k.side) (option_copied result) no_side
        ≡ side world.now.world number }
{
    world.kernels().get(number as usize)
}

// Whether a call in that state is ready to install the key.
fn is_ready_with(key: Key, state: &Option<Parked>) -> bool
    ensures { result ≡ is_ready_with_spec key state.now }
{
    match state {
        Some(Parked::ObtainReady { key: ready, .. }) => same_key(ready, &key),
        _ => false,
    }
}

/// What the key gives its holder, if that kernel holds it.
pub fn object_of(world: &World, kernel: u32, key: Key) -> Option<Object> {
    let cap = world.kernels().get(kernel as usize)?.held(key)?;
    Some(cap.object)
}

/// What a child that the kernel has just granted gives its holder. The kernel holds the child, or
/// what it was made from.
pub fn object_given(world: &World, kernel: u32, parent: Key, child: Key) -> Option<Object> {
    if let Some(object) = object_of(world, kernel, child) {
        return Some(object);
    }
    if parent.kind == child.kind {
        return object_of(world, kernel, parent);
    }
    Some(Object::Sess {
        service: parent,
        ident: child.vpe,
    })
}

/// The stage of the key after the entry. `before` is its stage before it, and `seen` is what its
/// kernel tells after it.
pub fn stage_after(setup: &Setup, key: Key, entry: &Entry, before: Stage, seen: Stage) -> Stage
    ensures { result ≡ stage_after_spec setup.now key entry.now before seen }
{
    if seen != Stage::Nowhere {
        return seen;
    }
    if grants(entry, key) {
        return Stage::OnItsWay;
    }
    match before {
        Stage::OnItsWay if !is_brought_by(entry, key) => Stage::OnItsWay,
        Stage::Arrived if !is_brought_by(entry, key) && !leaves_by(setup, entry, key) => {
            Stage::OnItsWay
        }
        _ => Stage::Nowhere,
    }
}

fn grants(entry: &Entry, key: Key) -> bool
    ensures { result ≡ grants_key key entry.now }
{
    match entry.grant {
        Some((_, child)) => same_key(&child, &key),
        None => false,
    }
}

// Whether the entry handles the message that brings the key.
fn is_brought_by(entry: &Entry, key: Key) -> bool
    ensures { result ≡ is_brought_by_spec key entry.now.event.act entry.now.detail }
{
    match (entry.event.act, entry.detail) {
        (Act::Handle, Detail::Carried { message, .. }) => brings(&message, key),
        _ => false,
    }
}

fn brings(message: &Message, key: Key) -> bool
    ensures { result ≡ brings_spec key message.now }
{
    match message {
        Message::ObtainOk { key: brought, .. } => same_key(brought, &key),
        Message::Ack { key: brought, yes } => *yes && same_key(brought, &key),
        _ => false,
    }
}

// Whether the entry lets a call that is ready to install the key do so, or cancels it, or ends it.
fn leaves_by(setup: &Setup, entry: &Entry, key: Key) -> bool
    ensures { result ≡ leaves_by_spec setup.now key entry.now }
{
    setup.owner_of(key) == entry.event.kernel
        && (resumes(entry, key.vpe) || is_revoking(entry) && begins_at(entry, key))
}

// Whether the entry lets a call of the VPE go on.
fn resumes(entry: &Entry, vpe: u16) -> bool
    ensures { result ≡ resumes_spec vpe entry.now.event.act }
{
    match entry.event.act {
        Act::Resume { vpe: resumed } => resumed == vpe,
        _ => false,
    }
}

// Whether the entry may mark keys, or take them away.
fn is_revoking(entry: &Entry) -> bool
    ensures { result ≡ is_revoking_spec entry.now }
{
    match (entry.event.act, entry.detail) {
        (Act::Call { .. }, Detail::Called { call, .. }) => match call {
            Call::Revoke { .. } | Call::Clear { .. } | Call::Exit => true,
            _ => false,
        },
        (Act::Handle, Detail::Carried { message, .. }) => match message {
            Message::RevokeReq { .. } | Message::RevokeDone { .. } => true,
            _ => false,
        },
        (Act::Kill { .. }, _) => true,
        _ => false,
    }
}

// Whether the entry begins to revoke at the key.
fn begins_at(entry: &Entry, key: Key) -> bool
    ensures { result ≡ begins_at_spec key entry.now }
{
    is_cut_at(entry, key) || is_asked_by(entry, key) || ends_vpe(entry, key.vpe)
}

// Whether the entry begins a revoke or a clear of the key.
fn is_cut_at(entry: &Entry, key: Key) -> bool
    ensures { result ≡ option_map_or (λ root. key_eq root key) entry.now.cut false }
{
    match entry.cut {
        Some(root) => same_key(&root, &key),
        None => false,
    }
}

// Whether the entry handles a message that asks to revoke the key.
fn is_asked_by(entry: &Entry, key: Key) -> bool
    ensures { result ≡ is_asked_by_spec key entry.now.event.act entry.now.detail }
{
    match (entry.event.act, entry.detail) {
        (Act::Handle, Detail::Carried { message, .. }) => asks_for(&message, key),
        _ => false,
    }
}

// Whether the message asks to revoke the key.
fn asks_for(message: &Message, key: Key) -> bool
    ensures { result ≡ asks_for_spec key message.now }
{
    match message {
        Message::RevokeReq { key: asked, .. } => same_key(asked, &key),
        _ => false,
    }
}

// Whether the VPE ends by the entry: it is killed, or calls `exit`.
fn ends_vpe(entry: &Entry, vpe: u16) -> bool
    ensures { result ≡ ends vpe entry.now.event.act entry.now.detail }
{
    match (entry.event.act, entry.detail) {
        (Act::Kill { vpe: ended }, _) => ended == vpe,
        (
            Act::Call { vpe: ended },
            Detail::Called {
                call: Call::Exit,
                ..
            },
        ) => ended == vpe,
        _ => false,
    }
}
