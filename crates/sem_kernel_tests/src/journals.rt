ghost use Rattle.std.specs.Prelude.{IfOk};
ghost use Rattle.sem_machine.specs.Schedules.{IsSchedule};

use crate::setups::{CHILD, DERIVE, ONE_VPE, ROOT, setup_of};
use sem_audit::{answered, audit, audit_of, held_list, stray, stray_of};
use sem_check::{CheckError, check, replay};
use sem_grants::{cut_keys, made_keys};
use sem_kernel::{World, boot_kernels, is_enabled};
use sem_key::Key;
use sem_msg::{Act, Audit, Call, Detail, Entry, Event, Held, Journal, Reply, Setup};
use std::alloc::Global;
use std::test::Fail;

const CALL: Event = Event {
    kernel: 0,
    act: Act::Call { vpe: 0 },
};

const RESUME: Event = Event {
    kernel: 0,
    act: Act::Resume { vpe: 0 },
};

// The entry of the derive.
const DERIVED: Entry = Entry {
    event: CALL,
    detail: Detail::Called {
        index: 0,
        call: DERIVE,
    },
    grant: Some((ROOT, CHILD)),
    cut: None,
    reply: Some(Reply { vpe: 0, code: 0 }),
};

// The entry of the revoke.
const REVOKED: Entry = Entry {
    event: CALL,
    detail: Detail::Called {
        index: 1,
        call: Call::Revoke { src: 0 },
    },
    grant: None,
    cut: Some(ROOT),
    reply: None,
};

// The entry in which the revoke ends.
const RESUMED: Entry = Entry {
    event: RESUME,
    detail: Detail::Nothing,
    grant: None,
    cut: None,
    reply: Some(Reply { vpe: 0, code: 0 }),
};

// The journal of these events.
fn played(alloc: Global, setup: &Setup, events: &[Event]) -> Result<Journal, Fail>
    ensures { IfOk result (λ journal. IsSchedule setup.now journal.entries) }
{
    let mut world = World::boot(alloc, setup)?;
    let mut journal = Journal::new(alloc);
    for event in events {
        let Ok(entry) = world.step(*event) else {
            return Err(Fail::from("no step"));
        };
        journal.room(1)?;
        journal.push(entry);
    }
    Ok(journal)
}

// What is wrong with a journal of these entries.
fn fault(alloc: Global, entries: &[Entry]) -> Result<Option<CheckError>, Fail> {
    let setup = setup_of(alloc, ONE_VPE)?;
    let mut journal = Journal::new(alloc);
    for entry in entries {
        journal.room(1)?;
        journal.push(*entry);
    }
    match check(alloc, &setup, &journal) {
        Ok(_) => Ok(None),
        Err(error) => Ok(Some(error)),
    }
}

// Whether the event is enabled after a replay of a journal of these entries.
fn goes_on(alloc: Global, entries: &[Entry], event: Event) -> Result<bool, Fail> {
    let setup = setup_of(alloc, ONE_VPE)?;
    let mut journal = Journal::new(alloc);
    for entry in entries {
        journal.room(1)?;
        journal.push(*entry);
    }
    match replay(alloc, &setup, &journal) {
        Ok((kernels, fabric)) => Ok(is_enabled(&setup, kernels.as_slice(), &fabric, event)),
        Err(_) => Err(Fail::new("out of memory")),
    }
}

#[test]
fn a_check_tells_where_a_journal_ends_too_early_or_differs(rt: HostRuntime) -> Result<(), Fail> {
    let entries = [DERIVED, REVOKED, RESUMED, RESUMED];
    let none = fault(rt.alloc(), &entries[..3])?;
    assert!(rt; none.is_none());
    let incomplete = CheckError::Incomplete {
        entry: 2,
        next: RESUMED,
    };
    let early = fault(rt.alloc(), &entries[..2])?;
    assert!(rt; early == Some(incomplete));
    let differs = CheckError::Differs {
        entry: 3,
        entered: RESUMED,
        replayed: None,
    };
    let late = fault(rt.alloc(), &entries)?;
    assert!(rt; late == Some(differs));
    Ok(())
}

#[test]
fn a_replay_stops_before_what_differs(rt: HostRuntime) -> Result<(), Fail> {
    let can_go_on = goes_on(rt.alloc(), &[DERIVED, REVOKED], RESUME)?;
    assert!(rt; can_go_on);
    let can_go_on = goes_on(rt.alloc(), &[DERIVED, RESUMED, REVOKED], CALL)?;
    assert!(rt; can_go_on);
    Ok(())
}

// The keys that are made in a journal of these events.
fn made(alloc: Global, events: &[Event]) -> Result<Vec<Key>, Fail> {
    let setup = setup_of(alloc, ONE_VPE)?;
    let journal = played(alloc, &setup, events)?;
    Ok(made_keys(alloc, &setup, &journal)?)
}

// How many keys are cut in a journal of these events, and whether this one is among them.
fn cut(alloc: Global, events: &[Event], key: Key) -> Result<(usize, bool), Fail> {
    let setup = setup_of(alloc, ONE_VPE)?;
    let journal = played(alloc, &setup, events)?;
    let keys = cut_keys(alloc, &setup, &journal)?;
    Ok((keys.len(), keys.has(key)))
}

// The audit after these events.
fn audited(alloc: Global, events: &[Event]) -> Result<Audit, Fail> {
    let setup = setup_of(alloc, ONE_VPE)?;
    let journal = played(alloc, &setup, events)?;
    Ok(audit(alloc, &setup, &journal)?)
}

// How many calls are answered after these events, and how many keys are stray.
fn answered_and_stray(alloc: Global, events: &[Event]) -> Result<(u64, u64), Fail> {
    let setup = setup_of(alloc, ONE_VPE)?;
    let journal = played(alloc, &setup, events)?;
    Ok((answered(&journal), stray(alloc, &setup, &journal)?))
}

// How many keys are stray, if the kernels are still as at the start after these events.
fn stray_at_start(alloc: Global, events: &[Event]) -> Result<u64, Fail> {
    let setup = setup_of(alloc, ONE_VPE)?;
    let journal = played(alloc, &setup, events)?;
    let start = boot_kernels(alloc, &setup)?;
    Ok(stray_of(alloc, &setup, &journal, &start)?)
}

// How many keys the kernels hold at the start, and by the audit after these events.
fn held_at_start(alloc: Global, events: &[Event]) -> Result<(usize, usize), Fail> {
    let setup = setup_of(alloc, ONE_VPE)?;
    let journal = played(alloc, &setup, events)?;
    let start = boot_kernels(alloc, &setup)?;
    let told = audit_of(alloc, &setup, &journal, &start)?;
    Ok((held_list(alloc, &start)?.len(), told.held.len()))
}

#[test]
fn a_journal_makes_roots_and_children_and_cuts_what_is_revoked(
    rt: HostRuntime,
) -> Result<(), Fail> {
    let events = [CALL, CALL, RESUME];
    let made = made(rt.alloc(), &events)?;
    assert!(rt; made.as_slice() == [ROOT, CHILD].as_slice());
    let cut = cut(rt.alloc(), &events, ROOT)?;
    assert!(rt; cut == (1, true));
    Ok(())
}

#[test]
fn what_is_held_after_a_journal_is_told(rt: HostRuntime) -> Result<(), Fail> {
    let told = audited(rt.alloc(), &[CALL])?;
    let held = [Held { key: ROOT, sel: 0 }, Held { key: CHILD, sel: 1 }];
    assert!(rt; (told.made, told.cut) == (2, 0));
    assert!(rt; told.held.as_slice() == held.as_slice());
    let counts = answered_and_stray(rt.alloc(), &[CALL])?;
    assert!(rt; counts == (1, 0));
    Ok(())
}

#[test]
fn what_was_granted_and_is_not_held_is_stray(rt: HostRuntime) -> Result<(), Fail> {
    let stray = stray_at_start(rt.alloc(), &[CALL])?;
    assert!(rt; stray == 1);
    let held = held_at_start(rt.alloc(), &[CALL])?;
    assert!(rt; held == (1, 1));
    Ok(())
}
