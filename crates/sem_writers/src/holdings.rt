// What memory holds after a journal, and what its accesses found.
ghost use Rattle.std.specs.Prelude.{◌≡◌, ◌+◌, ◌≤◌, ◌++◌, ◌∷◌, [], ℕ, Some, All, length, map};
ghost use Rattle.std.specs.Prelude.{if◌then◌else◌, IfOk, OnOk};
ghost use Rattle.sem_key.specs.declared.limits.TheConstants.{ADDRESSES};
ghost use Rattle.sem_machine.specs.Schedules.{IsSchedule};
ghost use Rattle.sem_access.specs.Accesses.{accesses as accesses_spec};
ghost use Rattle.sem_access.specs.LastWrites.{is_write_at, greatest_entry, last_write, looked};
ghost use Rattle.sem_access.specs.Runs.{all_runs, entry_at, IsNewer};
ghost use Rattle.sem_access.specs.ContentsText.{found_by};
ghost use Rattle.sem_mem.specs.Reading.{AreInOrder};
ghost use Rattle.sem_writers.specs.Written.{IsWriter};

use crate::rows::{Written, written_rows};
use sem_key::OutOfMemory;
use sem_mem::{Access, AccessList, Look, Memory, accesses};
use sem_msg::{Journal, Setup};
use std::alloc::Global;

/// What memory holds: the runs with their writers, the accesses, and for each access what it found
/// before it.
#[derive(Debug, Drop)]
pub struct Holdings {
    pub memory: Memory,
    pub rows: Vec<Written>,
    pub accesses: AccessList,
    pub looks: Vec<Look>,
}

/// What memory holds after a journal that the machine can make.
pub fn holdings_after(
    alloc: Global,
    setup: &Setup,
    journal: &Journal,
) -> Result<Holdings, OutOfMemory>
    requires { IsSchedule setup.now journal.now.entries }
    ensures runs { IfOk result (λ h. map (λ r. r.run) h.rows.items
        ≡ all_runs (last_write setup.now journal.now.entries (length journal.now.entries))) }
    ensures memory { IfOk result (λ h. (a : ℕ) → entry_at h.memory a
        ≡ last_write setup.now journal.now.entries (length journal.now.entries) a) }
    ensures accesses { IfOk result (λ h.
        h.accesses ≡ accesses_spec setup.now journal.now.entries) }
    ensures writers { IfOk result (λ h. All (IsWriter h.accesses) h.rows.items) }
    ensures looks { IfOk result (λ h. h.looks.items ≡ map (found_by h.accesses) h.accesses) }
{
    setup.keeps_its_rules();
    let list = accesses(alloc, setup, journal)?;
    let (memory, looks) = followed(alloc, list.as_slice())?;
    let runs = memory.runs(alloc)?;
    let rows = written_rows(alloc, &runs, list.as_slice())?;
    Ok(Holdings {
        memory,
        rows,
        accesses: list,
        looks,
    })
}

// What memory holds after the accesses, and what each of them found.
fn followed(alloc: Global, list: &[Access]) -> Result<(Memory, Vec<Look>), OutOfMemory>
    requires { AreInOrder list.now }
    ensures memory { IfOk result (λ r. (a : ℕ)
        → entry_at r.0 a ≡ greatest_entry (is_write_at a) list.now) }
    ensures looks { IfOk result (λ r. r.1.items ≡ map (found_by list.now) list.now) }
{
    let mut memory = Memory::new(alloc);
    let mut looks = Vec::new(alloc);
    for access in list {
        take_in(&mut memory, &mut looks, access)?;
    }
    Ok((memory, looks))
}

// Lets the access happen: appends what it finds, and a write changes what memory holds.
fn take_in(memory: &mut Memory, looks: &mut Vec<Look>, access: &Access) -> Result<(), OutOfMemory>
    requires fits { access.now.base + access.now.len ≤ ADDRESSES }
    requires newer { IsNewer memory.old access.now.entry }
    ensures memory { OnOk result ((a : ℕ) → entry_at memory.new a ≡ (
        if is_write_at a access.now then Some access.now.entry else entry_at memory.old a)) }
    ensures newest { OnOk result (IsNewer memory.new (access.now.entry + 1)) }
    ensures look { OnOk result (looks.new.items ≡ looks.old.items
        ++ looked (entry_at memory.old) access.now.base access.now.len ∷ []) }
{
    looks.push(memory.look(access.base, access.len))?;
    if access.write {
        memory.write(access.base, access.len, access.entry)?;
    }
    Ok(())
}
