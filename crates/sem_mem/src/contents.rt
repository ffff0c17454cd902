// The text that tells what memory holds. If memory is refused, each of these functions but
// `print_contents` may have appended a part.
ghost use Rattle.std.specs.Prelude.{◌≡◌, ◌+◌, ◌≤◌, ◌++◌, ◌∷◌, [], ℕ, List, Some, map};
ghost use Rattle.std.specs.Prelude.{if◌then◌else◌, OnOk, OnErr, IfOk};
ghost use Rattle.sem_key.specs.declared.limits.TheConstants.{ADDRESSES};
ghost use Rattle.sem_text.specs.Lines.{line, text};
ghost use Rattle.sem_machine.specs.Schedules.{IsSchedule};
ghost use Rattle.sem_access.specs.declared.access.Access.{Access as AccessData};
ghost use Rattle.sem_access.specs.LastWrites.{is_write_at, looked};
ghost use Rattle.sem_access.specs.Runs.{entry_at, IsNewer};
ghost use Rattle.sem_access.specs.ContentsText.{entry_word, read_line, run_line, access_lines};
ghost use Rattle.sem_access.specs.ContentsText.{contents};
ghost use Rattle.sem_mem.specs.Reading.{AreBefore};
ghost use Rattle.sem_mem.specs.Chunks.{together};
ghost use Rattle.sem_mem.specs.Accounts.{IsAccount, IsAccountOf};

use crate::account::Account;
use crate::memory::Memory;
use sem_access::{Access, Look, Run};
use sem_kernel::World;
use sem_key::OutOfMemory;
use sem_msg::{Entry, Journal, Setup};
use sem_text::push_number_behind;
use sem_trace::{push_line, push_start};
use std::alloc::Global;

/// Appends the text that tells what memory holds after a journal that the machine can make. If
/// memory is refused, `out` is as before.
pub fn print_contents(
    alloc: Global,
    setup: &Setup,
    journal: &Journal,
    out: &mut Vec<u8>,
) -> Result<(), OutOfMemory>
    requires { IsSchedule setup.now journal.now.entries }
    ensures ok { OnOk result
        (out.new.items ≡ out.old.items ++ contents setup.now journal.now.entries) }
    ensures err { OnErr result (out.new.items ≡ out.old.items) }
{
    setup.keeps_its_rules();
    let account = account_of(alloc, setup, journal.as_slice())?;
    let mut told = Vec::new(alloc);
    push_contents(&mut told, &account)?;
    out.extend_from_slice(&told)
}

// The account of entries that the machine can make. It goes through the events once more.
fn account_of(alloc: Global, setup: &Setup, entries: &[Entry]) -> Result<Account, OutOfMemory>
    requires { IsSchedule setup.now entries.now }
    ensures { IfOk result (λ account. IsAccountOf setup.now entries.now account) }
{
    let mut world = World::boot(alloc, setup)?;
    let mut account = Account::new(alloc);
    for (place, entry) in entries.iter().enumerate() {
        account.before(&world, place as u64, entry);
        world.advance(entry.event)?;
        account.after(setup, &entries[..place], entry)?;
    }
    Ok(account)
}

/// Appends the text that tells what memory holds after accesses, by their account. If memory is
/// refused, a part may be there.
pub fn push_contents(out: &mut Vec<u8>, account: &Account) -> Result<(), OutOfMemory>
    ensures { OnOk result ((xs : List AccessData) (n : ℕ) → IsAccount xs account.now
        → AreBefore n xs → out.new.items ≡ out.old.items ++ text (access_lines xs n)) }
{
    push_line(out, b"semper contents", &[1])?;
    out.extend_from_slice(&account.lines)?;
    push_chunks(out, account.memory.chunks())?;
    push_line(out, b"end", &[])
}

/// Lets the access happen: a write changes what memory holds, and for a read its line is appended.
pub fn take_in(memory: &mut Memory, out: &mut Vec<u8>, access: &Access) -> Result<(), OutOfMemory>
    requires fits { access.now.base + access.now.len ≤ ADDRESSES }
    requires newer { IsNewer memory.old access.now.entry }
    ensures memory { OnOk result ((a : ℕ) → entry_at memory.new a ≡ (
        if is_write_at a access.now then Some access.now.entry else entry_at memory.old a)) }
    ensures newest { OnOk result (IsNewer memory.new (access.now.entry + 1)) }
    ensures text { OnOk result (out.new.items ≡ out.old.items ++ (
        if access.now.write then []
        else line (read_line access.now (
        looked (entry_at memory.old) access.now.base access.now.len)))) }
{
    if access.write {
        memory.write(access.base, access.len, access.entry)
    } else {
        push_read(out, access, memory.look(access.base, access.len))
    }
}

// Appends the line of the read.
fn push_read(out: &mut Vec<u8>, access: &Access, found: Look) -> Result<(), OutOfMemory>
    ensures { OnOk result (out.new.items ≡ out.old.items ++ line (read_line access.now found)) }
{
    let numbers = [
        access.entry,
        access.base,
        u64::from(access.len),
        found.written,
    ];
    push_start(out, b"read", &numbers)?;
    push_entry(out, found.newest)?;
    Ok(out.push(b'\n')?)
}

// Appends a space, and the entry or a dash.
fn push_entry(out: &mut Vec<u8>, entry: Option<u64>) -> Result<(), OutOfMemory>
    ensures { OnOk result (out.new.items ≡ out.old.items ++ 32 ∷ entry_word entry) }
{
    match entry {
        Some(entry) => push_number_behind(out, b' ', entry),
        None => out.extend_from_slice(b" -"),
    }
}

// Appends the lines of the runs of the chunks.
fn push_chunks(out: &mut Vec<u8>, chunks: &[Vec<Run>]) -> Result<(), OutOfMemory>
    ensures { OnOk result (out.new.items
        ≡ out.old.items ++ text (map run_line (together chunks.now))) }
{
    for chunk in chunks {
        push_runs(out, chunk)?;
    }
    Ok(())
}

// Appends the lines of the runs.
fn push_runs(out: &mut Vec<u8>, runs: &[Run]) -> Result<(), OutOfMemory>
    ensures { OnOk result (out.new.items ≡ out.old.items ++ text (map run_line runs.now)) }
{
    for run in runs {
        push_line(out, b"run", &[run.base, run.len, run.entry])?;
    }
    Ok(())
}
