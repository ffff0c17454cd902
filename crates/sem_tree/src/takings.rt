// Which entries take capabilities back.
ghost use Rattle.std.specs.Prelude.{◌≡◌, ◌||◌, ℕ, [], Some, None, min};
ghost use Rattle.std.specs.Option.{option_map_or, option_to_list};
ghost use Rattle.sem_key.specs.Region.{has_key};
ghost use Rattle.sem_machine.specs.Journals.{cut_off, ends};

use crate::places::Places;
use crate::rows::TreeRow;
use sem_key::{Key, OutOfMemory, same_key};
use sem_msg::{Act, Call, Detail, Entry};
use std::alloc::Global;

/// Whether the entry takes the key back: it begins a revoke of the key, or a clear of what the key
/// was made from, or the VPE of the key ends. `grant` is the grant of the key, if it came before
/// the entry.
pub fn takes(entry: &Entry, key: &Key, grant: &Option<(Key, Key)>) -> bool
    ensures { result ≡ (has_key
        (option_map_or (cut_off (option_to_list grant.now) entry.now.detail) entry.now.cut [])
        key.now
        || ends key.now.vpe entry.now.event.act entry.now.detail) }
{
    cuts_off(entry, key, grant) || ends_vpe(entry, key.vpe)
}

// Whether the entry begins a revoke of the key, or a clear of what the key was made from.
fn cuts_off(entry: &Entry, key: &Key, grant: &Option<(Key, Key)>) -> bool
    ensures { result ≡ has_key
        (option_map_or (cut_off (option_to_list grant.now) entry.now.detail) entry.now.cut [])
        key.now }
{
    let Some(root) = entry.cut else {
        return false;
    };
    match entry.detail {
        Detail::Called {
            call: Call::Revoke { .. },
            ..
        } => same_key(key, &root),
        Detail::Called {
            call: Call::Clear { .. },
            ..
        } => match grant {
            Some((parent, child)) => same_key(parent, &root) && same_key(key, child),
            None => false,
        },
        _ => false,
    }
}

// Whether the VPE ends by the entry: it is killed, or calls `exit`.
fn ends_vpe(entry: &Entry, vpe: u16) -> bool
    ensures { result ≡ ends vpe entry.now.event.act entry.now.detail }
{
    match (entry.event.act, entry.detail) {
        (Act::Kill { vpe: ended }, _) => ended == vpe,
        (
            Act::Call { vpe: ended },
            Detail::Called {
                call: Call::Exit,
                ..
            },
        ) => ended == vpe,
        _ => false,
    }
}

// What is known of a row: whether its grant was seen, and the first entry that takes it back.
#[derive(Clone, Copy)]
struct Taking {
    is_granted: bool,
    by: Option<usize>,
}

/// For each row, the number of the first entry that takes it, or one above it, back.
pub fn takings(
    alloc: Global,
    rows: &[TreeRow],
    places: &Places,
    entries: &[Entry],
) -> Result<Vec<Option<usize>>, OutOfMemory> {
    let mut own = Vec::new(alloc);
    for _ in rows {
        own.push(Taking {
            is_granted: false,
            by: None,
        })?;
    }
    for (number, entry) in entries.iter().enumerate() {
        note_entry(&mut own, rows, number, entry);
        if let Some((_, child)) = entry.grant
            && let Some(place) = places.of(child)
            && let Some(taking) = own.get_mut(place)
        {
            taking.is_granted = true;
        }
    }
    inherited(alloc, rows, places, own.as_slice())
}

// Notes which rows the entry takes back.
fn note_entry(own: &mut Vec<Taking>, rows: &[TreeRow], number: usize, entry: &Entry) {
    let is_call = matches!(entry.event.act, Act::Call { .. });
    let is_kill = matches!(entry.event.act, Act::Kill { .. });
    if !is_call && !is_kill {
        return;
    }
    for (place, row) in rows.iter().enumerate() {
        if let Some(taking) = own.get_mut(place)
            && taking.by.is_none()
        {
            let grant = match row.parent {
                Some(parent) if taking.is_granted => Some((parent, row.key)),
                _ => None,
            };
            if takes(entry, &row.key, &grant) {
                taking.by = Some(number);
            }
        }
    }
}

// The first entries that take rows, or those above them, back. A parent comes before its children.
fn inherited(
    alloc: Global,
    rows: &[TreeRow],
    places: &Places,
    own: &[Taking],
) -> Result<Vec<Option<usize>>, OutOfMemory> {
    let mut first: Vec<Option<usize>> = Vec::new(alloc);
    for (place, row) in rows.iter().enumerate() {
        let by = own.get(place).and_then(|taking| taking.by);
        let above = row.parent.and_then(|parent| places.of(parent));
        let above = above.and_then(|at| first.get(at).copied().flatten());
        first.push(earlier(by, above))?;
    }
    Ok(first)
}

// The earlier of two optional entries.
fn earlier(one: Option<usize>, other: Option<usize>) -> Option<usize>
    ensures both { (a b : ℕ) → one ≡ Some a → other ≡ Some b → result ≡ Some (min a b) }
    ensures one { other ≡ None → result ≡ one }
    ensures other { one ≡ None → result ≡ other }
{
    match (one, other) {
        (Some(one), Some(other)) => Some(one.min(other)),
        (Some(one), None) => Some(one),
        (None, other) => other,
    }
}
