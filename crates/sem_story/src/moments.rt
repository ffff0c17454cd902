// The rows of a story as drawable moments.
use crate::rows::{Happening, StoryRow};
use crate::starts::{root_at, root_name, root_text};
use sem_draw::Moment;
use sem_hint::{act_text, cause_text, key_text, text_of};
use sem_journal::push_entry_words;
use sem_key::{Key, OutOfMemory};
use sem_msg::{Act, Detail, Entry, Setup};
use std::alloc::Global;

/// What the texts of the rows need: the key and its kernel, the entries and what they tell of its
/// line.
#[derive(Clone, Copy)]
pub struct Source<'a> {
    pub setup: &'a Setup,
    pub entries: &'a [Entry],
    pub key: Key,
    pub kernel: u32,
    /// The first entry that takes the key, or one above it, back.
    pub taker: Option<usize>,
}

/// The moments of the rows, one for each.
pub fn moments_of(
    alloc: Global,
    source: &Source,
    rows: &[StoryRow],
) -> Result<Vec<Moment>, OutOfMemory> {
    let mut moments = Vec::new(alloc);
    for row in rows {
        moments.push(Moment {
            number: row.entry,
            text: happening_text(alloc, source, row)?,
            line: line_text(alloc, source, row)?,
            state: row.stage.state(),
        })?;
    }
    Ok(moments)
}

// The text about a row.
fn happening_text(alloc: Global, source: &Source, row: &StoryRow) -> Result<String, OutOfMemory> {
    let kernel = source.kernel;
    match row.happening {
        Happening::Declared { selector } => {
            let name = root_name(source.key);
            format!(in alloc; "declared as a {name}, at selector {selector}")
        }
        Happening::Granted => granted_text(alloc, source, row.entry.unwrap_or(0) as usize),
        Happening::Sent => format!(in alloc; "on its way to K{kernel}"),
        Happening::Arrived => format!(in alloc; "arrived at K{kernel}"),
        Happening::Held { selector } => format!(in alloc; "held at selector {selector}"),
        Happening::Bound { endpoint } => format!(in alloc; "bound to endpoint {endpoint}"),
        Happening::Unbound { endpoint } => format!(in alloc; "unbound from endpoint {endpoint}"),
        Happening::Child { key } => {
            let (child, vpe) = (key_text(alloc, &key)?, key.vpe);
            format!(in alloc; "{child} made from it, for v{vpe}")
        }
        Happening::Marked { job } => format!(in alloc; "marked by job {job} of K{kernel}"),
        Happening::Unmarked => String::from_str(alloc, "not marked any more: the clear has ended"),
        Happening::Gone => gone_text(alloc, source),
    }
}

// The call by which the entry of that number made the key.
fn granted_text(alloc: Global, source: &Source, number: usize) -> Result<String, OutOfMemory> {
    let mut text = String::from_str(alloc, "granted")?;
    let Some((call, entry)) = call_of(source.entries, number) else {
        return Ok(text);
    };
    text.push_str(" by ")?;
    let cause = if call == number {
        act_text(alloc, entry)?
    } else {
        cause_text(alloc, source.entries, call)?
    };
    text.push_str(cause.as_str())?;
    Ok(text)
}

// The call that the entry of that number serves, if it serves one: the last one of its VPE.
fn call_of(entries: &[Entry], number: usize) -> Option<(usize, &Entry)> {
    let caller = caller_of(entries.get(number)?)?;
    for (at, entry) in entries.iter().enumerate().rev() {
        if let Act::Call { vpe } = entry.event.act
            && vpe == caller
            && at <= number
        {
            return Some((at, entry));
        }
    }
    None
}

// The VPE whose call the entry serves.
fn caller_of(entry: &Entry) -> Option<u16> {
    match (entry.event.act, entry.detail) {
        (Act::Call { vpe } | Act::Resume { vpe }, _) => Some(vpe),
        (Act::Upcall { .. }, Detail::Asked { asker, .. }) => Some(asker),
        _ => None,
    }
}

// The reason why the key is gone.
fn gone_text(alloc: Global, source: &Source) -> Result<String, OutOfMemory> {
    let mut text = String::from_str(alloc, "gone")?;
    if let Some(taker) = source.taker {
        text.push_str(" by ")?;
        text.push_str(cause_text(alloc, source.entries, taker)?.as_str())?;
    }
    Ok(text)
}

// The line of the row in the report: that of its entry, or that of the trace that declares the key.
fn line_text(alloc: Global, source: &Source, row: &StoryRow) -> Result<String, OutOfMemory> {
    let mut words = Vec::new(alloc);
    match (row.entry, row.happening) {
        (Some(number), _) => {
            if let Some(entry) = source.entries.get(number as usize) {
                push_entry_words(&mut words, entry)?;
            }
        }
        (None, Happening::Declared { selector }) => {
            if let Some(root) = root_at(source.setup, source.key, selector) {
                return root_text(alloc, source.key.vpe, &root);
            }
        }
        (None, _) => {}
    }
    text_of(alloc, words.as_slice())
}
