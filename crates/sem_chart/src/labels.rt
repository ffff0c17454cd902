// The label of an entry, next to its row. If memory is refused, each of these functions may have
// appended a part.
use crate::names::message_name;
use sem_hint::key_text;
use sem_journal::push_message;
use sem_key::OutOfMemory;
use sem_msg::{Act, Consent, Detail, Entry};
use sem_names::code_name;
use sem_trace::push_call;
use std::alloc::Global;

/// The other end of a message: its entry, if it has one, and whether its kernel is shown.
#[derive(Clone, Copy, Debug)]
pub struct OtherEnd {
    pub entry: Option<usize>,
    pub is_shown: bool,
}

/// The label of an entry; `other` is the other end of its message.
pub fn label_of(alloc: Global, entry: &Entry, other: OtherEnd) -> Result<String, OutOfMemory> {
    let mut out = String::new(alloc);
    push_event(alloc, &mut out, entry, other)?;
    push_outcome(alloc, &mut out, entry)?;
    Ok(out)
}

// Appends the event and what it was about.
fn push_event(
    alloc: Global,
    out: &mut String,
    entry: &Entry,
    other: OtherEnd,
) -> Result<(), OutOfMemory> {
    match (entry.event.act, entry.detail) {
        (Act::Call { .. }, Detail::Called { call, .. }) => {
            let mut words = Vec::new(alloc);
            push_call(&mut words, &call)?;
            push_words(out, words.as_slice())
        }
        (Act::Flush { to }, Detail::Carried { message, .. }) => {
            let mut words = Vec::new(alloc);
            push_message(&mut words, &message)?;
            push_words(out, words.as_slice())?;
            push_carried(alloc, out, ("to", "arrives in"), to, other)
        }
        (Act::Fetch { from }, Detail::Carried { message, .. }) => {
            out.push_str(message_name(&message))?;
            push_carried(alloc, out, ("from", "sent in"), from, other)
        }
        (Act::Handle, Detail::Carried { message, .. }) => {
            out.push_str("handles ")?;
            out.push_str(message_name(&message))
        }
        (Act::Upcall { vpe }, Detail::Asked { asker, answer }) => {
            let answer = answer_text(answer);
            let text = format!(in alloc; "asks v{vpe} for v{asker}: {answer}")?;
            out.push_str(text.as_str())
        }
        (Act::Resume { .. }, _) => out.push_str("goes on"),
        (Act::Kill { .. }, _) => out.push_str("kill"),
        _ => out.push_str("?"),
    }
}

// What a VPE said.
fn answer_text(answer: Consent) -> &'static str {
    match answer {
        Consent::Yes => "yes",
        Consent::No => "no",
        Consent::Dropped => "nobody waits",
    }
}

// Appends the words, without the blank before the first.
fn push_words(out: &mut String, words: &[u8]) -> Result<(), OutOfMemory> {
    for (at, byte) in words.iter().enumerate() {
        if at > 0 || *byte != b' ' {
            out.push(char::from(*byte))?;
        }
    }
    Ok(())
}

// Appends the entry of the other end of a message, and its kernel if that is not shown, each after
// its words.
fn push_carried(
    alloc: Global,
    out: &mut String,
    words: (&str, &str),
    kernel: u32,
    other: OtherEnd,
) -> Result<(), OutOfMemory> {
    let (towards, meets) = words;
    if !other.is_shown || other.entry.is_none() {
        out.push_str(format!(in alloc; " {towards} K{kernel}")?.as_str())?;
    }
    match other.entry {
        Some(number) => out.push_str(format!(in alloc; " ({meets} {number})")?.as_str()),
        None => Ok(()),
    }
}

// Appends the outcome of the event.
fn push_outcome(alloc: Global, out: &mut String, entry: &Entry) -> Result<(), OutOfMemory> {
    if let Some((parent, child)) = entry.grant {
        let (parent, child) = (key_text(alloc, &parent)?, key_text(alloc, &child)?);
        let text = format!(in alloc; "; grant {parent} > {child}")?;
        out.push_str(text.as_str())?;
    }
    if let Some(key) = entry.cut {
        out.push_str("; cut ")?;
        out.push_str(key_text(alloc, &key)?.as_str())?;
    }
    if let Some(reply) = entry.reply {
        out.push_str("; ")?;
        out.push_str(code_name(reply.code))?;
    }
    Ok(())
}
