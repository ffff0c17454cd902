// Capabilities and entries, described in words.
use crate::OutOfMemory;
use crate::words::key_text;
use sem_key::Object;
use sem_msg::{Act, Call, Detail, Entry};
use sem_trace::push_call;
use std::alloc::Global;

/// What a capability gives its holder.
pub fn object_text(alloc: Global, object: &Object) -> Result<String, OutOfMemory> {
    match object {
        Object::Mem { base, len, rights } => {
            let rights = rights_text(*rights);
            format!(in alloc; "memory, {len} bytes from {base}, {rights}")
        }
        Object::Recv { slots } => format!(in alloc; "receive gate of {slots} slots"),
        Object::Send {
            gate,
            label,
            credits,
        } => {
            let gate = key_text(alloc, gate)?;
            format!(in alloc; "send gate for {gate}, label {label}, {credits} credits")
        }
        Object::Serv { name } => format!(in alloc; "service {name}"),
        Object::Sess { service, ident } => {
            let service = key_text(alloc, service)?;
            format!(in alloc; "session of v{ident} with {service}")
        }
    }
}

// The rights of a mask: to read, to write, to execute.
fn rights_text(rights: u8) -> &'static str {
    match rights {
        0 => "no rights",
        1 => "r",
        2 => "w",
        3 => "rw",
        4 => "x",
        5 => "rx",
        6 => "wx",
        _ => "rwx",
    }
}

/// What the entry of that number began, a call or the end of a VPE, and its number.
pub fn cause_text(alloc: Global, entries: &[Entry], number: usize) -> Result<String, OutOfMemory> {
    match entries.get(number) {
        Some(entry) => {
            let act = act_text(alloc, entry)?;
            format!(in alloc; "{act} (entry {number})")
        }
        None => format!(in alloc; "entry {number}"),
    }
}

/// What the entry began: a call or the end of a VPE.
pub fn act_text(alloc: Global, entry: &Entry) -> Result<String, OutOfMemory> {
    match (entry.event.act, entry.detail) {
        (Act::Kill { vpe }, _) => format!(in alloc; "the kill of v{vpe}"),
        (Act::Call { vpe }, Detail::Called { index, call }) => {
            let call = call_text(alloc, &call)?;
            format!(in alloc; "\"{call}\", call {index} of v{vpe}")
        }
        _ => String::from_str(alloc, "what came before"),
    }
}

fn call_text(alloc: Global, call: &Call) -> Result<String, OutOfMemory> {
    let mut words = Vec::new(alloc);
    push_call(&mut words, call)?;
    let mut text = String::new(alloc);
    for (at, byte) in words.as_slice().iter().enumerate() {
        if at > 0 || *byte != b' ' {
            text.push(char::from(*byte))?;
        }
    }
    Ok(text)
}
