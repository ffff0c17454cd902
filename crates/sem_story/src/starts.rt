// What the trace declares about a key.
use sem_hint::text_of;
use sem_key::{Key, Kind, Object, OutOfMemory};
use sem_msg::{Root, Setup};
use sem_trace::{push_named, push_object};
use std::alloc::Global;

/// The root or service that the trace declares at the selector of the key's VPE.
pub fn root_at(setup: &Setup, key: Key, selector: u8) -> Option<Root> {
    let decl = setup.decl(key.vpe)?;
    decl.roots
        .as_slice()
        .iter()
        .find(|root| root.sel == selector)
        .copied()
}

/// The kind of line that declares such a key.
pub fn root_name(key: Key) -> &'static str {
    if key.kind == Kind::Serv {
        "service"
    } else {
        "root"
    }
}

/// The line of a root or service of a VPE, as in the trace.
pub fn root_text(alloc: Global, vpe: u16, root: &Root) -> Result<String, OutOfMemory> {
    let mut words = Vec::new(alloc);
    let numbers = [u64::from(vpe), u64::from(root.sel)];
    match &root.object {
        Object::Serv { name } => {
            push_named(
                &mut words,
                b"service",
                &[numbers[0], numbers[1], u64::from(*name)],
            )?;
        }
        object => {
            push_named(&mut words, b"root", &numbers)?;
            push_object(&mut words, object)?;
        }
    }
    text_of(alloc, behind_blank(words.as_slice()))
}

// The words without the blank before them.
fn behind_blank(words: &[u8]) -> &[u8] {
    match words {
        [b' ', rest @ ..] => rest,
        _ => words,
    }
}
