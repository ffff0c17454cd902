// Why earlier lines keep a client from doing what a line of file commands says.
use crate::OutOfMemory;
use crate::words::{Word, words_of};
use sem_trace::{Cause, is};
use std::alloc::Global;

/// Why the earlier lines do not allow the word at the place of a line `do`.
pub fn strayed(
    alloc: Global,
    cause: Cause,
    place: usize,
    earlier: &[&[u8]],
    words: &[Word],
) -> Result<Option<String>, OutOfMemory> {
    let [name, client, act, handle, ..] = words else {
        return Ok(None);
    };
    if !is(name.text, b"do") {
        return Ok(None);
    }
    match (cause, place) {
        (Cause::Undeclared, 3) => not_open(alloc, earlier, client, handle),
        (Cause::Undeclared, 4) if is(act.text, b"open") => {
            said(alloc, "no earlier line declares this file")
        }
        (Cause::Undeclared, _) => said(alloc, "no earlier line declares this client"),
        (Cause::Twice, 3) => open_since(alloc, earlier, client, handle),
        (Cause::Twice, 4) => said(alloc, "a client does not share with itself"),
        (Cause::Twice, _) => given_before(alloc, earlier, words),
        _ => Ok(None),
    }
}

// Why the handle of the client is not open.
fn not_open(
    alloc: Global,
    earlier: &[&[u8]],
    client: &Word,
    handle: &Word,
) -> Result<Option<String>, OutOfMemory> {
    match last_of(alloc, earlier, client.text, handle.text)? {
        Some((number, _)) => {
            Ok(Some(format!(in alloc; "this handle is closed since line {number}")?))
        }
        None => said(alloc, "this client opened no file under this handle"),
    }
}

// Since when the handle of the client is open.
fn open_since(
    alloc: Global,
    earlier: &[&[u8]],
    client: &Word,
    handle: &Word,
) -> Result<Option<String>, OutOfMemory> {
    match last_of(alloc, earlier, client.text, handle.text)? {
        Some((number, _)) => {
            Ok(Some(format!(in alloc; "this handle is open since line {number}")?))
        }
        None => Ok(None),
    }
}

// Which line gave to the same client under the same number.
fn given_before(
    alloc: Global,
    earlier: &[&[u8]],
    words: &[Word],
) -> Result<Option<String>, OutOfMemory> {
    let [_, _, _, _, to, other, ..] = words else {
        return Ok(None);
    };
    for (place, line) in earlier.iter().enumerate() {
        let line_words = words_of(alloc, line)?;
        if let [_, _, share, _, receiver, given, ..] = line_words.as_slice()
            && is(share.text, b"share")
            && receiver.text == to.text
            && given.text == other.text
        {
            let number = place.saturating_add(1);
            let text = format!(in alloc; "line {number} gave to this client under this number")?;
            return Ok(Some(text));
        }
    }
    Ok(None)
}

fn said(alloc: Global, text: &str) -> Result<Option<String>, OutOfMemory> {
    Ok(Some(String::from_str(alloc, text)?))
}

// The number of the last line that opens or closes that handle of the client, and whether it opens
// it.
fn last_of(
    alloc: Global,
    earlier: &[&[u8]],
    client: &[u8],
    handle: &[u8],
) -> Result<Option<(usize, bool)>, OutOfMemory> {
    let mut last = None;
    for (place, line) in earlier.iter().enumerate() {
        let words = words_of(alloc, line)?;
        if let [name, who, act, which, ..] = words.as_slice()
            && is(name.text, b"do")
            && who.text == client
            && which.text == handle
            && (is(act.text, b"open") || is(act.text, b"close"))
        {
            last = Some((place.saturating_add(1), is(act.text, b"open")));
        }
    }
    Ok(last)
}
