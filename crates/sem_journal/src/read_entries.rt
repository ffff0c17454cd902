// Entries, read from the left.
#![tactic(auto, unfolding(sem_trace::specs::Forms::form_fault, crate::specs::EntryForms::events, crate::specs::EntryForms::event_form, crate::specs::EntryForms::behind_cut, crate::specs::EntryForms::behind_grant, crate::specs::EntryForms::behind_event))]

ghost use Rattle.std.specs.Prelude.{◌≡◌, ℕ, ◌≤◌, false, ◌∷◌, codes, IfOk};
ghost use Rattle.std.specs.Result.{result_err};
ghost use Rattle.sem_trace.specs.TextLines.{words_of};
ghost use Rattle.sem_journal.specs.EntryText.{entry_words};
ghost use Rattle.sem_trace.specs.Forms.{form_fault};
ghost use Rattle.sem_trace.specs.Places.{number_place, told_fault};
ghost use Rattle.sem_journal.specs.EntryForms.{kernel as kernel_spec, entry_form, entry_fault};
ghost use Rattle.sem_journal.specs.EntryForms.{has_long_memory};
ghost use Rattle.sem_journal.specs.ShownWords.{is_long as is_long_spec};
ghost use Rattle.sem_journal.specs.ShownWords.{carries_long as carries_long_spec};
ghost use Rattle.sem_journal.specs.ShownWords.{length_word as length_word_spec};
ghost use Rattle.sem_journal.specs.EntryRanges.{EventFits, EntryFits};
ghost use Rattle.sem_journal.specs.Readers.{ReadsKernel, ReadsConsent, ReadsEvent, ReadsCarried};
ghost use Rattle.sem_journal.specs.Readers.{ReadsReply, ReadsCut, ReadsBehindCut, ReadsBehindGrant};
ghost use Rattle.sem_journal.specs.Readers.{ReadsShown};

use crate::read_message::{message, two_keys, vpe};
use crate::shown::Shown;
use sem_key::{Key, Object};
use sem_msg::{Act, Consent, Detail, Entry, Event, Message, Reply};
use sem_trace::{CODE, Cause, LineFault, Range, WORD, Words, is};

// The event granted, cut and replied nothing.
const NOTHING: Shown = Shown {
    grant: None,
    cut: None,
    reply: None,
};

// One of that many kernels.
fn kernel_range(kernels: u32) -> Range
    requires { 1 ≤ kernels }
    ensures { number_place result ≡ kernel_spec kernels }
{
    Range {
        least: 0,
        most: u64::from(kernels) - 1,
    }
}

// The next word, one of that many kernels.
fn kernel(words: &mut Words<'_>, kernels: u32) -> Result<u32, Cause>
    requires { 1 ≤ kernels }
    ensures { ReadsKernel kernels words.old words.new result }
{
    let kernel = words.number(kernel_range(kernels))?;
    Ok(kernel as u32)
}

fn call_event(words: &mut Words<'_>, version: u8) -> Result<(Act, Detail), Cause>
    ensures { (kernels : ℕ)
        → ReadsEvent version kernels (codes "call" ∷ words.old) words.new result }
{
    let vpe = vpe(words, version)?;
    let index = words.number(WORD)?;
    let call = words.call(version)?;
    let act = Act::Call { vpe };
    let detail = Detail::Called {
        index: index as u32,
        call,
    };
    Ok((act, detail))
}

// A message, after its other kernel.
fn carried(words: &mut Words<'_>, version: u8, kernels: u32) -> Result<(u32, Message), Cause>
    requires { 1 ≤ kernels }
    ensures { ReadsCarried version kernels words.old words.new result }
{
    let peer = kernel(words, kernels)?;
    let message = message(words, version)?;
    Ok((peer, message))
}

fn fetch_event(words: &mut Words<'_>, version: u8, kernels: u32) -> Result<(Act, Detail), Cause>
    requires { 1 ≤ kernels }
    ensures { ReadsEvent version kernels (codes "fetch" ∷ words.old) words.new result }
{
    let (peer, message) = carried(words, version, kernels)?;
    Ok((Act::Fetch { from: peer }, Detail::Carried { peer, message }))
}

fn handle_event(words: &mut Words<'_>, version: u8, kernels: u32) -> Result<(Act, Detail), Cause>
    requires { 1 ≤ kernels }
    ensures { ReadsEvent version kernels (codes "handle" ∷ words.old) words.new result }
{
    let (peer, message) = carried(words, version, kernels)?;
    Ok((Act::Handle, Detail::Carried { peer, message }))
}

fn flush_event(words: &mut Words<'_>, version: u8, kernels: u32) -> Result<(Act, Detail), Cause>
    requires { 1 ≤ kernels }
    ensures { ReadsEvent version kernels (codes "flush" ∷ words.old) words.new result }
{
    let (peer, message) = carried(words, version, kernels)?;
    Ok((Act::Flush { to: peer }, Detail::Carried { peer, message }))
}

// The answer to an ask.
fn consent(words: &mut Words<'_>) -> Result<Consent, Cause>
    ensures { ReadsConsent words.old words.new result }
{
    let answer = words.word()?;
    if is(answer, b"yes") {
        Ok(Consent::Yes)
    } else if is(answer, b"no") {
        Ok(Consent::No)
    } else if is(answer, b"drop") {
        Ok(Consent::Dropped)
    } else {
        Err(Cause::UnknownWord)
    }
}

fn upcall_event(words: &mut Words<'_>, version: u8) -> Result<(Act, Detail), Cause>
    ensures { (kernels : ℕ)
        → ReadsEvent version kernels (codes "upcall" ∷ words.old) words.new result }
{
    let asked = vpe(words, version)?;
    let asker = vpe(words, version)?;
    let answer = consent(words)?;
    Ok((Act::Upcall { vpe: asked }, Detail::Asked { asker, answer }))
}

fn resume_event(words: &mut Words<'_>, version: u8) -> Result<(Act, Detail), Cause>
    ensures { (kernels : ℕ)
        → ReadsEvent version kernels (codes "resume" ∷ words.old) words.new result }
{
    let vpe = vpe(words, version)?;
    Ok((Act::Resume { vpe }, Detail::Nothing))
}

fn kill_event(words: &mut Words<'_>, version: u8) -> Result<(Act, Detail), Cause>
    ensures { (kernels : ℕ)
        → ReadsEvent version kernels (codes "kill" ∷ words.old) words.new result }
{
    let vpe = vpe(words, version)?;
    Ok((Act::Kill { vpe }, Detail::Nothing))
}

// The next words, an event.
fn event(words: &mut Words<'_>, version: u8, kernels: u32) -> Result<(Act, Detail), Cause>
    requires { 1 ≤ kernels }
    ensures { ReadsEvent version kernels words.old words.new result }
{
    let name = words.word()?;
    if is(name, b"call") {
        call_event(words, version)
    } else if is(name, b"fetch") {
        fetch_event(words, version, kernels)
    } else if is(name, b"handle") {
        handle_event(words, version, kernels)
    } else if is(name, b"upcall") {
        upcall_event(words, version)
    } else if is(name, b"resume") {
        resume_event(words, version)
    } else if is(name, b"flush") {
        flush_event(words, version, kernels)
    } else if is(name, b"kill") {
        kill_event(words, version)
    } else {
        Err(Cause::UnknownWord)
    }
}

// What follows the name of a reply.
fn reply(words: &mut Words<'_>, version: u8) -> Result<Reply, Cause>
    ensures { ReadsReply version words.old words.new result }
{
    let vpe = vpe(words, version)?;
    let code = words.number(CODE)?;
    words.no_more()?;
    Ok(Reply {
        vpe,
        code: code as u8,
    })
}

// What follows a cut.
fn behind_cut(words: &mut Words<'_>, version: u8) -> Result<Option<Reply>, Cause>
    ensures { ReadsBehindCut version words.old words.new result }
{
    let Some(name) = words.next_word() else {
        return Ok(None);
    };
    if is(name, b"reply") {
        let reply = reply(words, version)?;
        Ok(Some(reply))
    } else {
        Err(Cause::UnknownWord)
    }
}

// What follows the name of a cut.
fn cut(words: &mut Words<'_>, version: u8) -> Result<(Key, Option<Reply>), Cause>
    ensures { ReadsCut version words.old words.new result }
{
    let key = words.key(version)?;
    let reply = behind_cut(words, version)?;
    Ok((key, reply))
}

// What follows a grant.
fn behind_grant(words: &mut Words<'_>, version: u8) -> Result<(Option<Key>, Option<Reply>), Cause>
    ensures { ReadsBehindGrant version words.old words.new result }
{
    let Some(name) = words.next_word() else {
        return Ok((None, None));
    };
    if is(name, b"cut") {
        let (key, reply) = cut(words, version)?;
        Ok((Some(key), reply))
    } else if is(name, b"reply") {
        let reply = reply(words, version)?;
        Ok((None, Some(reply)))
    } else {
        Err(Cause::UnknownWord)
    }
}

// What follows the name of a grant.
fn grant(words: &mut Words<'_>, version: u8) -> Result<Shown, Cause>
    ensures { ReadsShown version (codes "grant" ∷ words.old) words.new result }
{
    let (parent, child) = two_keys(words, version)?;
    let (cut, reply) = behind_grant(words, version)?;
    Ok(Shown {
        grant: Some((parent, child)),
        cut,
        reply,
    })
}

// What follows an event.
fn shown(words: &mut Words<'_>, version: u8) -> Result<Shown, Cause>
    ensures { ReadsShown version words.old words.new result }
{
    let Some(name) = words.next_word() else {
        return Ok(NOTHING);
    };
    if is(name, b"grant") {
        grant(words, version)
    } else if is(name, b"cut") {
        let (key, reply) = cut(words, version)?;
        Ok(Shown {
            cut: Some(key),
            reply,
            ..NOTHING
        })
    } else if is(name, b"reply") {
        let reply = reply(words, version)?;
        Ok(Shown {
            reply: Some(reply),
            ..NOTHING
        })
    } else {
        Err(Cause::UnknownWord)
    }
}

// Whether the object is memory that ends past 2 ^ 32.
fn is_long(object: &Object) -> bool
    ensures { result ≡ is_long_spec object.now }
{
    match object {
        Object::Mem { base, len, .. } => u64::from(*base) + u64::from(*len) > 4294967296,
        _ => false,
    }
}

// Whether the detail carries such memory.
fn carries_long(detail: &Detail) -> bool
    ensures { result ≡ carries_long_spec detail.now }
{
    match detail {
        Detail::Carried {
            message: Message::ObtainOk { object, .. } | Message::DelegateReq { object, .. },
            ..
        } => is_long(object),
        _ => false,
    }
}

// The word with the length of such memory, in an entry.
fn length_word(detail: &Detail) -> u64
    ensures { result ≡ length_word_spec detail.now }
{
    match detail {
        Detail::Carried {
            message: Message::ObtainOk { .. },
            ..
        } => 8,
        _ => 7,
    }
}

// The entry that the words tell, whatever memory it carries.
fn entry(words: &mut Words<'_>, version: u8, kernels: u32) -> Result<Entry, Cause>
    requires { 1 ≤ kernels }
    ensures fault { form_fault (entry_form version kernels words.old) words.old
        ≡ told_fault result words.new }
    ensures printed { IfOk result (λ e. words.old ≡ entry_words e) }
    ensures event { IfOk result (λ e. EventFits version kernels e.event.act e.detail) }
    ensures fits { IfOk result (λ e. has_long_memory (entry_words e) ≡ false →
        EntryFits version kernels e) }
{
    let kernel = kernel(words, kernels)?;
    let (act, detail) = event(words, version, kernels)?;
    let shown = shown(words, version)?;
    Ok(Entry {
        event: Event { kernel, act },
        detail,
        grant: shown.grant,
        cut: shown.cut,
        reply: shown.reply,
    })
}

/// The entry that the words of a line tell, in a report of the version with that many kernels, at
/// least 1. Takes no memory.
pub fn read_entry(line: &[u8], version: u8, kernels: u32) -> Result<Entry, LineFault>
    requires { 1 ≤ kernels }
    ensures fault { entry_fault version kernels (words_of line.now) ≡ result_err result }
    ensures printed { IfOk result (λ e. words_of line.now ≡ entry_words e) }
    ensures fits { IfOk result (EntryFits version kernels) }
{
    let mut words = Words::of(line);
    let entry = match entry(&mut words, version, kernels) {
        Ok(entry) => entry,
        Err(cause) => return Err(words.fault_in(line, cause)),
    };
    if carries_long(&entry.detail) {
        return Err(LineFault {
            cause: Cause::OutOfRange,
            word: Some(length_word(&entry.detail)),
        });
    }
    Ok(entry)
}
