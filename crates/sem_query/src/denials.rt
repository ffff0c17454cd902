ghost use Rattle.std.specs.Prelude.{◌≡◌, ℕ, List, ◌++◌, ◌<◌, ◌≤◌, Some, MatchOption, OnOk, OnErr};
ghost use Rattle.sem_msg.specs.declared.entry.Reply.{Reply as ReplyTo};
ghost use Rattle.sem_msg.specs.Codes.{code_number};
ghost use Rattle.sem_machine.specs.Schedules.{IsSchedule};
ghost use Rattle.sem_query.specs.Denials.{code_name as code_name_spec, Denies, denied_line};
ghost use Rattle.sem_query.specs.Denials.{IsDenied};

use crate::settling::settling_entry;
use sem_journal::push_entry;
use sem_key::OutOfMemory;
use sem_msg::{Code, Entry, Journal, Reply, Setup};
use sem_text::push_number;
use std::alloc::Global;

/// Appends the line that tells why entry `n` denies a call: the code of its reply, and the entry
/// that settled it. If the entry denies none, the line is `none`. If memory is refused, `out` is as
/// before.
pub fn denied(
    alloc: Global,
    setup: &Setup,
    journal: &Journal,
    n: u64,
    out: &mut Vec<u8>,
) -> Result<(), OutOfMemory>
    requires { IsSchedule setup.now journal.now.entries }
    ensures ok { OnOk result ((t : List ℕ) × IsDenied setup.now journal.now.entries n t
        × (out.new.items ≡ out.old.items ++ t)) }
    ensures err { OnErr result (out.new.items ≡ out.old.items) }
{
    let mut line = Vec::new(alloc);
    push_answer(alloc, &mut line, setup, journal, n as usize)?;
    out.extend_from_slice(&line)
}

// Appends the line that tells why entry `n` denies a call. If memory is refused, it may have
// appended a part.
fn push_answer(
    alloc: Global,
    out: &mut Vec<u8>,
    setup: &Setup,
    journal: &Journal,
    n: usize,
) -> Result<(), OutOfMemory>
    requires { IsSchedule setup.now journal.now.entries }
    ensures { OnOk result ((t : List ℕ) × IsDenied setup.now journal.now.entries n t
        × (out.new.items ≡ out.old.items ++ t)) }
{
    setup.keeps_its_rules();
    let Some(reply) = denial_at(journal, n) else {
        return out.extend_from_slice(b"none\n");
    };
    let place = settling_entry(alloc, setup, journal, reply.vpe, n)?;
    let entry = journal.as_slice()[place];
    push_denial(out, code_of(reply.code), place as u64, &entry)
}

// The reply of entry `n`, if the entry denies a call.
fn denial_at(journal: &Journal, n: usize) -> Option<Reply>
    ensures { MatchOption result ((r : ReplyTo) → ¬ Denies journal.now.entries n r)
        (λ r. Denies journal.now.entries n r) }
{
    match journal.get(n) {
        Some(entry) => denial_of(entry.reply),
        None => None,
    }
}

// The reply, if its code is not 0.
fn denial_of(reply: Option<Reply>) -> Option<Reply>
    ensures { MatchOption result ((r : ReplyTo) → reply ≡ Some r → r.code ≡ 0)
        (λ r. (reply ≡ Some r) × (0 < r.code)) }
{
    reply.filter(|reply| reply.code > 0)
}

// Appends the line of a denial with that code, settled by the entry of that number. If memory is
// refused, it may have appended a part.
fn push_denial(out: &mut Vec<u8>, code: Code, place: u64, entry: &Entry) -> Result<(), OutOfMemory>
    ensures { OnOk result (out.new.items ≡ out.old.items ++ denied_line code place entry.now) }
{
    out.extend_from_slice(b"denied ")?;
    push_number(out, u64::from(code.number()))?;
    out.push(b' ')?;
    out.extend_from_slice(code_name(code))?;
    out.extend_from_slice(b" at ")?;
    push_number(out, place)?;
    out.extend_from_slice(b": ")?;
    push_entry(out, entry)
}

fn code_of(number: u8) -> Code
    requires { number ≤ 15 }
    ensures { code_number result ≡ number }
{
    match number {
        0 => Code::Ok,
        1 => Code::NoVpe,
        2 => Code::Dead,
        3 => Code::NoCap,
        4 => Code::Revoking,
        5 => Code::Refused,
        6 => Code::Occupied,
        7 => Code::Numbers,
        8 => Code::BadKind,
        9 => Code::Wider,
        10 => Code::NoService,
        11 => Code::Gone,
        12 => Code::Unbound,
        13 => Code::Rights,
        14 => Code::Range,
        _ => Code::SelfExchange,
    }
}

fn code_name(code: Code) -> &'static [u8]
    ensures { result.now ≡ code_name_spec code }
{
    match code {
        Code::Ok => b"Ok",
        Code::NoVpe => b"NoVpe",
        Code::Dead => b"Dead",
        Code::NoCap => b"NoCap",
        Code::Revoking => b"Revoking",
        Code::Refused => b"Refused",
        Code::Occupied => b"Occupied",
        Code::Numbers => b"Numbers",
        Code::BadKind => b"BadKind",
        Code::Wider => b"Wider",
        Code::NoService => b"NoService",
        Code::Gone => b"Gone",
        Code::Unbound => b"Unbound",
        Code::Rights => b"Rights",
        Code::Range => b"Range",
        Code::SelfExchange => b"SelfExchange",
    }
}
