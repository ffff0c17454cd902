// Words of a line, where there is room for them.
ghost use Rattle.std.specs.Prelude.{◌≡◌, ◌+◌, ◌*◌, ◌<◌, ◌≤◌, ◌∷◌, ◌++◌, length, map, decimal};
ghost use Rattle.std.specs.Prelude.{vec_len, vec_capacity};
ghost use Rattle.sem_text.specs.Lines.{behind_blanks};
ghost use Rattle.sem_trace.specs.CallForms.{call_spelling};
ghost use Rattle.sem_trace.specs.Words.{key_word, place_word, object_words, call_words};

use crate::call_forms::{CallForm, CallKind};
use crate::message_forms::Form;
use sem_key::{Key, Object, Place};
use sem_msg::Call;
use sem_text::{put_number_behind, put_small_number};

/// Appends a blank and the word. There must be room for them.
#[inline(always)]
pub fn put_word(out: &mut Vec<u8>, word: &[u8])
    requires room { vec_len out.old + length word.now < vec_capacity out.old }
    ensures items { out.new.items ≡ out.old.items ++ 32 ∷ word.now }
    ensures len { vec_len out.new ≡ vec_len out.old + length word.now + 1 }
    ensures capacity { vec_capacity out.new ≡ vec_capacity out.old }
{
    out.push_reserved(b' ');
    for byte in word {
        out.push_reserved(*byte);
    }
}

/// Appends a blank and the number. There must be room for them.
#[inline(always)]
pub fn put_number_word(out: &mut Vec<u8>, value: u32)
    requires room { vec_len out.old + 11 ≤ vec_capacity out.old }
    ensures items { out.new.items ≡ out.old.items ++ 32 ∷ decimal value }
    ensures len { vec_len out.new ≤ vec_len out.old + 11 }
    ensures capacity { vec_capacity out.new ≡ vec_capacity out.old }
{
    put_number_behind(out, b' ', value);
}

/// Appends the numbers, each after a blank. There must be room for them.
#[inline(always)]
pub fn put_numbers(out: &mut Vec<u8>, values: &[u32])
    requires room { vec_len out.old + 11 * length values.now ≤ vec_capacity out.old }
    ensures items { out.new.items ≡ out.old.items ++ behind_blanks (map decimal values.now) }
    ensures len { vec_len out.new ≤ vec_len out.old + 11 * length values.now }
    ensures capacity { vec_capacity out.new ≡ vec_capacity out.old }
{
    for value in values {
        put_number_word(out, *value);
    }
}

/// Appends the name and then the numbers, each after a blank. There must be room for them.
#[inline(always)]
pub(crate) fn put_named(out: &mut Vec<u8>, name: &[u8], values: &[u32])
    requires room { vec_len out.old + length name.now + 11 * length values.now
        < vec_capacity out.old }
    ensures items { out.new.items ≡ out.old.items
        ++ behind_blanks (name.now ∷ map decimal values.now) }
    ensures len { vec_len out.new ≤ vec_len out.old + length name.now + 11 * length values.now
        + 1 }
    ensures capacity { vec_capacity out.new ≡ vec_capacity out.old }
{
    put_word(out, name);
    put_numbers(out, values);
}

// Appends a point and the number.
#[inline(always)]
fn put_part(out: &mut Vec<u8>, value: u32)
    requires few { value < 10000 }
    requires room { vec_len out.old + 5 ≤ vec_capacity out.old }
    ensures items { out.new.items ≡ out.old.items ++ 46 ∷ decimal value }
    ensures len { vec_len out.new ≤ vec_len out.old + 5 }
    ensures capacity { vec_capacity out.new ≡ vec_capacity out.old }
{
    out.push_reserved(b'.');
    put_small_number(out, value);
}

/// Appends the key. There must be room for it.
#[inline(always)]
pub(crate) fn put_key(out: &mut Vec<u8>, key: &Key)
    requires room { vec_len out.old + 19 ≤ vec_capacity out.old }
    ensures items { out.new.items ≡ out.old.items ++ key_word key.now }
    ensures len { vec_len out.new ≤ vec_len out.old + 19 }
    ensures capacity { vec_capacity out.new ≡ vec_capacity out.old }
{
    put_small_number(out, u32::from(key.pe));
    put_part(out, u32::from(key.vpe));
    put_part(out, u32::from(key.kind.number()));
    put_part(out, u32::from(key.number));
}

/// Appends a blank and the key. There must be room for them.
#[inline(never)]
pub fn put_key_word(out: &mut Vec<u8>, key: &Key)
    requires room { vec_len out.old + 20 ≤ vec_capacity out.old }
    ensures items { out.new.items ≡ out.old.items ++ 32 ∷ key_word key.now }
    ensures len { vec_len out.new ≤ vec_len out.old + 20 }
    ensures capacity { vec_capacity out.new ≡ vec_capacity out.old }
{
    out.push_reserved(b' ');
    put_key(out, key);
}

/// Appends the place. There must be room for it.
#[inline(always)]
pub(crate) fn put_place(out: &mut Vec<u8>, place: &Place)
    requires room { vec_len out.old + 14 ≤ vec_capacity out.old }
    ensures items { out.new.items ≡ out.old.items ++ place_word place.now }
    ensures len { vec_len out.new ≤ vec_len out.old + 14 }
    ensures capacity { vec_capacity out.new ≡ vec_capacity out.old }
{
    put_small_number(out, u32::from(place.pe));
    put_part(out, u32::from(place.vpe));
    put_part(out, u32::from(place.number));
}

/// Appends a blank and the place. There must be room for them.
#[inline(never)]
pub fn put_place_word(out: &mut Vec<u8>, place: &Place)
    requires room { vec_len out.old + 15 ≤ vec_capacity out.old }
    ensures items { out.new.items ≡ out.old.items ++ 32 ∷ place_word place.now }
    ensures len { vec_len out.new ≤ vec_len out.old + 15 }
    ensures capacity { vec_capacity out.new ≡ vec_capacity out.old }
{
    out.push_reserved(b' ');
    put_place(out, place);
}

/// Appends the words of the object, each after a blank. There must be room for them.
#[tactic(auto, unfolding(crate::specs::MessageForms::objects))]
pub fn put_object(out: &mut Vec<u8>, object: &Object)
    requires room { vec_len out.old + 47 ≤ vec_capacity out.old }
    ensures items { out.new.items ≡ out.old.items ++ behind_blanks (object_words object.now) }
    ensures len { vec_len out.new ≤ vec_len out.old + 47 }
    ensures capacity { vec_capacity out.new ≡ vec_capacity out.old }
{
    put_word(out, Form::of_object(object.kind()).name.as_bytes());
    match object {
        Object::Mem { base, len, rights } => put_numbers(out, &[*base, *len, u32::from(*rights)]),
        Object::Recv { slots } => put_number_word(out, u32::from(*slots)),
        Object::Send {
            gate,
            label,
            credits,
        } => {
            put_key_word(out, gate);
            put_numbers(out, &[*label, u32::from(*credits)]);
        }
        Object::Serv { name } => put_number_word(out, u32::from(*name)),
        Object::Sess { service, ident } => {
            put_key_word(out, service);
            put_number_word(out, u32::from(*ident));
        }
    }
}

// The name of the calls of that kind.
#[inline(always)]
fn name_of(kind: CallKind) -> &'static [u8]
    ensures name { result.now ≡ (call_spelling 1 kind).0 }
    ensures short { length result.now ≤ 8 }
{
    CallForm::of(kind).name
}

// Appends the name of the calls of that kind, and behind it the numbers.
macro_rules! put_form {
    ($out:ident, $kind:ident, $($number:ident),+) => {
        put_named($out, name_of(CallKind::$kind), &[$(u32::from(*$number)),+])
    };
}

/// Appends the words of the call, each after a blank. There must be room for them.
#[tactic(auto, unfolding(crate::specs::Forms::calls))]
pub fn put_call(out: &mut Vec<u8>, call: &Call)
    requires room { vec_len out.old + 64 ≤ vec_capacity out.old }
    ensures items { out.new.items ≡ out.old.items ++ behind_blanks (call_words call.now) }
    ensures len { vec_len out.new ≤ vec_len out.old + 64 }
    ensures capacity { vec_capacity out.new ≡ vec_capacity out.old }
{
    match call {
        Call::Derive {
            src,
            dst,
            off,
            len,
            rights,
        } => put_form!(out, Derive, src, dst, off, len, rights),
        Call::Gate {
            src,
            dst,
            label,
            credits,
        } => put_form!(out, Gate, src, dst, label, credits),
        Call::Obtain { dst, vpe, src } => put_form!(out, Obtain, dst, vpe, src),
        Call::Delegate { src, vpe, dst } => put_form!(out, Delegate, src, vpe, dst),
        Call::OpenSession { dst, name } => put_form!(out, OpenSession, dst, name),
        Call::AskOffer {
            dst,
            session,
            index,
        } => put_form!(out, AskOffer, dst, session, index),
        Call::Revoke { src } => put_form!(out, Revoke, src),
        Call::Bind { ep, src } => put_form!(out, Bind, ep, src),
        Call::Read { ep, off, len } => put_form!(out, Read, ep, off, len),
        Call::Write { ep, off, len } => put_form!(out, Write, ep, off, len),
        Call::Send { ep, len } => put_form!(out, Send, ep, len),
        Call::Credit { ep } => put_form!(out, Credit, ep),
        Call::Exit => put_word(out, name_of(CallKind::Exit)),
        Call::Clear { src } => put_form!(out, Clear, src),
    }
}
