// Objects, targets and messages, read from the left.
#![tactic(auto, unfolding(sem_trace::specs::Forms::form_fault, sem_trace::specs::MessageForms::objects, sem_trace::specs::MessageForms::targets, sem_trace::specs::MessageForms::messages, sem_trace::specs::MessageForms::message_form))]

ghost use Rattle.std.specs.Prelude.{◌≡◌, ℕ, ◌≤◌, [], ◌∷◌, length};
ghost use Rattle.std.specs.List.{All};
ghost use Rattle.sem_trace.specs.declared.message_forms.MessageKind.TheVariants.{Unlink};
ghost use Rattle.sem_trace.specs.MessageForms.{objects, object_parts, object_row, targets};
ghost use Rattle.sem_trace.specs.MessageForms.{target_parts, target_row, messages, message_parts};
ghost use Rattle.sem_trace.specs.MessageForms.{message_row, name_at};
ghost use Rattle.sem_trace.specs.Ranges.{IsKeyInText};
ghost use Rattle.sem_trace.specs.Words.{key_word, object_words};
ghost use Rattle.sem_journal.specs.EntryRanges.{ObjectFits, TargetFits, MessageFits};
ghost use Rattle.sem_journal.specs.EntryText.{target_words, message_words};
ghost use Rattle.sem_journal.specs.PartValues.{IsPlain, ReadsValue, ReadsValues, ValuesFit};
ghost use Rattle.sem_journal.specs.PartValues.{parts_words};
ghost use Rattle.sem_journal.specs.Readers.{ReadsVpe, ReadsKeys, ReadsYesOrNo, ReadsObject};
ghost use Rattle.sem_journal.specs.Readers.{ReadsTarget, ReadsMessage};

use crate::parts::{MOST_PARTS, PartValue};
use sem_key::{Key, Kind, Object};
use sem_msg::{Message, Target};
use sem_trace::{Cause, Form, MessageKind, Part, TargetKind, Words, form_named, is, node};

// What the part holds. It must be a part of that kind.
macro_rules! held {
    ($part:ident, $kind:ident) => {
        match $part {
            PartValue::$kind(value) => *value,
            _ => unreachable!(),
        }
    };
}

// The next word, a VPE.
pub(crate) fn vpe(words: &mut Words<'_>, version: u8) -> Result<u16, Cause>
    ensures { ReadsVpe version words.old words.new result }
{
    let vpe = words.number(node(version))?;
    Ok(vpe as u16)
}

// The next two words, both keys.
pub(crate) fn two_keys(words: &mut Words<'_>, version: u8) -> Result<(Key, Key), Cause>
    ensures { ReadsKeys version words.old words.new result }
{
    let first = words.key(version)?;
    let second = words.key(version)?;
    Ok((first, second))
}

// The next words, a part of an object or of a target.
fn plain_part(words: &mut Words<'_>, version: u8, part: Part) -> Result<PartValue, Cause>
    requires { IsPlain part }
    ensures { ReadsValue version part words.old words.new result }
{
    match part {
        Part::Key(_) => Ok(PartValue::Key(words.key(version)?)),
        Part::Number(slot) => Ok(PartValue::Number(words.number(slot.range(version, 1))?)),
        _ => unreachable!(),
    }
}

// The next words, those parts of an object or of a target, 4 at most.
fn plain_parts(
    words: &mut Words<'_>,
    version: u8,
    parts: &[Part],
) -> Result<[PartValue; MOST_PARTS], Cause>
    requires few { length parts.now ≤ 4 }
    requires plain { All IsPlain parts.now }
    ensures { ReadsValues version parts.now words.old words.new result }
{
    let mut values = [PartValue::YesOrNo(false); MOST_PARTS];
    for (place, kind) in parts.iter().enumerate() {
        values[place] = plain_part(words, version, *kind)?;
    }
    Ok(values)
}

// The object of that kind with these parts.
fn object_from(kind: Kind, values: &[PartValue; MOST_PARTS]) -> Object
    requires { (version : ℕ) × ValuesFit version (object_parts kind) values.now }
    ensures words { object_words result
        ≡ name_at (objects 1) (object_row kind) ∷ parts_words (object_parts kind) values.now }
    ensures fits { (version : ℕ) → ValuesFit version (object_parts kind) values.now
        → ObjectFits version result }
{
    let [first, second, third, _] = values;
    match kind {
        Kind::Mem => Object::Mem {
            base: held!(first, Number) as u32,
            len: held!(second, Number) as u32,
            rights: held!(third, Number) as u8,
        },
        Kind::Recv => Object::Recv {
            slots: held!(first, Number) as u8,
        },
        Kind::Send => Object::Send {
            gate: held!(first, Key),
            label: held!(second, Number) as u32,
            credits: held!(third, Number) as u8,
        },
        Kind::Serv => Object::Serv {
            name: held!(first, Number) as u8,
        },
        Kind::Sess => Object::Sess {
            service: held!(first, Key),
            ident: held!(second, Number) as u16,
        },
    }
}

// The next words, an object.
fn object(words: &mut Words<'_>, version: u8) -> Result<Object, Cause>
    ensures { ReadsObject version words.old words.new result }
{
    let name = words.word()?;
    let Some(form) = form_named(Form::objects(), name) else {
        return Err(Cause::UnknownWord);
    };
    let values = plain_parts(words, version, form.parts)?;
    Ok(object_from(form.kind, &values))
}

// The target of that kind with these parts.
fn target_from(kind: TargetKind, values: &[PartValue; MOST_PARTS]) -> Target
    requires { (version : ℕ) × ValuesFit version (target_parts kind) values.now }
    ensures words { target_words result
        ≡ name_at (targets 1) (target_row kind) ∷ parts_words (target_parts kind) values.now }
    ensures fits { (version : ℕ) → ValuesFit version (target_parts kind) values.now
        → TargetFits version result }
{
    let [first, second, ..] = values;
    match kind {
        TargetKind::Sel => Target::Sel {
            vpe: held!(first, Number) as u16,
            sel: held!(second, Number) as u8,
        },
        TargetKind::Serv => Target::Serv {
            service: held!(first, Key),
        },
        TargetKind::Offer => Target::Offer {
            service: held!(first, Key),
            index: held!(second, Number) as u8,
        },
    }
}

// The next words, a target.
fn target(words: &mut Words<'_>, version: u8) -> Result<Target, Cause>
    ensures { ReadsTarget version words.old words.new result }
{
    let name = words.word()?;
    let Some(form) = form_named(Form::targets(), name) else {
        return Err(Cause::UnknownWord);
    };
    let values = plain_parts(words, version, form.parts)?;
    Ok(target_from(form.kind, &values))
}

// The next word, yes or no.
fn yes_or_no(words: &mut Words<'_>) -> Result<bool, Cause>
    ensures { ReadsYesOrNo words.old words.new result }
{
    let answer = words.word()?;
    if is(answer, b"yes") {
        Ok(true)
    } else if is(answer, b"no") {
        Ok(false)
    } else {
        Err(Cause::UnknownWord)
    }
}

// The next words, a part of a message.
fn part(words: &mut Words<'_>, version: u8, part: Part) -> Result<PartValue, Cause>
    ensures { ReadsValue version part words.old words.new result }
{
    match part {
        Part::Key(_) => Ok(PartValue::Key(words.key(version)?)),
        Part::Place => Ok(PartValue::Place(words.place(version)?)),
        Part::Number(slot) => Ok(PartValue::Number(words.number(slot.range(version, 1))?)),
        Part::Object => Ok(PartValue::Object(object(words, version)?)),
        Part::Target => Ok(PartValue::Target(target(words, version)?)),
        Part::YesOrNo => Ok(PartValue::YesOrNo(yes_or_no(words)?)),
    }
}

// The next words, those parts of a message, 4 at most.
fn parts(
    words: &mut Words<'_>,
    version: u8,
    parts: &[Part],
) -> Result<[PartValue; MOST_PARTS], Cause>
    requires { length parts.now ≤ 4 }
    ensures { ReadsValues version parts.now words.old words.new result }
{
    let mut values = [PartValue::YesOrNo(false); MOST_PARTS];
    for (place, kind) in parts.iter().enumerate() {
        values[place] = part(words, version, *kind)?;
    }
    Ok(values)
}

// The message of that kind, which has a parent and a key and nothing else.
fn of_two_keys(kind: MessageKind, parent: Key, key: Key) -> Message
    requires { message_parts kind ≡ message_parts Unlink }
    ensures words { message_words result
        ≡ name_at (messages 1 []) (message_row kind) ∷ key_word parent ∷ key_word key ∷ [] }
    ensures fits { (version : ℕ) → IsKeyInText version parent → IsKeyInText version key
        → MessageFits version result }
{
    match kind {
        MessageKind::DelegatePrepared => Message::DelegatePrepared { parent, key },
        MessageKind::Orphan => Message::Orphan { parent, key },
        MessageKind::Unlink => Message::Unlink { parent, key },
        _ => unreachable!(),
    }
}

// The message of that kind with these parts.
fn message_from(kind: MessageKind, values: &[PartValue; MOST_PARTS]) -> Message
    requires { (version : ℕ) × ValuesFit version (message_parts kind) values.now }
    ensures words { message_words result
        ≡ name_at (messages 1 []) (message_row kind) ∷ parts_words (message_parts kind) values.now }
    ensures fits { (version : ℕ) → ValuesFit version (message_parts kind) values.now
        → MessageFits version result }
{
    let [first, second, third, fourth] = values;
    match kind {
        MessageKind::ObtainReq => Message::ObtainReq {
            place: held!(first, Place),
            target: held!(second, Target),
        },
        MessageKind::ObtainOk => Message::ObtainOk {
            parent: held!(first, Key),
            key: held!(second, Key),
            object: held!(third, Object),
        },
        MessageKind::ObtainNo => Message::ObtainNo {
            place: held!(first, Place),
            code: held!(second, Number) as u8,
        },
        MessageKind::DelegateReq => Message::DelegateReq {
            parent: held!(first, Key),
            object: held!(second, Object),
            vpe: held!(third, Number) as u16,
            sel: held!(fourth, Number) as u8,
        },
        MessageKind::DelegateNo => Message::DelegateNo {
            parent: held!(first, Key),
            code: held!(second, Number) as u8,
        },
        MessageKind::Ack => Message::Ack {
            key: held!(first, Key),
            yes: held!(second, YesOrNo),
        },
        MessageKind::RevokeReq => Message::RevokeReq {
            key: held!(first, Key),
            job: held!(second, Number) as u32,
        },
        MessageKind::RevokeDone => Message::RevokeDone {
            job: held!(first, Number) as u32,
        },
        MessageKind::DelegatePrepared | MessageKind::Orphan | MessageKind::Unlink => {
            of_two_keys(kind, held!(first, Key), held!(second, Key))
        }
    }
}

/// The next words, a message.
pub(crate) fn message(words: &mut Words<'_>, version: u8) -> Result<Message, Cause>
    ensures { ReadsMessage version words.old words.new result }
{
    let name = words.word()?;
    let Some(form) = form_named(Form::messages(), name) else {
        return Err(Cause::UnknownWord);
    };
    let values = parts(words, version, form.parts)?;
    Ok(message_from(form.kind, &values))
}
