ghost use Rattle.std.specs.Prelude.{◌≡◌};
ghost use Rattle.sem_key.specs.KeyName.{packed};
ghost use Rattle.sem_msg.specs.Message.{Fits};
ghost use Rattle.sem_msg.specs.declared.message.Message.TheVariants.{ObtainReq};
ghost use Rattle.sem_wire.specs.Records.{blank, packed_place as place_word_spec, record_of};
ghost use Rattle.sem_wire.specs.Records.{message_rows as rows_of_spec};
ghost use Rattle.sem_wire.specs.Records.{with_object as with_object_spec};

use crate::rows::{RECORD, Rows, spell};
use sem_key::{Key, Kind, Object, Place, keyed, pack};
use sem_msg::{Message, Target};

/// The record of a message. The message must fit.
pub fn encode(message: &Message) -> [u8; RECORD]
    requires { Fits message.now }
    ensures { result ≡ record_of message.now }
{
    spell(&rows_of(message))
}

// Rows with only the number of the message in them.
fn tagged(tag: u8) -> Rows
    ensures { result ≡ record blank { tag = tag } }
{
    Rows {
        tag,
        form: 0,
        vpe: 0,
        index: 0,
        after_index: 0,
        first: 0,
        second: 0,
        job: 0,
        kind: 0,
        after_kind: 0,
        main: 0,
        more: 0,
        last: 0,
        after_last: 0,
    }
}

// The word of a place: that of a key, with 0 in place of the kind.
fn place_word(place: Place) -> u64
    ensures { result ≡ place_word_spec place }
{
    pack(keyed(place, Kind::Mem)) - (1 << 32)
}

// The numbers of the message.
fn rows_of(message: &Message) -> Rows
    ensures rows { result ≡ rows_of_spec message.now }
    ensures gap { result.after_kind ≡ 0 }
{
    match *message {
        Message::ObtainReq { place, target } => obtain_req(place, target),
        Message::ObtainOk {
            parent,
            key,
            object,
        } => with_object(&object, two_keys(2, parent, key)),
        Message::ObtainNo { place, code } => answer(3, code, place_word(place)),
        Message::DelegateReq {
            parent,
            object,
            vpe,
            sel,
        } => Rows {
            vpe,
            index: u16::from(sel),
            first: pack(parent),
            ..with_object(&object, tagged(4))
        },
        Message::DelegatePrepared { parent, key } => two_keys(5, parent, key),
        Message::DelegateNo { parent, code } => answer(6, code, pack(parent)),
        Message::Ack { key, yes } => answer(7, u8::from(yes), pack(key)),
        Message::Orphan { parent, key } => two_keys(8, parent, key),
        Message::RevokeReq { key, job } => Rows {
            first: pack(key),
            job,
            ..tagged(9)
        },
        Message::RevokeDone { job } => Rows { job, ..tagged(10) },
        Message::Unlink { parent, key } => two_keys(11, parent, key),
    }
}

// The numbers of a request for a capability.
fn obtain_req(place: Place, target: Target) -> Rows
    ensures rows { result ≡ rows_of_spec (ObtainReq place target) }
    ensures gap { result.after_kind ≡ 0 }
{
    let rows = Rows {
        first: place_word(place),
        ..tagged(1)
    };
    match target {
        Target::Sel { vpe, sel } => Rows {
            form: 1,
            vpe,
            index: u16::from(sel),
            ..rows
        },
        Target::Serv { service } => Rows {
            form: 2,
            second: pack(service),
            ..rows
        },
        Target::Offer { service, index } => Rows {
            form: 3,
            index: u16::from(index),
            second: pack(service),
            ..rows
        },
    }
}

// The numbers of a refusal or an acknowledgement: its code or yes, and its key or place.
fn answer(tag: u8, form: u8, first: u64) -> Rows
    ensures { result ≡ record blank { tag = tag; form = form; first = first } }
{
    Rows {
        form,
        first,
        ..tagged(tag)
    }
}

// The numbers of a message that has a parent and a key.
fn two_keys(tag: u8, parent: Key, key: Key) -> Rows
    ensures { result ≡ record blank { tag = tag; first = packed parent; second = packed key } }
{
    Rows {
        first: pack(parent),
        second: pack(key),
        ..tagged(tag)
    }
}

// The rows, with the numbers of the object added.
fn with_object(object: &Object, rows: Rows) -> Rows
    ensures { result ≡ with_object_spec object.now rows }
{
    match *object {
        Object::Mem { base, len, rights } => Rows {
            kind: 1,
            main: u64::from(base),
            more: u64::from(len),
            last: u64::from(rights),
            ..rows
        },
        Object::Recv { slots } => Rows {
            kind: 2,
            main: u64::from(slots),
            ..rows
        },
        Object::Send {
            gate,
            label,
            credits,
        } => Rows {
            kind: 3,
            main: pack(gate),
            more: u64::from(label),
            last: u64::from(credits),
            ..rows
        },
        Object::Serv { name } => Rows {
            kind: 4,
            main: u64::from(name),
            ..rows
        },
        Object::Sess { service, ident } => Rows {
            kind: 5,
            main: pack(service),
            more: u64::from(ident),
            ..rows
        },
    }
}
