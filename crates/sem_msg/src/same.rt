// Comparing messages and entries.
ghost use Rattle.std.specs.Prelude.{◌≡◌, ◌↔◌, IsTrue};

use crate::entry::{Detail, Entry};
use crate::event::Event;
use crate::message::Message;
use sem_key::same_object;

/// Whether the messages are equal in all their parts.
pub fn same_message(one: &Message, other: &Message) -> bool
    ensures { IsTrue result ↔ (one.now ≡ other.now) }
{
    match one {
        Message::ObtainReq { place, target } => matches!(other,
            Message::ObtainReq { place: p, target: t } if place == p && target == t),
        Message::ObtainOk {
            parent,
            key,
            object,
        } => matches!(other,
            Message::ObtainOk { parent: p, key: k, object: o }
                if parent == p && key == k && same_object(object, o)),
        Message::ObtainNo { place, code } => matches!(other,
            Message::ObtainNo { place: p, code: c } if place == p && code == c),
        Message::DelegateReq {
            parent,
            object,
            vpe,
            sel,
        } => matches!(other,
            Message::DelegateReq { parent: p, object: o, vpe: v, sel: s }
                if parent == p && same_object(object, o) && vpe == v && sel == s),
        Message::DelegatePrepared { parent, key } => matches!(other,
            Message::DelegatePrepared { parent: p, key: k } if parent == p && key == k),
        Message::DelegateNo { parent, code } => matches!(other,
            Message::DelegateNo { parent: p, code: c } if parent == p && code == c),
        Message::Ack { key, yes } => matches!(other,
            Message::Ack { key: k, yes: y } if key == k && yes == y),
        Message::Orphan { parent, key } => matches!(other,
            Message::Orphan { parent: p, key: k } if parent == p && key == k),
        Message::RevokeReq { key, job } => matches!(other,
            Message::RevokeReq { key: k, job: j } if key == k && job == j),
        Message::RevokeDone { job } => matches!(other,
            Message::RevokeDone { job: j } if job == j),
        Message::Unlink { parent, key } => matches!(other,
            Message::Unlink { parent: p, key: k } if parent == p && key == k),
    }
}

/// Whether the entries are equal in all their parts.
pub fn same_entry(one: &Entry, other: &Entry) -> bool
    ensures { IsTrue result ↔ (one.now ≡ other.now) }
{
    same_event(one.event, other.event)
        && same_detail(&one.detail, &other.detail)
        && same_marks(one, other)
}

fn same_event(one: Event, other: Event) -> bool
    ensures { IsTrue result ↔ (one ≡ other) }
{
    one == other
}

// Whether the entries have the same grant, the same cut and the same reply.
fn same_marks(one: &Entry, other: &Entry) -> bool
    ensures { IsTrue result ↔ (one.now.grant ≡ other.now.grant)
        × (one.now.cut ≡ other.now.cut)
        × (one.now.reply ≡ other.now.reply) }
{
    one.grant == other.grant && one.cut == other.cut && one.reply == other.reply
}

// Whether the entries tell the same besides their events.
fn same_detail(one: &Detail, other: &Detail) -> bool
    ensures { IsTrue result ↔ (one.now ≡ other.now) }
{
    match one {
        Detail::Called { index, call } => matches!(other,
            Detail::Called { index: i, call: c } if index == i && call == c),
        Detail::Carried { peer, message } => matches!(other,
            Detail::Carried { peer: p, message: m } if peer == p && same_message(message, m)),
        Detail::Asked { asker, answer } => matches!(other,
            Detail::Asked { asker: v, answer: a } if asker == v && answer == a),
        Detail::Nothing => matches!(other, Detail::Nothing),
    }
}
