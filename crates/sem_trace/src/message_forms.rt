// How messages are written, and the objects and the targets in them: the name of each, and the
// parts behind it.
ghost use Rattle.std.specs.Prelude.{◌≡◌, ℕ, List, [], map, MatchOption};
ghost use Rattle.std.specs.List.{All, Contains};
ghost use Rattle.sem_trace.specs.MessageForms.{objects, targets, messages, row_places};
ghost use Rattle.sem_trace.specs.MessageForms.{IsObjectRow, IsTargetRow, IsMessageRow};
ghost use Rattle.sem_trace.specs.MessageForms.{form_name, IsNoName};

use crate::forms::is;
use crate::slots::Slot;
use sem_key::Kind;

/// Whose key stands in a place.
#[derive(Clone, Copy, Debug, PartialEq, Eq)]
pub enum KeyRole {
    Parent,
    Child,
    Gate,
    Service,
}

/// What stands behind the name of a message, an object or a target.
#[derive(Clone, Copy, Debug, PartialEq, Eq)]
pub enum Part {
    Key(KeyRole),
    Place,
    Number(Slot),
    /// The name of an object and its parts.
    Object,
    /// The name of a target and its parts.
    Target,
    YesOrNo,
}

/// What a request to obtain asks for.
#[derive(Clone, Copy, Debug, PartialEq, Eq)]
pub enum TargetKind {
    Sel,
    Serv,
    Offer,
}

/// What a message says.
#[derive(Clone, Copy, Debug, PartialEq, Eq)]
pub enum MessageKind {
    ObtainReq,
    ObtainOk,
    ObtainNo,
    DelegateReq,
    DelegatePrepared,
    DelegateNo,
    Ack,
    Orphan,
    RevokeReq,
    RevokeDone,
    Unlink,
}

/// How something of a kind is written: its name, and the parts behind it.
#[derive(Clone, Copy, Debug)]
pub struct Form<K> {
    pub name: &'static str,
    pub kind: K,
    pub parts: &'static [Part],
}

const PARENT: Part = Part::Key(KeyRole::Parent);

const CHILD: Part = Part::Key(KeyRole::Child);

const SERVICE: Part = Part::Key(KeyRole::Service);

const VPE: Part = Part::Number(Slot::Vpe);

const SELECTOR: Part = Part::Number(Slot::Selector);

const CODE: Part = Part::Number(Slot::Code);

const JOB: Part = Part::Number(Slot::Job);

const MEMORY: [Part; 3] = [
    Part::Number(Slot::Base),
    Part::Number(Slot::Length),
    Part::Number(Slot::Rights),
];

const RECEIVE_GATE: [Part; 1] = [Part::Number(Slot::SlotCount)];

const SEND_GATE: [Part; 3] = [
    Part::Key(KeyRole::Gate),
    Part::Number(Slot::Label),
    Part::Number(Slot::Credits),
];

const NAMED_SERVICE: [Part; 1] = [Part::Number(Slot::ServiceName)];

const SESSION: [Part; 2] = [SERVICE, VPE];

const SELECTOR_TARGET: [Part; 2] = [VPE, SELECTOR];

const SERVICE_TARGET: [Part; 1] = [SERVICE];

const OFFER_TARGET: [Part; 2] = [SERVICE, Part::Number(Slot::OfferIndex)];

const OBTAIN_REQ: [Part; 2] = [Part::Place, Part::Target];

const OBTAIN_OK: [Part; 3] = [PARENT, CHILD, Part::Object];

const OBTAIN_NO: [Part; 2] = [Part::Place, CODE];

const DELEGATE_REQ: [Part; 4] = [PARENT, Part::Object, VPE, SELECTOR];

const DELEGATE_NO: [Part; 2] = [PARENT, CODE];

const ACK: [Part; 2] = [CHILD, Part::YesOrNo];

const REVOKE_REQ: [Part; 2] = [CHILD, JOB];

const REVOKE_DONE: [Part; 1] = [JOB];

const TWO_KEYS: [Part; 2] = [PARENT, CHILD];

static OBJECT_FORMS: [Form<Kind>; 5] = [
    Form {
        name: "mem",
        kind: Kind::Mem,
        parts: &MEMORY,
    },
    Form {
        name: "recv",
        kind: Kind::Recv,
        parts: &RECEIVE_GATE,
    },
    Form {
        name: "send",
        kind: Kind::Send,
        parts: &SEND_GATE,
    },
    Form {
        name: "serv",
        kind: Kind::Serv,
        parts: &NAMED_SERVICE,
    },
    Form {
        name: "sess",
        kind: Kind::Sess,
        parts: &SESSION,
    },
];

static TARGET_FORMS: [Form<TargetKind>; 3] = [
    Form {
        name: "sel",
        kind: TargetKind::Sel,
        parts: &SELECTOR_TARGET,
    },
    Form {
        name: "serv",
        kind: TargetKind::Serv,
        parts: &SERVICE_TARGET,
    },
    Form {
        name: "offer",
        kind: TargetKind::Offer,
        parts: &OFFER_TARGET,
    },
];

static MESSAGE_FORMS: [Form<MessageKind>; 11] = [
    Form {
        name: "obtain-req",
        kind: MessageKind::ObtainReq,
        parts: &OBTAIN_REQ,
    },
    Form {
        name: "obtain-ok",
        kind: MessageKind::ObtainOk,
        parts: &OBTAIN_OK,
    },
    Form {
        name: "obtain-no",
        kind: MessageKind::ObtainNo,
        parts: &OBTAIN_NO,
    },
    Form {
        name: "delegate-req",
        kind: MessageKind::DelegateReq,
        parts: &DELEGATE_REQ,
    },
    Form {
        name: "delegate-prepared",
        kind: MessageKind::DelegatePrepared,
        parts: &TWO_KEYS,
    },
    Form {
        name: "delegate-no",
        kind: MessageKind::DelegateNo,
        parts: &DELEGATE_NO,
    },
    Form {
        name: "ack",
        kind: MessageKind::Ack,
        parts: &ACK,
    },
    Form {
        name: "orphan",
        kind: MessageKind::Orphan,
        parts: &TWO_KEYS,
    },
    Form {
        name: "revoke-req",
        kind: MessageKind::RevokeReq,
        parts: &REVOKE_REQ,
    },
    Form {
        name: "revoke-done",
        kind: MessageKind::RevokeDone,
        parts: &REVOKE_DONE,
    },
    Form {
        name: "unlink",
        kind: MessageKind::Unlink,
        parts: &TWO_KEYS,
    },
];

impl Form<Kind> {
    /// The forms of all objects.
    #[inline]
    #[tactic(auto, unfolding(crate::specs::MessageForms::objects))]
    pub fn objects() -> &'static [Form<Kind>]
        ensures table { (version : ℕ) → map (row_places version []) result.now ≡ objects version }
        ensures rows { All IsObjectRow result.now }
    {
        &OBJECT_FORMS
    }

    /// The form of the objects of that kind.
    #[inline]
    #[tactic(auto, unfolding(crate::specs::MessageForms::objects))]
    pub fn of_object(kind: Kind) -> &'static Form<Kind>
        ensures row { IsObjectRow result.now }
        ensures kind { result.now.kind ≡ kind }
    {
        match kind {
            Kind::Mem => &OBJECT_FORMS[0],
            Kind::Recv => &OBJECT_FORMS[1],
            Kind::Send => &OBJECT_FORMS[2],
            Kind::Serv => &OBJECT_FORMS[3],
            Kind::Sess => &OBJECT_FORMS[4],
        }
    }
}

impl Form<TargetKind> {
    /// The forms of all targets.
    #[inline]
    #[tactic(auto, unfolding(crate::specs::MessageForms::targets))]
    pub fn targets() -> &'static [Form<TargetKind>]
        ensures table { (version : ℕ) → map (row_places version []) result.now ≡ targets version }
        ensures rows { All IsTargetRow result.now }
    {
        &TARGET_FORMS
    }

    /// The form of the targets of that kind.
    #[inline]
    #[tactic(auto, unfolding(crate::specs::MessageForms::targets))]
    pub fn of_target(kind: TargetKind) -> &'static Form<TargetKind>
        ensures row { IsTargetRow result.now }
        ensures kind { result.now.kind ≡ kind }
    {
        &TARGET_FORMS[kind as usize]
    }
}

impl Form<MessageKind> {
    /// The forms of all messages.
    #[inline]
    #[tactic(auto, unfolding(crate::specs::MessageForms::messages))]
    pub fn messages() -> &'static [Form<MessageKind>]
        ensures table { (version : ℕ) (words : List (List ℕ)) →
            map (row_places version words) result.now ≡ messages version words }
        ensures rows { All IsMessageRow result.now }
    {
        &MESSAGE_FORMS
    }

    /// The form of the messages of that kind.
    #[inline]
    #[tactic(auto, unfolding(crate::specs::MessageForms::messages))]
    pub fn of_message(kind: MessageKind) -> &'static Form<MessageKind>
        ensures row { IsMessageRow result.now }
        ensures kind { result.now.kind ≡ kind }
    {
        &MESSAGE_FORMS[kind as usize]
    }
}

/// The form of that name; none if no form has it.
#[inline]
pub fn form_named<K>(forms: &'static [Form<K>], name: &[u8]) -> Option<&'static Form<K>>
    ensures { MatchOption result (IsNoName (map form_name forms.now) name.now)
        (λ form. Contains forms.now form.now × (name.now ≡ form.now.name.now)) }
{
    for form in forms {
        if is(name, form.name.as_bytes()) {
            return Some(form);
        }
    }
    None
}
