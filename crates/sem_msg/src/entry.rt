ghost use Rattle.std.specs.Prelude.{◌≡◌, None, Some};
ghost use Rattle.sem_msg.specs.Codes.{code_number};

use crate::call::Call;
use crate::code::Code;
use crate::event::Event;
use crate::message::Message;
use sem_key::Key;

/// What a VPE answers to an ask.
#[derive(Clone, Copy, Debug, PartialEq, Eq)]
pub enum Consent {
    /// It consents.
    Yes,
    /// It denies.
    No,
    /// No call waits for the answer.
    Dropped,
}

/// What an event was about, besides its act.
#[derive(Clone, Copy, Debug, PartialEq, Eq)]
pub enum Detail {
    /// The call, and how many calls the VPE made before it.
    Called { index: u32, call: Call },
    /// The message, and the other kernel.
    Carried { peer: u32, message: Message },
    /// The VPE that asked, and the answer.
    Asked { asker: u16, answer: Consent },
    /// Nothing more.
    Nothing,
}

/// The reply to a call; 0 is success.
#[derive(Clone, Copy, Debug, PartialEq, Eq)]
pub struct Reply {
    pub vpe: u16,
    pub code: u8,
}

/// What a step of a kernel shows besides its event: who asked and what was answered, the parent and
/// the child of a grant, the key at which a revoke or a clear began, and the code of a reply.
#[derive(Clone, Copy, Debug, PartialEq, Eq)]
pub struct Outcome {
    pub asked: Option<(u16, Consent)>,
    pub grant: Option<(Key, Key)>,
    pub cut: Option<Key>,
    pub reply: Option<u8>,
}

impl Outcome {
    /// Nothing is shown.
    pub fn nothing() -> Outcome
        ensures { result ≡ record { asked = None; grant = None; cut = None; reply = None } }
    {
        Outcome {
            asked: None,
            grant: None,
            cut: None,
            reply: None,
        }
    }

    /// The call is answered with the code.
    pub fn answered(code: Code) -> Outcome
        ensures { result ≡ record {
          asked = None;
          grant = None;
          cut = None;
          reply = Some (code_number code);
        } }
    {
        Outcome {
            asked: None,
            grant: None,
            cut: None,
            reply: Some(code.number()),
        }
    }

    /// The asker got that answer, and the grant if there was one.
    pub fn asked(asker: u16, consent: Consent, grant: Option<(Key, Key)>) -> Outcome
        ensures { result ≡ record {
          asked = Some (asker, consent);
          grant = grant;
          cut = None;
          reply = None;
        } }
    {
        Outcome {
            asked: Some((asker, consent)),
            grant,
            cut: None,
            reply: None,
        }
    }

    /// A revoke or a clear begins at the key.
    pub fn cut(key: Key) -> Outcome
        ensures { result ≡ record { asked = None; grant = None; cut = Some key; reply = None } }
    {
        Outcome {
            asked: None,
            grant: None,
            cut: Some(key),
            reply: None,
        }
    }
}

/// What the journal keeps of an event.
#[derive(Clone, Copy, Debug, PartialEq, Eq)]
pub struct Entry {
    pub event: Event,
    pub detail: Detail,
    /// The parent and the child, if a capability was granted.
    pub grant: Option<(Key, Key)>,
    /// The key at which a revoke or a clear began.
    pub cut: Option<Key>,
    pub reply: Option<Reply>,
}
