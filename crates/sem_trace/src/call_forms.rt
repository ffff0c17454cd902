// The names of the calls and the numbers that each call has.
ghost use Rattle.std.specs.Prelude.{◌≡◌, ℕ, map};
ghost use Rattle.std.specs.List.{All};
ghost use Rattle.sem_trace.specs.Forms.{calls};
ghost use Rattle.sem_trace.specs.Slots.{form_of};
ghost use Rattle.sem_trace.specs.CallForms.{IsRow};

use crate::slots::Slot;

/// How a call is written: its name, and behind it the numbers of these slots.
#[derive(Clone, Copy, Debug)]
pub struct CallForm {
    pub name: &'static [u8],
    pub kind: CallKind,
    pub slots: &'static [Slot],
}

/// What a call does.
#[derive(Clone, Copy, Debug, PartialEq, Eq)]
pub enum CallKind {
    Derive,
    Gate,
    Obtain,
    Delegate,
    OpenSession,
    AskOffer,
    Revoke,
    Bind,
    Read,
    Write,
    Send,
    Credit,
    Exit,
    Clear,
}

// The form of a name, a kind and the slots behind the name.
macro_rules! form {
    ($name:literal, $kind:ident, [$($slot:ident),*]) => {
        CallForm {
            name: $name,
            kind: CallKind::$kind,
            slots: &[$(Slot::$slot),*],
        }
    };
}

static CALL_FORMS: [CallForm; 14] = [
    form!(
        b"derive",
        Derive,
        [Selector, Selector, Offset, Length, Rights]
    ),
    form!(b"gate", Gate, [Selector, Selector, Label, Credits]),
    form!(b"obtain", Obtain, [Selector, Vpe, Selector]),
    form!(b"delegate", Delegate, [Selector, Vpe, Selector]),
    form!(b"open", OpenSession, [Selector, ServiceName]),
    form!(b"ask", AskOffer, [Selector, Selector, OfferIndex]),
    form!(b"revoke", Revoke, [Selector]),
    form!(b"bind", Bind, [Endpoint, Selector]),
    form!(b"read", Read, [Endpoint, Offset, Length]),
    form!(b"write", Write, [Endpoint, Offset, Length]),
    form!(b"send", Send, [Endpoint, Length]),
    form!(b"credit", Credit, [Endpoint]),
    form!(b"exit", Exit, []),
    form!(b"clear", Clear, [Selector]),
];

impl CallForm {
    /// The forms of all calls.
    #[inline]
    #[tactic(auto, unfolding(crate::specs::Forms::calls))]
    pub fn all() -> &'static [CallForm]
        ensures table { (version : ℕ) → map (form_of version) result.now ≡ calls version }
        ensures rows { All IsRow result.now }
    {
        &CALL_FORMS
    }

    /// The form of the calls of that kind.
    #[inline]
    #[tactic(auto, unfolding(crate::specs::Forms::calls))]
    pub fn of(kind: CallKind) -> &'static CallForm
        ensures kind { result.now.kind ≡ kind }
        ensures row { IsRow result.now }
    {
        &CALL_FORMS[kind as usize]
    }
}
