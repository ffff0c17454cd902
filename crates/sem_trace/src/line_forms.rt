// The names of the lines after the second, the numbers that each line has, and what follows them.
ghost use Rattle.std.specs.Prelude.{◌≡◌, ℕ, List, map};
ghost use Rattle.std.specs.List.{All};
ghost use Rattle.sem_trace.specs.Forms.{lines, root_objects};
ghost use Rattle.sem_trace.specs.LineForms.{line_form, root_form, IsLineRow, IsRootRow};

use crate::slots::Slot;

/// What a line declares that its numbers tell.
#[derive(Clone, Copy, Debug, PartialEq, Eq)]
pub enum PlainKind {
    Kernels,
    Window,
    Pe,
    Vpe,
    Service,
    Offer,
    Deny,
    Kill,
    End,
}

/// What a line declares, and with it what follows its numbers.
#[derive(Clone, Copy, Debug, PartialEq, Eq)]
pub enum LineKind {
    /// Nothing follows.
    Plain(PlainKind),
    /// An object follows.
    Root,
    /// A call follows.
    Call,
}

/// How a line begins: its name, and behind it the numbers of these slots.
#[derive(Clone, Copy, Debug)]
pub struct LineForm {
    pub name: &'static [u8],
    pub kind: LineKind,
    pub slots: &'static [Slot],
}

/// How many kernels there are.
pub const KERNELS_LINE: LineForm = LineForm {
    name: b"kernels",
    kind: LineKind::Plain(PlainKind::Kernels),
    slots: &[Slot::KernelCount],
};

/// A kernel owns a PE.
pub const PE_LINE: LineForm = LineForm {
    name: b"pe",
    kind: LineKind::Plain(PlainKind::Pe),
    slots: &[Slot::Pe, Slot::Kernel],
};

/// A VPE is on a PE.
pub const VPE_LINE: LineForm = LineForm {
    name: b"vpe",
    kind: LineKind::Plain(PlainKind::Vpe),
    slots: &[Slot::Vpe, Slot::Pe],
};

/// A VPE holds an object.
pub const ROOT_LINE: LineForm = LineForm {
    name: b"root",
    kind: LineKind::Root,
    slots: &[Slot::Vpe, Slot::Selector],
};

/// A VPE holds a service.
pub const SERVICE_LINE: LineForm = LineForm {
    name: b"service",
    kind: LineKind::Plain(PlainKind::Service),
    slots: &[Slot::Vpe, Slot::Selector, Slot::ServiceName],
};

/// A service offers a capability.
pub const OFFER_LINE: LineForm = LineForm {
    name: b"offer",
    kind: LineKind::Plain(PlainKind::Offer),
    slots: &[Slot::ServiceName, Slot::OfferIndex, Slot::Selector],
};

/// A VPE denies what another asks.
pub const DENY_LINE: LineForm = LineForm {
    name: b"deny",
    kind: LineKind::Plain(PlainKind::Deny),
    slots: &[Slot::Vpe, Slot::Vpe],
};

/// A VPE is killed.
pub const KILL_LINE: LineForm = LineForm {
    name: b"kill",
    kind: LineKind::Plain(PlainKind::Kill),
    slots: &[Slot::Vpe, Slot::Replies],
};

/// A VPE makes a call.
pub const CALL_LINE: LineForm = LineForm {
    name: b"call",
    kind: LineKind::Call,
    slots: &[Slot::Vpe],
};

/// Nothing more is said.
pub const END_LINE: LineForm = LineForm {
    name: b"end",
    kind: LineKind::Plain(PlainKind::End),
    slots: &[],
};

/// How many messages a link holds.
pub const WINDOW_LINE: LineForm = LineForm {
    name: b"window",
    kind: LineKind::Plain(PlainKind::Window),
    slots: &[Slot::Window],
};

static LINE_FORMS: [LineForm; 11] = [
    KERNELS_LINE,
    PE_LINE,
    VPE_LINE,
    ROOT_LINE,
    SERVICE_LINE,
    OFFER_LINE,
    DENY_LINE,
    KILL_LINE,
    CALL_LINE,
    END_LINE,
    WINDOW_LINE,
];

impl LineForm {
    /// The forms of the lines after the second, in a text of the version.
    #[inline]
    #[tactic(auto, unfolding(crate::specs::Forms::lines))]
    pub fn all(version: u8) -> &'static [LineForm]
        ensures table { (kernels : ℕ) (words : List (List ℕ)) →
            map (line_form version kernels words) result.now ≡ lines version kernels words }
        ensures rows { All (IsLineRow version) result.now }
    {
        if version == 1 {
            &LINE_FORMS[..10]
        } else {
            &LINE_FORMS
        }
    }
}

/// What a root is.
#[derive(Clone, Copy, Debug, PartialEq, Eq)]
pub enum RootKind {
    Memory,
    Receive,
}

/// How an object of a root is written: its name, and behind it the numbers of these slots.
#[derive(Clone, Copy, Debug)]
pub struct RootForm {
    pub name: &'static [u8],
    pub kind: RootKind,
    pub slots: &'static [Slot],
}

/// Memory.
pub const MEMORY_ROOT: RootForm = RootForm {
    name: b"mem",
    kind: RootKind::Memory,
    slots: &[Slot::Base, Slot::Length, Slot::Rights],
};

/// A receive gate.
pub const RECEIVE_ROOT: RootForm = RootForm {
    name: b"recv",
    kind: RootKind::Receive,
    slots: &[Slot::SlotCount],
};

static ROOT_FORMS: [RootForm; 2] = [MEMORY_ROOT, RECEIVE_ROOT];

impl RootForm {
    /// The forms of the objects of roots.
    #[inline]
    #[tactic(auto, unfolding(crate::specs::Forms::root_objects))]
    pub fn all() -> &'static [RootForm]
        ensures table { map root_form result.now ≡ root_objects }
        ensures rows { All IsRootRow result.now }
    {
        &ROOT_FORMS
    }
}
