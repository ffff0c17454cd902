// What can stand where in a line: the forms of `docs/texts.md`.

use crate::OutOfMemory;
use sem_trace::{
    CallForm, Form, KeyRole, LineForm, LineKind, Part, PlainKind, RootForm, Slot as Number,
    form_named,
};
use std::alloc::Global;

/// What belongs in one place of a line.
#[derive(Clone, Copy, Debug, PartialEq, Eq)]
pub enum Slot {
    /// That word.
    Fixed(&'static str),
    /// A number of a trace or a report.
    Number(Number),
    /// A number from `least` to `most`, and its meaning.
    Within(&'static str, u64, u64),
    /// A key.
    Key(&'static str),
    /// A place.
    Place,
    /// One of several words, which chooses what follows.
    Choice(Choice),
}

/// What a word chooses.
#[derive(Clone, Copy, Debug, PartialEq, Eq)]
pub enum Choice {
    Declaration,
    RootObject,
    Object,
    Call,
    Event,
    Message,
    Target,
    Consent,
    YesOrNo,
    Version,
    /// The outcome of an event.
    Outcome,
    AfterGrant,
    AfterCut,
    /// A line of file commands.
    FileLine,
    /// What a client does with a handle.
    FileAct,
}

const CODE: Slot = Slot::Number(Number::Code);

const VPE: Slot = Slot::Number(Number::Vpe);

const KERNELS: Slot = Slot::Number(Number::KernelCount);

const KERNEL: Slot = Slot::Number(Number::Kernel);

const FILE: Slot = Slot::Within("file", 0, 15);

const HANDLE: Slot = Slot::Within("handle", 0, 15);

const CLIENT: Slot = Slot::Within("client", 1, 63);

/// What a number means.
pub fn meaning(number: Number) -> &'static str {
    match number {
        Number::Selector => "selector",
        Number::ServiceName => "name of a service",
        Number::OfferIndex => "index of an offer",
        Number::Endpoint => "endpoint",
        Number::Rights => "mask of rights",
        Number::Base => "base",
        Number::Length => "length",
        Number::Offset => "offset",
        Number::Label => "label",
        Number::SlotCount => "number of slots",
        Number::Credits => "number of credits",
        Number::Vpe => "VPE",
        Number::Pe => "PE",
        Number::KernelCount => "number of kernels",
        Number::Kernel => "kernel",
        Number::Window => "number of messages",
        Number::Replies => "number of replies",
        Number::Code => "code",
        Number::Job => "number of a job",
        Number::CallNumber => "number of the call",
    }
}

/// The name of a choice, for a word that it does not have.
pub fn choice_name(choice: Choice) -> &'static str {
    match choice {
        Choice::Declaration => "declaration",
        Choice::RootObject | Choice::Object => "object",
        Choice::Call => "call",
        Choice::Event => "event",
        Choice::Message => "message",
        Choice::Target => "target",
        Choice::Consent => "answer of a VPE",
        Choice::YesOrNo => "yes or no",
        Choice::Version => "version",
        Choice::Outcome | Choice::AfterGrant | Choice::AfterCut => "outcome of an event",
        Choice::FileLine => "line of file commands",
        Choice::FileAct => "act of a client",
    }
}

/// The words of a choice.
pub fn choice_words(alloc: Global, choice: Choice) -> Result<Vec<&'static str>, OutOfMemory> {
    let mut words = Vec::new(alloc);
    match choice {
        Choice::Declaration => return line_names(alloc),
        Choice::Call => {
            for form in CallForm::all() {
                words.push(text(form.name))?;
            }
        }
        Choice::RootObject => {
            for form in RootForm::all() {
                words.push(text(form.name))?;
            }
        }
        Choice::Object => return form_names(alloc, Form::objects()),
        Choice::Target => return form_names(alloc, Form::targets()),
        Choice::Message => return form_names(alloc, Form::messages()),
        _ => {}
    }
    words.extend_from_slice(own_words(choice))?;
    Ok(words)
}

// The names of the forms.
fn form_names<K>(alloc: Global, forms: &[Form<K>]) -> Result<Vec<&'static str>, OutOfMemory> {
    let mut words = Vec::new(alloc);
    for form in forms {
        words.push(form.name)?;
    }
    Ok(words)
}

// The names of the lines after the second, those last that belong before all others.
fn line_names(alloc: Global) -> Result<Vec<&'static str>, OutOfMemory> {
    let mut words = Vec::new(alloc);
    for is_first in [false, true] {
        for form in LineForm::all(2) {
            if is_first_kind(form.kind) == is_first {
                words.push(text(form.name))?;
            }
        }
    }
    Ok(words)
}

// Whether lines of the kind belong before all others.
fn is_first_kind(kind: LineKind) -> bool {
    matches!(
        kind,
        LineKind::Plain(PlainKind::Kernels | PlainKind::Window)
    )
}

// The name as text.
fn text(name: &'static [u8]) -> &'static str {
    std::str::from_utf8(name).unwrap_or("")
}

// The words of a choice that no table of forms has.
fn own_words(choice: Choice) -> &'static [&'static str] {
    match choice {
        Choice::Event => &[
            "call", "resume", "upcall", "handle", "fetch", "flush", "kill",
        ],
        Choice::Consent => &["yes", "no", "drop"],
        Choice::YesOrNo => &["yes", "no"],
        Choice::Version => &["1", "2"],
        Choice::Outcome => &["grant", "cut", "reply"],
        Choice::AfterGrant => &["cut", "reply"],
        Choice::AfterCut => &["reply"],
        Choice::FileLine => &["file", "client", "do", "end", "kernels"],
        Choice::FileAct => &["open", "read", "write", "share", "close"],
        Choice::Declaration | Choice::RootObject | Choice::Object | Choice::Call => &[],
        Choice::Message | Choice::Target => &[],
    }
}

/// Appends what follows that word of a choice, the last first.
pub fn push_following(open: &mut Vec<Slot>, choice: Choice, word: &str) -> Result<(), OutOfMemory> {
    let name = word.as_bytes();
    match choice {
        Choice::Declaration => push_line(open, name)?,
        Choice::Call => {
            for form in CallForm::all() {
                if form.name == name {
                    push_numbers(open, form.slots)?;
                }
            }
        }
        Choice::RootObject => {
            for form in RootForm::all() {
                if form.name == name {
                    push_numbers(open, form.slots)?;
                }
            }
        }
        Choice::Object => push_parts(open, Form::objects(), name)?,
        Choice::Target => push_parts(open, Form::targets(), name)?,
        Choice::Message => push_parts(open, Form::messages(), name)?,
        _ => {}
    }
    for slot in own_following(choice, word).iter().rev() {
        open.push(*slot)?;
    }
    Ok(())
}

// Appends what follows the name of a line, the last first.
fn push_line(open: &mut Vec<Slot>, name: &[u8]) -> Result<(), OutOfMemory> {
    for form in LineForm::all(2) {
        if form.name == name {
            match form.kind {
                LineKind::Plain(_) => {}
                LineKind::Root => open.push(Slot::Choice(Choice::RootObject))?,
                LineKind::Call => open.push(Slot::Choice(Choice::Call))?,
            }
            push_numbers(open, form.slots)?;
        }
    }
    Ok(())
}

// Appends the numbers, the last first.
fn push_numbers(open: &mut Vec<Slot>, numbers: &[Number]) -> Result<(), OutOfMemory> {
    for number in numbers.iter().rev() {
        open.push(Slot::Number(*number))?;
    }
    Ok(())
}

// Appends the parts of the form of that name, the last first.
fn push_parts<K>(
    open: &mut Vec<Slot>,
    forms: &'static [Form<K>],
    name: &[u8],
) -> Result<(), OutOfMemory> {
    if let Some(form) = form_named(forms, name) {
        for part in form.parts.iter().rev() {
            open.push(slot_of(*part))?;
        }
    }
    Ok(())
}

// What belongs in the part.
fn slot_of(part: Part) -> Slot {
    match part {
        Part::Key(role) => Slot::Key(role_name(role)),
        Part::Place => Slot::Place,
        Part::Number(number) => Slot::Number(number),
        Part::Object => Slot::Choice(Choice::Object),
        Part::Target => Slot::Choice(Choice::Target),
        Part::YesOrNo => Slot::Choice(Choice::YesOrNo),
    }
}

// Whose key it is.
fn role_name(role: KeyRole) -> &'static str {
    match role {
        KeyRole::Parent => "parent",
        KeyRole::Child => "child",
        KeyRole::Gate => "gate",
        KeyRole::Service => "service",
    }
}

// What follows that word of a choice that no table of forms has.
fn own_following(choice: Choice, word: &str) -> &'static [Slot] {
    match choice {
        Choice::Event => event(word),
        Choice::Outcome | Choice::AfterGrant | Choice::AfterCut => outcome(word),
        Choice::FileLine => file_line(word),
        Choice::FileAct => file_act(word),
        Choice::Declaration | Choice::RootObject | Choice::Object | Choice::Call => &[],
        Choice::Message | Choice::Target => &[],
        Choice::Consent | Choice::YesOrNo | Choice::Version => &[],
    }
}

/// What may follow that word of a choice, or be left out.
pub fn may_follow(choice: Choice, word: &str) -> Option<Choice> {
    match (choice, word) {
        (Choice::Event, _) => Some(Choice::Outcome),
        (Choice::Outcome, "grant") => Some(Choice::AfterGrant),
        (Choice::Outcome | Choice::AfterGrant, "cut") => Some(Choice::AfterCut),
        _ => None,
    }
}

// What follows the name of a line of file commands.
fn file_line(word: &str) -> &'static [Slot] {
    match word {
        "file" => &[FILE, Slot::Within("number of extents", 1, 4)],
        "client" => &[CLIENT],
        "do" => &[CLIENT, Slot::Choice(Choice::FileAct)],
        "kernels" => &[KERNELS],
        _ => &[],
    }
}

// What follows the name of what a client does.
fn file_act(word: &str) -> &'static [Slot] {
    match word {
        "open" => &[HANDLE, FILE],
        "read" | "write" => &[
            HANDLE,
            Slot::Within("offset", 0, 16383),
            Slot::Within("length", 1, 16384),
        ],
        "share" => &[
            HANDLE,
            CLIENT,
            Slot::Within("number of what is given", 0, 15),
        ],
        "close" => &[HANDLE],
        _ => &[],
    }
}

// What follows the name of an event.
fn event(word: &str) -> &'static [Slot] {
    match word {
        "call" => &[
            VPE,
            Slot::Number(Number::CallNumber),
            Slot::Choice(Choice::Call),
        ],
        "resume" | "kill" => &[VPE],
        "upcall" => &[VPE, VPE, Slot::Choice(Choice::Consent)],
        "handle" | "fetch" | "flush" => &[KERNEL, Slot::Choice(Choice::Message)],
        _ => &[],
    }
}

// What follows the name of an outcome.
fn outcome(word: &str) -> &'static [Slot] {
    match word {
        "grant" => &[Slot::Key("parent"), Slot::Key("child")],
        "cut" => &[Slot::Key("root of the cut")],
        "reply" => &[VPE, CODE],
        _ => &[],
    }
}
