// What a line says, from its first word on.
#![tactic(auto, unfolding(crate::specs::Forms::form_fault, crate::specs::Declarations::declaration))]

ghost use Rattle.std.specs.Prelude.{◌≡◌, ℕ, ◌<◌, ◌≤◌, ◌⊎◌, ◌∷◌, [], List, map, Some, codes};
ghost use Rattle.std.specs.Prelude.{decimal, IfOk, IfErr};
ghost use Rattle.std.specs.Result.{result_err};
ghost use Rattle.sem_key.specs.declared.limits.TheConstants.{VPES};
ghost use Rattle.sem_msg.specs.Versions.{most_kernels};
ghost use Rattle.sem_trace.specs.declared.declaration.Declaration.TheVariants.{Call as Calls};
ghost use Rattle.sem_trace.specs.TextLines.{words_of};
ghost use Rattle.sem_trace.specs.Forms.{form_fault, place_fault, word_fault, first_form};
ghost use Rattle.sem_trace.specs.Forms.{second_form, third_form, choice, root_objects, calls};
ghost use Rattle.sem_trace.specs.Forms.{lines, word_at};
ghost use Rattle.sem_trace.specs.Forms.Place.{Word};
ghost use Rattle.sem_trace.specs.Declarations.{number_at, call_from, declaration};
ghost use Rattle.sem_trace.specs.Refusal.{version_in};
ghost use Rattle.sem_trace.specs.Places.{Reads, CanStandIn, told_fault};
ghost use Rattle.sem_trace.specs.Ranges.{IsNode, IsInRange};
ghost use Rattle.sem_trace.specs.Readers.{ReadsWords, ReadsLine, IsWindowLine};
ghost use Rattle.sem_trace.specs.LineForms.{IsLineRow, IsRootRow, FitPlain, plain_with};
ghost use Rattle.sem_trace.specs.LineForms.{root_row, root_with, root_of};

use crate::cursor::Words;
use crate::declaration::Declaration;
use crate::fault::{Cause, LineFault};
use crate::forms::{is, kernel_count, window};
use crate::line_forms::{
    KERNELS_LINE, LineForm, LineKind, PlainKind, RootForm, RootKind, WINDOW_LINE,
};

// The place of the calls among the forms of the lines: most lines are calls.
const CALL_ROW: usize = 8;

impl Words<'_> {
    /// The next word, a version of the texts: 1 or 2.
    pub fn version(&mut self) -> Result<u8, Cause>
        ensures reads { Reads (Word (codes "1" ∷ codes "2" ∷ []) ∷ [])
            (λ n. decimal n ∷ []) self.old self.new result }
        ensures value { IfOk result (λ n. n ≡ number_at self.old 0) }
        ensures versions { IfOk result (λ n. (n ≡ 1) ⊎ (n ≡ 2)) }
    {
        let word = self.word()?;
        if is(word, b"1") {
            Ok(1)
        } else if is(word, b"2") {
            Ok(2)
        } else {
            Err(Cause::UnknownWord)
        }
    }
}

#[tactic(auto, unfolding(crate::specs::Forms::first_form))]
fn first(words: &mut Words<'_>) -> Result<u8, Cause>
    ensures fault { form_fault first_form words.old ≡ told_fault result words.new }
    ensures value { IfOk result (λ version. version ≡ version_in words.old) }
    ensures versions { IfOk result (λ version. (version ≡ 1) ⊎ (version ≡ 2)) }
{
    words.fixed(b"semper")?;
    words.fixed(b"trace")?;
    let version = words.version()?;
    words.no_more()?;
    Ok(version)
}

/// The version that the first line of a trace tells. Takes no memory.
pub fn read_first(line: &[u8]) -> Result<u8, LineFault>
    ensures fault { word_fault first_form (words_of line.now) ≡ result_err result }
    ensures value { IfOk result (λ version. version ≡ version_in (words_of line.now)) }
    ensures versions { IfOk result (λ version. (version ≡ 1) ⊎ (version ≡ 2)) }
{
    let mut words = Words::of(line);
    match first(&mut words) {
        Ok(version) => Ok(version),
        Err(cause) => Err(words.fault_in(line, cause)),
    }
}

#[tactic(auto, unfolding(crate::specs::Forms::second_form))]
fn second(words: &mut Words<'_>, version: u8) -> Result<u32, Cause>
    ensures fault { form_fault (second_form version) words.old ≡ told_fault result words.new }
    ensures value { IfOk result (λ kernels. kernels ≡ number_at words.old 1) }
    ensures least { IfOk result (λ kernels. 1 ≤ kernels) }
    ensures most { IfOk result (λ kernels. kernels ≤ most_kernels version) }
{
    words.fixed(KERNELS_LINE.name)?;
    let [kernels, ..] = words.last_numbers(&[kernel_count(version)])?;
    Ok(kernels as u32)
}

/// The number of kernels that the second line of a trace of the version tells. Takes no memory.
pub fn read_second(line: &[u8], version: u8) -> Result<u32, LineFault>
    ensures fault { word_fault (second_form version) (words_of line.now) ≡ result_err result }
    ensures value { IfOk result (λ kernels. kernels ≡ number_at (words_of line.now) 1) }
    ensures least { IfOk result (λ kernels. 1 ≤ kernels) }
    ensures most { IfOk result (λ kernels. kernels ≤ most_kernels version) }
{
    let mut words = Words::of(line);
    match second(&mut words, version) {
        Ok(kernels) => Ok(kernels),
        Err(cause) => Err(words.fault_in(line, cause)),
    }
}

#[tactic(auto, unfolding(crate::specs::Forms::third_form))]
fn third(words: &mut Words<'_>, version: u8) -> Result<Declaration, Cause>
    ensures fault { form_fault (third_form version) words.old ≡ told_fault result words.new }
    ensures value { IfOk result (λ d. d ≡ declaration words.old) }
    ensures window { IfOk result IsWindowLine }
    ensures ranges { (kernels : ℕ) → IfOk result (IsInRange version kernels) }
{
    words.fixed(WINDOW_LINE.name)?;
    let [window, ..] = words.last_numbers(&[window(version)])?;
    Ok(Declaration::Window {
        window: window as u32,
    })
}

/// The window that the third line of a trace of the version tells. Takes no memory.
pub fn read_third(line: &[u8], version: u8) -> Result<Declaration, LineFault>
    ensures fault { word_fault (third_form version) (words_of line.now) ≡ result_err result }
    ensures value { IfOk result (λ d. d ≡ declaration (words_of line.now)) }
    ensures window { IfOk result IsWindowLine }
    ensures ranges { (kernels : ℕ) → IfOk result (IsInRange version kernels) }
{
    let mut words = Words::of(line);
    match third(&mut words, version) {
        Ok(d) => Ok(d),
        Err(cause) => Err(words.fault_in(line, cause)),
    }
}

/// What a line after the second says, in a trace of the version with that many kernels. Takes no
/// memory.
pub fn read_declaration(line: &[u8], version: u8, kernels: u32) -> Result<Declaration, LineFault>
    requires { 1 ≤ kernels }
    ensures { ReadsLine version kernels (words_of line.now) result }
{
    let mut words = Words::of(line);
    match words.declaration(version, kernels) {
        Ok(d) => Ok(d),
        Err(cause) => Err(words.fault_in(line, cause)),
    }
}

impl Words<'_> {
    // What the words say.
    fn declaration(&mut self, version: u8, kernels: u32) -> Result<Declaration, Cause>
        requires { 1 ≤ kernels }
        ensures { ReadsWords version kernels self.old self.new result }
    {
        let name = self.word()?;
        let form = line_named(name, version)?;
        let numbers = self.slot_numbers(form.slots, version, kernels)?;
        match form.kind {
            LineKind::Plain(kind) => self.plain(kind, numbers),
            LineKind::Root => self.root(numbers[0] as u16, numbers[1] as u8),
            LineKind::Call => self.last_call(numbers[0] as u16, version),
        }
    }

    // What a line of that kind with these numbers says, if no word is left.
    fn plain(&mut self, kind: PlainKind, numbers: [u64; 5]) -> Result<Declaration, Cause>
        requires { FitPlain kind numbers }
        ensures fault { form_fault [] self.old ≡ told_fault result self.new }
        ensures value { IfOk result (λ d. d ≡ plain_with kind numbers) }
    {
        self.no_more()?;
        Ok(plain_of(kind, numbers))
    }

    // The last words, an object that the VPE holds at the selector.
    fn root(&mut self, vpe: u16, sel: u8) -> Result<Declaration, Cause>
        requires { vpe < VPES }
        ensures fault { form_fault (choice root_objects (word_at self.old 0)) self.old
            ≡ told_fault result self.new }
        ensures value { IfOk result (λ d. d ≡ root_of vpe sel self.old) }
        ensures ranges { (version kernels : ℕ) → IsNode version vpe →
            IfOk result (IsInRange version kernels) }
    {
        let name = self.word()?;
        let form = root_named(name)?;
        let numbers = self.slot_numbers(form.slots, 1, 1)?;
        self.no_more()?;
        Ok(object_of(vpe, sel, form.kind, numbers))
    }

    // The last words, a call of the VPE.
    fn last_call(&mut self, vpe: u16, version: u8) -> Result<Declaration, Cause>
        requires { vpe < VPES }
        ensures fault { form_fault (choice (calls version) (word_at self.old 0)) self.old
            ≡ told_fault result self.new }
        ensures value { IfOk result (λ d. d ≡ Calls vpe (call_from self.old)) }
        ensures ranges { (kernels : ℕ) → IsNode version vpe →
            IfOk result (IsInRange version kernels) }
    {
        let call = self.call(version)?;
        self.no_more()?;
        Ok(Declaration::Call { vpe, call })
    }
}

// The form of the lines of that name, in a text of the version.
#[inline]
fn line_named(name: &[u8], version: u8) -> Result<&'static LineForm, Cause>
    ensures name { IfOk result (λ form. name.now ≡ form.now.name.now) }
    ensures row { IfOk result (λ form. IsLineRow version form.now) }
    ensures fault { IfErr result (λ cause. (kernels : ℕ) (words : List (List ℕ)) →
        place_fault (Word (map (λ row. row.0) (lines version kernels words))) name.now
        ≡ Some cause) }
{
    let forms = LineForm::all(version);
    let call = &forms[CALL_ROW];
    if is(name, call.name) {
        return Ok(call);
    }
    for form in forms {
        if is(name, form.name) {
            return Ok(form);
        }
    }
    Err(Cause::UnknownWord)
}

// The form of the objects of that name.
#[inline]
fn root_named(name: &[u8]) -> Result<&'static RootForm, Cause>
    ensures name { IfOk result (λ form. name.now ≡ form.now.name.now) }
    ensures row { IfOk result (λ form. IsRootRow form.now) }
    ensures fault { IfErr result (λ cause.
        place_fault (Word (map (λ row. row.0) root_objects)) name.now ≡ Some cause) }
{
    let forms = RootForm::all();
    for form in forms {
        if is(name, form.name) {
            return Ok(form);
        }
    }
    Err(Cause::UnknownWord)
}

// What a line of that kind with these numbers says.
#[inline]
#[tactic(auto, using(crate::proofs::Nodes::few_vpes, crate::proofs::Nodes::few_kernels), unfolding(crate::specs::Forms::lines))]
fn plain_of(kind: PlainKind, numbers: [u64; 5]) -> Declaration
    requires { FitPlain kind numbers }
    ensures { result ≡ plain_with kind numbers }
{
    let [first, second, third, ..] = numbers;
    match kind {
        PlainKind::Kernels => Declaration::Kernels {
            kernels: first as u32,
        },
        PlainKind::Window => Declaration::Window {
            window: first as u32,
        },
        PlainKind::Pe => Declaration::Pe {
            pe: first as u8,
            kernel: second as u32,
        },
        PlainKind::Vpe => Declaration::Vpe {
            vpe: first as u16,
            pe: second as u8,
        },
        PlainKind::Service => Declaration::Service {
            vpe: first as u16,
            sel: second as u8,
            name: third as u8,
        },
        PlainKind::Offer => Declaration::Offer {
            name: first as u8,
            index: second as u8,
            sel: third as u8,
        },
        PlainKind::Deny => Declaration::Deny {
            vpe: first as u16,
            asker: second as u16,
        },
        PlainKind::Kill => Declaration::Kill {
            vpe: first as u16,
            replies: second,
        },
        PlainKind::End => Declaration::End,
    }
}

// The root of that kind with these numbers.
#[inline]
#[tactic(auto, unfolding(crate::specs::Forms::root_objects))]
fn object_of(vpe: u16, sel: u8, kind: RootKind, numbers: [u64; 5]) -> Declaration
    requires vpe { vpe < VPES }
    requires fit { CanStandIn (root_row kind).1 numbers }
    ensures { result ≡ root_with vpe sel kind numbers }
{
    let [first, second, third, ..] = numbers;
    match kind {
        RootKind::Memory => Declaration::Memory {
            vpe,
            sel,
            base: first as u32,
            len: second as u32,
            rights: third as u8,
        },
        RootKind::Receive => Declaration::Receive {
            vpe,
            sel,
            slots: first as u8,
        },
    }
}
