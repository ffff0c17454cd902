// What earlier lines make wrong with a line.
ghost use Rattle.std.specs.Prelude.{◌≡◌, ℕ, ◌<◌, List, is_none};
ghost use Rattle.sem_key.specs.declared.limits.TheConstants.{VPES};
ghost use Rattle.sem_trace.specs.declared.declaration.Declaration.{Declaration as DeclarationData};
ghost use Rattle.sem_trace.specs.Earlier.{pe_in, roots_in, holds_at};
ghost use Rattle.sem_trace.specs.Context.{is_too_long as is_too_long_spec};
ghost use Rattle.sem_trace.specs.Context.{is_undeclared as is_undeclared_spec};
ghost use Rattle.sem_trace.specs.Context.{is_twice as is_twice_spec};
ghost use Rattle.sem_trace.specs.Context.{undeclared_word as undeclared_word_spec};
ghost use Rattle.sem_trace.specs.Context.{twice_word as twice_word_spec};
ghost use Rattle.sem_trace.specs.Forms.{at_word as at_word_spec};
ghost use Rattle.sem_trace.specs.Context.{is_call_too_many as is_call_too_many_spec, context_fault};
ghost use Rattle.sem_trace.specs.Ranges.{IsInRange};
ghost use Rattle.sem_reader.specs.Tells.{Tells, HasSizes};

use crate::tables::Tables;
use sem_msg::Root;
use sem_trace::{Cause, Declaration, LineFault};

/// The most calls of a trace.
const MOST_CALLS: u32 = 20000;

// The fault of that cause at a word.
fn at_word(word: u64, cause: Cause) -> LineFault
    ensures { result ≡ at_word_spec word cause }
{
    LineFault {
        cause,
        word: Some(word),
    }
}

// Whether one of the roots stands at the selector.
fn holds(roots: &[Root], sel: u8) -> bool
    ensures { result ≡ holds_at roots.now sel }
{
    roots.iter().any(|root| root.sel == sel)
}

// Whether the line declares memory that ends past 2 ^ 32.
fn is_too_long(d: &Declaration) -> bool
    ensures { result ≡ is_too_long_spec d.now }
{
    match *d {
        Declaration::Memory { base, len, .. } => u64::from(base) + u64::from(len) > 1 << 32,
        _ => false,
    }
}

impl Tables {
    // Whether no line declares the VPE.
    fn is_unknown(&self, vpe: u16) -> bool
        requires { vpe < VPES }
        ensures { (version kernels : ℕ) (ds : List DeclarationData) →
            Tells version kernels ds self.now → result ≡ is_none (pe_in ds vpe) }
    {
        self.pes[usize::from(vpe)].is_none()
    }

    // Whether the VPE holds something at the selector.
    fn holds_at(&self, vpe: u16, sel: u8) -> bool
        requires vpe { vpe < VPES }
        requires sizes { HasSizes self.now }
        ensures { (version kernels : ℕ) (ds : List DeclarationData) →
            Tells version kernels ds self.now → result ≡ holds_at (roots_in ds vpe) sel }
    {
        holds(self.roots[usize::from(vpe)].as_slice(), sel)
    }

    // Whether the line names something that no line declares.
    fn is_undeclared(&self, d: &Declaration) -> bool
        requires { IsInRange self.now.version self.now.owners.kernels d.now }
        ensures { (version kernels : ℕ) (ds : List DeclarationData) →
            Tells version kernels ds self.now → result ≡ is_undeclared_spec ds d.now }
    {
        match *d {
            Declaration::Kernels { .. }
            | Declaration::Window { .. }
            | Declaration::Pe { .. }
            | Declaration::End => false,
            Declaration::Vpe { pe, .. } => self.owners.owner(pe).is_none(),
            Declaration::Memory { vpe, .. }
            | Declaration::Receive { vpe, .. }
            | Declaration::Service { vpe, .. }
            | Declaration::Kill { vpe, .. }
            | Declaration::Call { vpe, .. } => self.is_unknown(vpe),
            Declaration::Offer { name, .. } => !self.named[usize::from(name)],
            Declaration::Deny { vpe, asker } => self.is_unknown(vpe) || self.is_unknown(asker),
        }
    }

    // Whether an earlier line says that already.
    fn is_twice(&self, d: &Declaration) -> bool
        requires range { IsInRange self.now.version self.now.owners.kernels d.now }
        requires sizes { HasSizes self.now }
        ensures { (version kernels : ℕ) (ds : List DeclarationData) →
            Tells version kernels ds self.now → result ≡ is_twice_spec ds d.now }
    {
        match *d {
            Declaration::Kernels { .. } => true,
            Declaration::Window { .. } => self.window.is_some(),
            Declaration::Pe { pe, .. } => self.owners.owner(pe).is_some(),
            Declaration::Vpe { vpe, pe } => {
                self.pes[usize::from(vpe)].is_some() || self.taken[usize::from(pe)]
            }
            Declaration::Memory { vpe, sel, .. } | Declaration::Receive { vpe, sel, .. } => {
                self.holds_at(vpe, sel)
            }
            Declaration::Service { vpe, sel, name } => {
                self.holds_at(vpe, sel) || self.named[usize::from(name)]
            }
            Declaration::Offer { name, index, .. } => { self.offers.contains_key(&(name, index)) }
            Declaration::Deny { vpe, asker } => self.denied.contains(&(vpe, asker)),
            Declaration::Kill { vpe, .. } => self.kills[usize::from(vpe)].is_some(),
            Declaration::Call { .. } | Declaration::End => false,
        }
    }

    // Whether it is one call too many.
    fn is_call_too_many(&self, d: &Declaration) -> bool
        ensures { (version kernels : ℕ) (ds : List DeclarationData) →
            Tells version kernels ds self.now → result ≡ is_call_too_many_spec ds d.now }
    {
        match d {
            Declaration::Call { .. } => self.call_number >= MOST_CALLS,
            _ => false,
        }
    }

    // The word that names what no line declares.
    fn undeclared_word(&self, d: &Declaration) -> u64
        requires { IsInRange self.now.version self.now.owners.kernels d.now }
        ensures { (version kernels : ℕ) (ds : List DeclarationData) →
            Tells version kernels ds self.now → result ≡ undeclared_word_spec ds d.now }
    {
        match *d {
            Declaration::Vpe { .. } => 2,
            Declaration::Deny { vpe, .. } => { if self.is_unknown(vpe) { 1 } else { 2 } }
            _ => 1,
        }
    }

    // The word that says what an earlier line says.
    fn twice_word(&self, d: &Declaration) -> u64
        requires range { IsInRange self.now.version self.now.owners.kernels d.now }
        requires sizes { HasSizes self.now }
        ensures { (version kernels : ℕ) (ds : List DeclarationData) →
            Tells version kernels ds self.now → result ≡ twice_word_spec ds d.now }
    {
        match *d {
            Declaration::Kernels { .. } | Declaration::Window { .. } => 0,
            Declaration::Pe { .. } | Declaration::Kill { .. } => 1,
            Declaration::Vpe { vpe, .. } => {
                if self.pes[usize::from(vpe)].is_some() {
                    1
                } else {
                    2
                }
            }
            Declaration::Service { vpe, sel, .. } => { if self.holds_at(vpe, sel) { 2 } else { 3 } }
            _ => 2,
        }
    }

    /// What earlier lines make wrong with the line. Takes no memory.
    #[tactic(auto, unfolding(sem_trace::specs::Context::context_fault))]
    pub(crate) fn fault(&self, d: &Declaration) -> Option<LineFault>
        requires range { IsInRange self.now.version self.now.owners.kernels d.now }
        requires sizes { HasSizes self.now }
        ensures { (version kernels : ℕ) (ds : List DeclarationData) →
            Tells version kernels ds self.now → result ≡ context_fault ds d.now }
    {
        if is_too_long(d) {
            Some(at_word(5, Cause::OutOfRange))
        } else if self.is_undeclared(d) {
            Some(at_word(self.undeclared_word(d), Cause::Undeclared))
        } else if self.is_twice(d) {
            Some(at_word(self.twice_word(d), Cause::Twice))
        } else if self.is_call_too_many(d) {
            Some(at_word(0, Cause::TooMany))
        } else {
            None
        }
    }
}
