ghost use Rattle.std.specs.Prelude.{◌≡◌, ◌<◌, ◌≤◌, ◌↔◌, [], ◌∷◌, ◌++◌, length, slice_get};
ghost use Rattle.std.specs.Prelude.{slice_index_or, false, IsTrue, IfOk, IfSome, IsErr, OnOk};
ghost use Rattle.std.specs.Prelude.{OnErr};
ghost use Rattle.sem_msg.specs.declared.state.Slot.TheVariants.{Held};
ghost use Rattle.sem_msg.specs.VpeRows.{row, is_alive, slot as slot_spec, is_taken, call_counted};
ghost use Rattle.sem_msg.specs.VpeRows.{drawn, with_slot, promised, freed, asked, ask_taken, died};
ghost use Rattle.sem_vpe.specs.VpeTable.{IsOurs, IsVpeRow, IsVpeTable, slot_key};
ghost use Rattle.sem_vpe.specs.Starting.{IsAsDeclared, start_place, start_table};

use crate::fault::{Numbers, Occupied};
use crate::vpe::Vpe;
use sem_key::{Key, NUMBERS, OutOfMemory, VPES};
use sem_msg::{ASKS, Ask, Setup, Slot};
use std::alloc::Global;
use std::marker::Model;

/// What a kernel keeps of its VPEs. Every call about a VPE needs a VPE of this kernel. Only `new`
/// takes memory.
#[derive(Debug, Drop)]
pub struct Vpes {
    // The VPEs, by number; none for the VPEs of other kernels.
    places: Vec<Option<Vpe>>,
}

impl Model for Vpes {
    ghost use Rattle.sem_vpe.specs.VpeTable.{VpeTable, IsVpeTable};
    ghost use Rattle.sem_vpe.specs.Stored.{kept_table};

    ghost Value = { VpeTable };

    ghost view = { λ s. kept_table s.places.items };

    ghost invariant = { λ s. IsVpeTable (kept_table s.places.items) };
}

impl Vpes {
    /// The VPEs of a kernel at the start. It takes all the memory that they need.
    pub fn new(alloc: Global, setup: &Setup, kernel: u32) -> Result<Self, OutOfMemory>
        ensures start { IfOk result (λ vpes. vpes ≡ start_table setup.now kernel) }
        ensures declared { IfOk result (λ vpes. IsAsDeclared setup.now kernel vpes) }
        ensures table { IfOk result IsVpeTable }
    {
        setup.keeps_its_rules();
        let mut places = Vec::new(alloc);
        for vpe in 0..VPES {
            places.push(started(alloc, setup, kernel, vpe)?)?;
        }
        Ok(Vpes { places })
    }

    /// Whether the VPE is alive.
    pub fn alive(&self, vpe: u16) -> bool
        requires { IsOurs self.now vpe }
        ensures alive { result ≡ is_alive self.now.rows vpe }
        ensures table { IsVpeTable self.now }
    {
        self.kept(vpe).alive()
    }

    /// The state of a selector.
    pub fn selector(&self, vpe: u16, sel: u8) -> Slot
        requires { IsOurs self.now vpe }
        ensures { result ≡ slot_spec self.now.rows vpe sel }
    {
        self.kept(vpe).selector(sel)
    }

    /// The key that the selector of the VPE holds; none if it holds none.
    pub fn held_key(&self, vpe: u16, sel: u8) -> Option<Key>
        requires { IsOurs self.now vpe }
        ensures { result ≡ slot_key (slot_spec self.now.rows vpe sel) }
    {
        match self.selector(vpe, sel) {
            Slot::Held(key) => Some(key),
            Slot::Free | Slot::Promised => None,
        }
    }

    /// How many calls of the VPE were counted.
    pub fn next_call(&self, vpe: u16) -> u32
        requires { IsOurs self.now vpe }
        ensures { result ≡ (row self.now.rows vpe).next_call }
    {
        self.kept(vpe).next_call()
    }

    /// How many numbers were drawn for the keys of the VPE.
    pub fn next_number(&self, vpe: u16) -> u16
        requires { IsOurs self.now vpe }
        ensures { result ≡ (row self.now.rows vpe).next_number }
    {
        self.kept(vpe).next_number()
    }

    /// How many asks wait for the VPE, at most 128.
    pub fn asks(&self, vpe: u16) -> usize
        requires { IsOurs self.now vpe }
        ensures asks { result ≡ length (row self.now.rows vpe).asks }
        ensures few { result ≤ ASKS }
    {
        self.kept(vpe).asks()
    }

    /// The oldest ask that waits for the VPE; none if no ask waits.
    pub fn front_ask(&self, vpe: u16) -> Option<Ask>
        requires { IsOurs self.now vpe }
        ensures { result ≡ slice_get (row self.now.rows vpe).asks 0 }
    {
        self.kept(vpe).front_ask()
    }

    /// Promises a selector. If it is held or promised, nothing changes.
    pub fn promise(&mut self, vpe: u16, sel: u8) -> Result<(), Occupied>
        requires { IsOurs self.old vpe }
        ensures occupied { IsErr result ↔ IsTrue (is_taken (slot_spec self.old.rows vpe sel)) }
        ensures ok { OnOk result (self.new
            ≡ record self.old { rows = promised vpe sel self.old.rows }) }
        ensures err { OnErr result (self.new ≡ self.old) }
    {
        let Some(kept) = &mut self.places[usize::from(vpe)] else {
            unreachable!()
        };
        kept.promise(sel)
    }

    /// Lets a selector hold the capability of that key.
    pub fn fill(&mut self, vpe: u16, sel: u8, key: Key)
        requires { IsOurs self.old vpe }
        ensures { self.new ≡ record self.old { rows = with_slot vpe sel (Held key) self.old.rows } }
    {
        let Some(kept) = &mut self.places[usize::from(vpe)] else {
            unreachable!()
        };
        kept.set(sel, Slot::Held(key));
    }

    /// Makes a selector free.
    pub fn release(&mut self, vpe: u16, sel: u8)
        requires { IsOurs self.old vpe }
        ensures { self.new ≡ record self.old { rows = freed vpe sel self.old.rows } }
    {
        let Some(kept) = &mut self.places[usize::from(vpe)] else {
            unreachable!()
        };
        kept.set(sel, Slot::Free);
    }

    /// Draws the next number, 0 to 4095. If all 4,096 were drawn, nothing changes.
    pub fn draw(&mut self, vpe: u16) -> Result<u16, Numbers>
        requires { IsOurs self.old vpe }
        ensures numbers { IsErr result ↔ (NUMBERS ≤ (row self.old.rows vpe).next_number) }
        ensures number { IfOk result (λ number. number ≡ (row self.old.rows vpe).next_number) }
        ensures in_range { IfOk result (λ number. number < NUMBERS) }
        ensures ok { OnOk result (self.new ≡ record self.old { rows = drawn vpe self.old.rows }) }
        ensures err { OnErr result (self.new ≡ self.old) }
    {
        let Some(kept) = &mut self.places[usize::from(vpe)] else {
            unreachable!()
        };
        kept.draw()
    }

    /// Appends an ask to those that wait for the VPE, unless 128 wait.
    pub fn ask(&mut self, vpe: u16, ask: Ask)
        requires { IsOurs self.old vpe }
        ensures asked { self.new ≡ record self.old { rows = asked vpe ask self.old.rows } }
        ensures appended { length (row self.old.rows vpe).asks < ASKS →
            (row self.new.rows vpe).asks ≡ (row self.old.rows vpe).asks ++ ask ∷ [] }
    {
        let Some(kept) = &mut self.places[usize::from(vpe)] else {
            unreachable!()
        };
        kept.ask(&ask);
    }

    /// Takes out the oldest ask that waits for the VPE. If no ask waits, returns none and changes
    /// nothing.
    pub fn next_ask(&mut self, vpe: u16) -> Option<Ask>
        requires { IsOurs self.old vpe }
        ensures front { result ≡ slice_get (row self.old.rows vpe).asks 0 }
        ensures taken { self.new ≡ record self.old { rows = ask_taken vpe self.old.rows } }
    {
        let Some(kept) = &mut self.places[usize::from(vpe)] else {
            unreachable!()
        };
        kept.next_ask()
    }

    /// Counts a call of the VPE.
    ///
    /// Fewer than 4,294,967,295 calls may have been counted.
    pub fn advance(&mut self, vpe: u16)
        requires ours { IsOurs self.old vpe }
        requires few { (row self.old.rows vpe).next_call < 4294967295 }
        ensures { self.new ≡ record self.old { rows = call_counted vpe self.old.rows } }
    {
        let Some(kept) = &mut self.places[usize::from(vpe)] else {
            unreachable!()
        };
        kept.advance();
    }

    /// Makes the VPE dead. Its selectors and its asks stay.
    pub fn end(&mut self, vpe: u16)
        requires { IsOurs self.old vpe }
        ensures { self.new ≡ record self.old { rows = died vpe self.old.rows } }
    {
        let Some(kept) = &mut self.places[usize::from(vpe)] else {
            unreachable!()
        };
        kept.end();
    }

    #[cfg(test)]
    pub fn is_ours(&self, vpe: u16) -> bool
        ensures { result ≡ slice_index_or self.now.ours vpe false }
    {
        match self.places.get(usize::from(vpe)) {
            Some(place) => place.is_some(),
            None => false,
        }
    }

    fn kept(&self, vpe: u16) -> &Vpe
        requires { IsOurs self.now vpe }
        ensures row { result.now ≡ row self.now.rows vpe }
        ensures table { IsVpeTable self.now }
    {
        let Some(kept) = &self.places[usize::from(vpe)] else {
            unreachable!()
        };
        kept
    }
}

// A VPE at the start, if it belongs to the kernel.
fn started(alloc: Global, setup: &Setup, kernel: u32, vpe: u16) -> Result<Option<Vpe>, OutOfMemory>
    ensures place { IfOk result (λ place. place ≡ start_place setup.now kernel vpe) }
    ensures row { IfOk result (λ place. IfSome place IsVpeRow) }
{
    match setup.own_decl(kernel, vpe) {
        Some(decl) => Ok(Some(Vpe::new(alloc, decl)?)),
        None => Ok(None),
    }
}
