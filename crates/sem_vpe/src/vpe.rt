ghost use Rattle.std.specs.Prelude.{◌≡◌, ◌+◌, ◌<◌, ◌≤◌, ◌↔◌, [], ◌∷◌, ◌++◌, length, drop};
ghost use Rattle.std.specs.Prelude.{slice_get, slice_index_or, IsTrue, IfOk, IsErr, OnOk, OnErr};
ghost use Rattle.std.specs.Prelude.{false, nat_lt, if◌then◌else◌};
ghost use Rattle.sem_key.specs.Lists.{put};
ghost use Rattle.sem_msg.specs.declared.state.Slot.TheVariants.{Free, Held, Promised};
ghost use Rattle.sem_msg.specs.VpeRows.{is_taken, root_held, start_row};
ghost use Rattle.sem_vpe.specs.VpeTable.{IsVpeRow};
ghost use Rattle.sem_vpe.specs.Starting.{IsStartable};

use crate::fault::{Numbers, Occupied};
use crate::queue;
use circular_buffer::HeapCircularBuffer;
use sem_key::{Key, NUMBERS, OutOfMemory, PES, VPES};
use sem_msg::{ASKS, Ask, Root, SELECTORS, Slot, VpeDecl};
use std::alloc::Global;
use std::marker::Model;

/// What is kept of a VPE of this kernel. Only `new` takes memory.
#[derive(Debug, Drop)]
pub struct Vpe {
    alive: bool,
    // The slots, by selector.
    slots: Vec<Slot>,
    next_number: u16,
    next_call: u32,
    // The waiting asks, the oldest at the front.
    asks: HeapCircularBuffer<Ask>,
}

impl Model for Vpe {
    ghost use Rattle.std.specs.Prelude.{◌≡◌};
    ghost use Rattle.sem_msg.specs.declared.limits.TheConstants.{ASKS};
    ghost use Rattle.sem_msg.specs.Rows.{VpeRow};
    ghost use Rattle.sem_vpe.specs.VpeTable.{IsVpeRow};

    ghost Value = { VpeRow };

    ghost view = { λ v. record {
      alive = v.alive;
      slots = v.slots.items;
      next_number = v.next_number;
      next_call = v.next_call;
      asks = v.asks.items;
    } };

    ghost invariant = { λ v. IsVpeRow (record {
      alive = v.alive;
      slots = v.slots.items;
      next_number = v.next_number;
      next_call = v.next_call;
      asks = v.asks.items;
    })
        × (v.asks.capacity ≡ ASKS) };
}

impl Vpe {
    /// A VPE at the start: alive, with its roots in the order of their lines.
    pub fn new(alloc: Global, decl: &VpeDecl) -> Result<Self, OutOfMemory>
        requires { IsStartable decl.now }
        ensures start { IfOk result (λ vpe. vpe ≡ start_row decl.now) }
        ensures row { IfOk result IsVpeRow }
    {
        let mut vpe = Vpe {
            alive: true,
            slots: vec![in alloc; Slot::Free; SELECTORS]?,
            next_number: 0,
            next_call: 0,
            asks: HeapCircularBuffer::with_capacity(alloc, ASKS)?,
        };
        for root in decl.roots.as_slice() {
            vpe.add_root(decl, root);
        }
        Ok(vpe)
    }

    pub fn alive(&self) -> bool
        ensures { result ≡ self.now.alive }
    {
        self.alive
    }

    /// The state of a selector.
    pub fn selector(&self, sel: u8) -> Slot
        ensures { result ≡ slice_index_or self.now.slots sel Free }
    {
        self.slots[usize::from(sel)]
    }

    /// How many calls were counted, which is the number of the next one.
    pub fn next_call(&self) -> u32
        ensures { result ≡ self.now.next_call }
    {
        self.next_call
    }

    /// How many numbers were drawn, which is the next one to draw.
    pub fn next_number(&self) -> u16
        ensures { result ≡ self.now.next_number }
    {
        self.next_number
    }

    /// How many asks wait, at most 128.
    pub fn asks(&self) -> usize
        ensures asks { result ≡ length self.now.asks }
        ensures few { result ≤ ASKS }
    {
        self.asks.len()
    }

    /// The oldest waiting ask; none if no ask waits.
    pub fn front_ask(&self) -> Option<Ask>
        ensures { result ≡ slice_get self.now.asks 0 }
    {
        self.asks.front().copied()
    }

    /// Promises a selector. If it is held or promised, nothing changes.
    pub fn promise(&mut self, sel: u8) -> Result<(), Occupied>
        ensures occupied { IsErr result
            ↔ IsTrue (is_taken (slice_index_or self.old.slots sel Free)) }
        ensures ok { OnOk result (self.new
            ≡ record self.old { slots = put Free self.old.slots sel Promised }) }
        ensures err { OnErr result (self.new ≡ self.old) }
        ensures row { IsVpeRow self.new }
    {
        match self.slots[usize::from(sel)] {
            Slot::Free => {
                self.set(sel, Slot::Promised);
                Ok(())
            }
            Slot::Held(_) | Slot::Promised => Err(Occupied),
        }
    }

    /// Puts a selector into that state.
    pub fn set(&mut self, sel: u8, state: Slot)
        ensures slots { self.new ≡ record self.old { slots = put Free self.old.slots sel state } }
        ensures row { IsVpeRow self.new }
    {
        self.slots[usize::from(sel)] = state;
    }

    /// Draws the next number. If all were drawn, nothing changes.
    pub fn draw(&mut self) -> Result<u16, Numbers>
        ensures numbers { IsErr result ↔ (NUMBERS ≤ self.old.next_number) }
        ensures number { IfOk result (λ number. number ≡ self.old.next_number) }
        ensures in_range { IfOk result (λ number. number < NUMBERS) }
        ensures ok { OnOk result (self.new
            ≡ record self.old { next_number = self.old.next_number + 1 }) }
        ensures err { OnErr result (self.new ≡ self.old) }
        ensures row { IsVpeRow self.new }
    {
        let number = self.next_number;
        if number >= NUMBERS {
            return Err(Numbers);
        }
        self.next_number = number + 1;
        Ok(number)
    }

    /// Appends an ask, unless the most that can wait are waiting.
    pub fn ask(&mut self, ask: &Ask)
        ensures asks { self.new
            ≡ record self.old {
              asks = (if nat_lt (length self.old.asks) ASKS
                  then self.old.asks ++ ask.now ∷ [] else self.old.asks);
            } }
        ensures row { IsVpeRow self.new }
    {
        if self.asks.len() < ASKS {
            queue::append(&mut self.asks, ask);
        }
    }

    /// Takes out the oldest ask; none if no ask waits.
    pub fn next_ask(&mut self) -> Option<Ask>
        ensures front { result ≡ slice_get self.old.asks 0 }
        ensures asks { self.new ≡ record self.old { asks = drop 1 self.old.asks } }
        ensures row { IsVpeRow self.new }
    {
        self.asks.pop_front()
    }

    pub fn advance(&mut self)
        requires { self.old.next_call < 4294967295 }
        ensures next_call { self.new ≡ record self.old { next_call = self.old.next_call + 1 } }
        ensures row { IsVpeRow self.new }
    {
        self.next_call += 1;
    }

    /// Makes the VPE dead.
    pub fn end(&mut self)
        ensures alive { self.new ≡ record self.old { alive = false } }
        ensures row { IsVpeRow self.new }
    {
        self.alive = false;
    }

    // Holds a root at its selector, under the next number.
    fn add_root(&mut self, decl: &VpeDecl, root: &Root)
        requires vpe { decl.now.vpe < VPES }
        requires pe { decl.now.pe < PES }
        requires number { self.old.next_number < NUMBERS }
        ensures root { self.new ≡ root_held decl.now root.now self.old }
        ensures row { IsVpeRow self.new }
    {
        let key = Key {
            pe: decl.pe,
            vpe: decl.vpe,
            kind: root.object.kind(),
            number: self.next_number,
        };
        self.slots[usize::from(root.sel)] = Slot::Held(key);
        self.next_number += 1;
    }
}
