// Enters an accepted line into the tables.
ghost use Rattle.std.specs.Prelude.{◌≡◌, ℕ, ◌<◌, ◌≤◌, Some, List, [], ◌∷◌, ◌++◌, ◌+◌, true};
ghost use Rattle.std.specs.Prelude.{None, length, slice_index_or, slice_set, OnOk};
ghost use Rattle.sem_trace.specs.declared.declaration.Declaration.{Declaration as DeclarationData};
ghost use Rattle.sem_trace.specs.Context.{context_fault};
ghost use Rattle.sem_trace.specs.Ranges.{IsInRange};
ghost use Rattle.indexmap.specs.IndexMap as map;
ghost use Rattle.indexmap.specs.IndexSet.{Updates};
ghost use Rattle.sem_reader.specs.Pairs.{is_same_pair};
ghost use Rattle.sem_reader.specs.Tells.{Tells, HasSizes};

use crate::tables::Tables;
use indexmap::{IndexMap, IndexSet};
use sem_key::{Object, OutOfMemory};
use sem_msg::{Call, Calls, Root, Roots};
use sem_trace::Declaration;

// Appends a root to those of the VPE.
fn push_root(lists: &mut Vec<Roots>, vpe: u16, sel: u8, object: Object) -> Result<(), OutOfMemory>
    requires { vpe < length lists.old.items }
    ensures ok { OnOk result (lists.new.items
        ≡ slice_set lists.old.items vpe (slice_index_or lists.old.items vpe []
        ++ record { sel = sel; object = object } ∷ [])) }
{
    lists[usize::from(vpe)].push(Root { sel, object })
}

// Appends a call to those of the VPE.
fn push_call(lists: &mut Vec<Calls>, vpe: u16, call: Call) -> Result<(), OutOfMemory>
    requires { vpe < length lists.old.items }
    ensures ok { OnOk result (lists.new.items
        ≡ slice_set lists.old.items vpe (slice_index_or lists.old.items vpe [] ++ call ∷ [])) }
{
    lists[usize::from(vpe)].push(call)
}

// Notes what the service of that name offers under the index.
fn put_offer(
    offers: &mut IndexMap<(u8, u8), u8>,
    name: u8,
    index: u8,
    sel: u8,
) -> Result<(), OutOfMemory>
    ensures ok { OnOk result (map.Updates is_same_pair offers.old offers.new (
      name,
      index,
    ) (Some sel)) }
{
    offers.insert((name, index), sel)?;
    Ok(())
}

// Notes that the VPE denies the other.
fn put_deny(denied: &mut IndexSet<(u16, u16)>, vpe: u16, asker: u16) -> Result<(), OutOfMemory>
    ensures ok { OnOk result (Updates is_same_pair denied.old denied.new (vpe, asker) true) }
{
    denied.insert((vpe, asker))?;
    Ok(())
}

impl Tables {
    /// Enters what a line says; nothing may be wrong with it.
    pub(crate) fn enter(&mut self, d: Declaration) -> Result<(), OutOfMemory>
        requires range { IsInRange self.old.version self.old.owners.kernels d }
        requires sizes { HasSizes self.old }
        requires few { self.old.call_number ≤ 20000 }
        ensures ok { OnOk result ((version kernels : ℕ) (ds : List DeclarationData) →
            Tells version kernels ds self.old → context_fault ds d ≡ None →
            Tells version kernels (ds ++ d ∷ []) self.new) }
        ensures sizes { OnOk result (HasSizes self.new) }
    {
        match d {
            Declaration::Kernels { .. } => {}
            Declaration::Window { window } => self.window = Some(window),
            Declaration::End => {}
            Declaration::Pe { pe, kernel } => {
                let _ = self.owners.set(pe, kernel);
            }
            Declaration::Vpe { vpe, pe } => {
                self.pes[usize::from(vpe)] = Some(pe);
                self.taken[usize::from(pe)] = true;
            }
            Declaration::Memory {
                vpe,
                sel,
                base,
                len,
                rights,
            } => push_root(&mut self.roots, vpe, sel, Object::Mem { base, len, rights })?,
            Declaration::Receive { vpe, sel, slots } => {
                push_root(&mut self.roots, vpe, sel, Object::Recv { slots })?;
            }
            Declaration::Service { vpe, sel, name } => {
                push_root(&mut self.roots, vpe, sel, Object::Serv { name })?;
                self.named[usize::from(name)] = true;
            }
            Declaration::Offer { name, index, sel } => {
                put_offer(&mut self.offers, name, index, sel)?;
            }
            Declaration::Deny { vpe, asker } => put_deny(&mut self.denied, vpe, asker)?,
            Declaration::Kill { vpe, replies } => self.kills[usize::from(vpe)] = Some(replies),
            Declaration::Call { vpe, call } => {
                push_call(&mut self.calls, vpe, call)?;
                self.call_number += 1;
            }
        }
        Ok(())
    }
}
