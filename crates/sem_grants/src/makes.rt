ghost use Rattle.std.specs.Prelude.{◌≡◌, ◌≤◌, ◌<◌, ◌++◌, length, map, slice_get, IfOk, OnOk};
ghost use Rattle.std.specs.Option.{option_to_list};
ghost use Rattle.sem_key.specs.declared.limits.TheConstants.{PES, VPES};
ghost use Rattle.sem_msg.specs.declared.limits.TheConstants.{SELECTORS};
ghost use Rattle.sem_msg.specs.Setup.{IsSetup};
ghost use Rattle.sem_machine.specs.Journals.{grants, made};
ghost use Rattle.sem_machine.specs.Journals.{root_keys_from, root_keys as root_keys_spec};

use sem_key::{Key, OutOfMemory};
use sem_msg::{Journal, Setup, VpeDecl};
use std::alloc::Global;

/// The made keys: those of roots and services, and the children of grants.
pub fn made_keys(alloc: Global, setup: &Setup, journal: &Journal) -> Result<Vec<Key>, OutOfMemory>
    ensures keys { IfOk result (λ keys. keys.items ≡ made setup.now journal.now.entries) }
    ensures valid { IsSetup setup.now }
{
    let mut keys = root_keys(alloc, setup)?;
    push_children(&mut keys, journal)?;
    Ok(keys)
}

// The keys of all roots and services.
fn root_keys(alloc: Global, setup: &Setup) -> Result<Vec<Key>, OutOfMemory>
    ensures keys { IfOk result (λ keys. keys.items ≡ root_keys_spec setup.now) }
    ensures valid { IsSetup setup.now }
{
    let mut keys = Vec::new(alloc);
    for decl in setup.vpes.as_slice() {
        push_roots(&mut keys, decl)?;
    }
    Ok(keys)
}

// Appends the keys of the roots of a VPE, which are numbered from 0.
fn push_roots(keys: &mut Vec<Key>, decl: &VpeDecl) -> Result<(), OutOfMemory>
    requires vpe { decl.now.vpe < VPES }
    requires pe { decl.now.pe < PES }
    requires few { length decl.now.roots ≤ SELECTORS }
    ensures { OnOk result (keys.new.items ≡ keys.old.items
        ++ root_keys_from decl.now 0 decl.now.roots) }
{
    for (number, root) in decl.roots.as_slice().iter().enumerate() {
        keys.push(Key {
            pe: decl.pe,
            vpe: decl.vpe,
            kind: root.object.kind(),
            number: number as u16,
        })?;
    }
    Ok(())
}

// Appends the children of the grants.
fn push_children(keys: &mut Vec<Key>, journal: &Journal) -> Result<(), OutOfMemory>
    ensures { OnOk result (keys.new.items ≡ keys.old.items
        ++ map (λ g. g.1) (grants journal.now.entries)) }
{
    for at in 0..journal.len() {
        push_child_at(keys, journal, at)?;
    }
    Ok(())
}

// Appends the child of the grant in the entry at that place, if there is one.
fn push_child_at(keys: &mut Vec<Key>, journal: &Journal, at: usize) -> Result<(), OutOfMemory>
    ensures { OnOk result (keys.new.items ≡ keys.old.items
        ++ map (λ g. g.1) (grants (option_to_list (slice_get journal.now.entries at)))) }
{
    let Some(entry) = journal.get(at) else {
        return Ok(());
    };
    if let Some((_, child)) = entry.grant {
        keys.push(child)?;
    }
    Ok(())
}
