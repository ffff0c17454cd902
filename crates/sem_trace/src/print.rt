// The lines of a trace. If memory is refused, each of these functions but `print_trace` may have
// appended a part.
ghost use Rattle.std.specs.Prelude.{◌≡◌, [], ◌∷◌, ◌++◌, length, map, flat_map, codes, decimal};
ghost use Rattle.std.specs.Prelude.{OnOk, OnErr};
ghost use Rattle.std.specs.List.{enumerate_from};
ghost use Rattle.sem_key.specs.MembershipTable.{owner_at};
ghost use Rattle.sem_key.specs.declared.limits.TheConstants.{PES};
ghost use Rattle.sem_text.specs.Lines.{behind_blanks, line, text};
ghost use Rattle.sem_trace.specs.Words.{call_words};
ghost use Rattle.sem_trace.specs.TraceText.{pe_line, vpe_line, root_line, offer_line, deny_line};
ghost use Rattle.sem_trace.specs.TraceText.{kill_line, window_lines, trace_lines, canonical};

use crate::line_forms::{
    CALL_LINE, DENY_LINE, END_LINE, KERNELS_LINE, KILL_LINE, OFFER_LINE, PE_LINE, ROOT_LINE,
    SERVICE_LINE, VPE_LINE, WINDOW_LINE,
};
use crate::push::{push_call, push_numbers, push_object};
use sem_key::{Membership, Object, OutOfMemory, PES};
use sem_msg::{Calls, Denies, Kills, Offers, Root, Roots, Setup, Vpes0};
use std::alloc::Global;

/// Appends the first words of a line: the name, and the numbers, each after a blank.
#[inline(always)]
pub fn push_start(out: &mut Vec<u8>, name: &[u8], values: &[u64]) -> Result<(), OutOfMemory>
    ensures ok { OnOk result (out.new.items ≡ out.old.items
        ++ (name.now ++ behind_blanks (map decimal values.now))) }
{
    out.extend_from_slice(name)?;
    push_numbers(out, values)
}

/// Appends a line: the name and the numbers.
#[inline(always)]
pub fn push_line(out: &mut Vec<u8>, name: &[u8], values: &[u64]) -> Result<(), OutOfMemory>
    ensures ok { OnOk result (out.new.items ≡ out.old.items
        ++ line (name.now ∷ map decimal values.now)) }
{
    push_start(out, name, values)?;
    Ok(out.push(b'\n')?)
}

// Appends the line of the PE, if a kernel owns it.
fn push_owner(out: &mut Vec<u8>, owners: &Membership, pe: u8) -> Result<(), OutOfMemory>
    ensures ok { OnOk result (out.new.items ≡ out.old.items
        ++ text (pe_line (pe, owner_at owners.now pe))) }
{
    match owners.owner(pe) {
        Some(kernel) => push_line(out, PE_LINE.name, &[u64::from(pe), u64::from(kernel)]),
        None => Ok(()),
    }
}

// Appends a line for each PE that a kernel owns.
fn push_owners(out: &mut Vec<u8>, owners: &Membership) -> Result<(), OutOfMemory>
    requires { length owners.now.owners ≡ PES }
    ensures ok { OnOk result (out.new.items ≡ out.old.items
        ++ text (flat_map pe_line (enumerate_from 0 owners.now.owners))) }
{
    for pe in 0..PES {
        push_owner(out, owners, pe as u8)?;
    }
    Ok(())
}

// Appends a line for each VPE.
fn push_vpes(out: &mut Vec<u8>, vpes: &Vpes0) -> Result<(), OutOfMemory>
    ensures ok { OnOk result (out.new.items ≡ out.old.items ++ text (map vpe_line vpes.now)) }
{
    for declared in vpes.as_slice() {
        let numbers = [u64::from(declared.vpe), u64::from(declared.pe)];
        push_line(out, VPE_LINE.name, &numbers)?;
    }
    Ok(())
}

// Appends the line of a root of the VPE.
fn push_root(out: &mut Vec<u8>, vpe: u16, root: &Root) -> Result<(), OutOfMemory>
    ensures ok { OnOk result (out.new.items ≡ out.old.items ++ line (root_line vpe root.now)) }
{
    let vpe = u64::from(vpe);
    let sel = u64::from(root.sel);
    match &root.object {
        Object::Serv { name } => push_line(out, SERVICE_LINE.name, &[vpe, sel, u64::from(*name)]),
        object => {
            push_start(out, ROOT_LINE.name, &[vpe, sel])?;
            push_object(out, object)?;
            Ok(out.push(b'\n')?)
        }
    }
}

// Appends a line for each root of the VPE.
fn push_roots(out: &mut Vec<u8>, vpe: u16, roots: &Roots) -> Result<(), OutOfMemory>
    ensures ok { OnOk result (out.new.items ≡ out.old.items
        ++ text (map (root_line vpe) roots.now)) }
{
    for root in roots.as_slice() {
        push_root(out, vpe, root)?;
    }
    Ok(())
}

// Appends a line for each root of each VPE.
fn push_all_roots(out: &mut Vec<u8>, vpes: &Vpes0) -> Result<(), OutOfMemory>
    ensures ok { OnOk result (out.new.items ≡ out.old.items
        ++ text (flat_map (λ d. map (root_line d.vpe) d.roots) vpes.now)) }
{
    for declared in vpes.as_slice() {
        push_roots(out, declared.vpe, &declared.roots)?;
    }
    Ok(())
}

// Appends a line for each offer.
fn push_offers(out: &mut Vec<u8>, offers: &Offers) -> Result<(), OutOfMemory>
    ensures ok { OnOk result (out.new.items ≡ out.old.items ++ text (map offer_line offers.now)) }
{
    for offer in offers.as_slice() {
        let numbers = [
            u64::from(offer.name),
            u64::from(offer.index),
            u64::from(offer.sel),
        ];
        push_line(out, OFFER_LINE.name, &numbers)?;
    }
    Ok(())
}

// Appends a line for each deny.
fn push_denies(out: &mut Vec<u8>, denies: &Denies) -> Result<(), OutOfMemory>
    ensures ok { OnOk result (out.new.items ≡ out.old.items ++ text (map deny_line denies.now)) }
{
    for deny in denies.as_slice() {
        push_line(out, DENY_LINE.name, &[u64::from(deny.0), u64::from(deny.1)])?;
    }
    Ok(())
}

// Appends a line for each kill.
fn push_kills(out: &mut Vec<u8>, kills: &Kills) -> Result<(), OutOfMemory>
    ensures ok { OnOk result (out.new.items ≡ out.old.items ++ text (map kill_line kills.now)) }
{
    for kill in kills.as_slice() {
        push_line(out, KILL_LINE.name, &[u64::from(kill.0), kill.1])?;
    }
    Ok(())
}

// Appends a line for each call of the VPE.
fn push_calls(out: &mut Vec<u8>, vpe: u16, calls: &Calls) -> Result<(), OutOfMemory>
    ensures ok { OnOk result (out.new.items ≡ out.old.items
        ++ text (map (λ c. codes "call" ∷ decimal vpe ∷ call_words c) calls.now)) }
{
    for call in calls.as_slice() {
        push_start(out, CALL_LINE.name, &[u64::from(vpe)])?;
        push_call(out, call)?;
        out.push(b'\n')?;
    }
    Ok(())
}

// Appends a line for each call of each VPE.
fn push_all_calls(out: &mut Vec<u8>, vpes: &Vpes0) -> Result<(), OutOfMemory>
    ensures ok { OnOk result (out.new.items ≡ out.old.items
        ++ text (flat_map (λ d. map (λ c. codes "call" ∷ decimal d.vpe ∷ call_words c) d.calls)
        vpes.now)) }
{
    for declared in vpes.as_slice() {
        push_calls(out, declared.vpe, &declared.calls)?;
    }
    Ok(())
}

// Appends the line that tells the version.
fn push_first(out: &mut Vec<u8>, setup: &Setup) -> Result<(), OutOfMemory>
    ensures ok { OnOk result (out.new.items ≡ out.old.items
        ++ line (codes "semper trace" ∷ decimal setup.now.version ∷ [])) }
{
    push_line(out, b"semper trace", &[u64::from(setup.version)])
}

// Appends the line that tells the window, in version 2.
fn push_window(out: &mut Vec<u8>, setup: &Setup) -> Result<(), OutOfMemory>
    ensures ok { OnOk result (out.new.items ≡ out.old.items ++ text (window_lines setup.now)) }
{
    if setup.version == 1 {
        Ok(())
    } else {
        push_line(out, WINDOW_LINE.name, &[u64::from(setup.window)])
    }
}

// Appends the lines that declare the kernels, PEs and VPEs.
fn push_members(out: &mut Vec<u8>, setup: &Setup) -> Result<(), OutOfMemory>
    ensures ok { OnOk result (out.new.items ≡ out.old.items
        ++ text ((codes "kernels" ∷ decimal setup.now.kernels ∷ []) ∷ window_lines setup.now
        ++ flat_map pe_line (enumerate_from 0 setup.now.owners.owners)
        ++ map vpe_line setup.now.vpes)) }
{
    push_line(out, KERNELS_LINE.name, &[u64::from(setup.kernels)])?;
    push_window(out, setup)?;
    push_owners(out, &setup.owners)?;
    push_vpes(out, &setup.vpes)
}

// Appends the lines of the roots, the offers, the denies and the kills.
fn push_terms(out: &mut Vec<u8>, setup: &Setup) -> Result<(), OutOfMemory>
    ensures ok { OnOk result (out.new.items ≡ out.old.items
        ++ text (flat_map (λ d. map (root_line d.vpe) d.roots) setup.now.vpes
        ++ map offer_line setup.now.offers ++ map deny_line setup.now.denies
        ++ map kill_line setup.now.kills)) }
{
    push_all_roots(out, &setup.vpes)?;
    push_offers(out, &setup.offers)?;
    push_denies(out, &setup.denies)?;
    push_kills(out, &setup.kills)
}

/// Appends the canonical text of the setup.
pub fn push_trace(out: &mut Vec<u8>, setup: &Setup) -> Result<(), OutOfMemory>
    ensures ok { OnOk result (out.new.items ≡ out.old.items ++ text (trace_lines setup.now)) }
{
    push_first(out, setup)?;
    push_members(out, setup)?;
    push_terms(out, setup)?;
    push_all_calls(out, &setup.vpes)?;
    push_line(out, END_LINE.name, &[])?;
    Ok(())
}

/// Appends the canonical text of the setup. If memory is refused, `out` is as before.
pub fn print_trace(alloc: Global, setup: &Setup, out: &mut Vec<u8>) -> Result<(), OutOfMemory>
    ensures ok { OnOk result (out.new.items ≡ out.old.items ++ canonical setup.now) }
    ensures err { OnErr result (out.new.items ≡ out.old.items) }
{
    let mut trace = Vec::new(alloc);
    push_trace(&mut trace, setup)?;
    out.extend_from_slice(&trace)
}
