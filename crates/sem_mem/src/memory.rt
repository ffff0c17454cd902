ghost use Rattle.std.specs.Prelude.{◌≡◌, ◌+◌, ◌≤◌, [], ℕ, Some, if◌then◌else◌, IfOk, OnOk, OnErr};
ghost use Rattle.sem_key.specs.declared.limits.TheConstants.{ADDRESSES};
ghost use Rattle.sem_access.specs.LastWrites.{has_address, looked};
ghost use Rattle.sem_access.specs.Runs.{AreRuns, entry_at, IsNewer};
ghost use Rattle.sem_mem.specs.Chunks.{together};

use crate::chunks::chunks_met;
use crate::looks::look_through;
use crate::runs::runs_of;
use crate::writes::overwrite;
use sem_access::{Look, Run};
use sem_key::OutOfMemory;
use std::alloc::Global;
use std::marker::Model;

/// Which entry wrote each address of memory last, as the runs of the addresses. Only `runs` and
/// `write` take memory.
// They are kept in chunks, so that a write moves the runs of a chunk or two, and not all runs after
// them.
#[derive(Debug, Drop)]
pub struct Memory {
    chunks: Vec<Vec<Run>>,
    // Where each chunk begins: a search looks into no chunk.
    beginnings: Vec<u64>,
    // Room in which a chunk is written anew before it replaces the old one.
    spare: Vec<Run>,
}

impl Model for Memory {
    ghost use Rattle.std.specs.Prelude.{List};
    ghost use Rattle.sem_access.specs.declared.run.Run.{Run as RunData};
    ghost use Rattle.sem_mem.specs.Chunks.{together, AreIndexed};

    ghost Value = { List RunData };

    ghost view = { λ m. together m.chunks.items };

    ghost invariant = { λ m. AreIndexed m.chunks.items m.beginnings.items };
}

impl Memory {
    /// Nothing was written.
    pub fn new(alloc: Global) -> Self
        ensures { result ≡ [] }
    {
        Memory {
            chunks: Vec::new(alloc),
            beginnings: Vec::new(alloc),
            spare: Vec::new(alloc),
        }
    }

    /// The runs, in rising order.
    pub fn runs(&self, alloc: Global) -> Result<Vec<Run>, OutOfMemory>
        ensures runs { IfOk result (λ v. v.items ≡ self.now) }
        ensures apart { AreRuns self.now }
    {
        runs_of(alloc, &self.chunks)
    }

    /// The runs, in rising order, in chunks.
    pub(crate) fn chunks(&self) -> &[Vec<Run>]
        ensures runs { together result.now ≡ self.now }
        ensures apart { AreRuns self.now }
    {
        &self.chunks
    }

    /// The entry, later than all that wrote before, writes the range. All other addresses stay; if
    /// memory is refused, so do these.
    ///
    /// The range must end within 4 GiB.
    pub fn write(&mut self, base: u64, len: u32, entry: u64) -> Result<(), OutOfMemory>
        requires range { base + len ≤ ADDRESSES }
        requires newer { IsNewer self.old entry }
        ensures written { OnOk result ((a : ℕ) → entry_at self.new a ≡ (
            if has_address base len a then Some entry else entry_at self.old a)) }
        ensures newest { OnOk result (IsNewer self.new (entry + 1)) }
        ensures unchanged { OnErr result (self.new ≡ self.old) }
    {
        if len > 0 {
            overwrite(
                &mut self.chunks,
                &mut self.beginnings,
                &mut self.spare,
                base,
                len,
                entry,
            )?;
        }
        Ok(())
    }

    /// What the range tells of the last writes of its addresses.
    ///
    /// The range must end within 4 GiB.
    pub fn look(&self, base: u64, len: u32) -> Look
        requires { base + len ≤ ADDRESSES }
        ensures { result ≡ looked (entry_at self.now) base len }
    {
        let (from, to) = chunks_met(&self.beginnings, base, base + u64::from(len));
        look_through(&self.chunks[from..to], base, len)
    }
}
