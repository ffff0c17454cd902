// What numbers belong in the places of a line.
ghost use Rattle.std.specs.Prelude.{◌≡◌};
ghost use Rattle.sem_trace.specs.Places.{number_place};
ghost use Rattle.sem_trace.specs.Slots.{slot_place};

use crate::forms::{BYTE, CODE, ENDPOINT, RIGHTS, Range, SLOTS, WORD, kernel_count, node, window};

/// What number belongs in a place of a line, by its meaning.
#[derive(Clone, Copy, Debug, PartialEq, Eq)]
pub enum Slot {
    Selector,
    ServiceName,
    OfferIndex,
    Endpoint,
    /// A mask of rights.
    Rights,
    /// Where memory begins.
    Base,
    /// How long memory or a message is.
    Length,
    /// Where a part of memory begins, from the begin of the memory.
    Offset,
    /// The label of a send gate.
    Label,
    /// The slots of a receive gate.
    SlotCount,
    /// The credits of a send gate.
    Credits,
    Vpe,
    Pe,
    /// How many kernels there are.
    KernelCount,
    Kernel,
    /// How many messages a link holds.
    Window,
    /// After how many replies a VPE is killed.
    Replies,
    /// The code of a reply.
    Code,
    /// The number of a job.
    Job,
    /// The number of a call of its VPE.
    CallNumber,
}

impl Slot {
    /// Which numbers can stand there, in a text of the version with that many kernels.
    #[inline]
    pub fn range(self, version: u8, kernels: u32) -> Range
        ensures { number_place result ≡ slot_place version kernels self }
    {
        match self {
            Slot::Selector | Slot::ServiceName | Slot::OfferIndex => BYTE,
            Slot::Endpoint => ENDPOINT,
            Slot::Rights => RIGHTS,
            Slot::SlotCount | Slot::Credits => SLOTS,
            Slot::Base | Slot::Length | Slot::Offset | Slot::Label => WORD,
            Slot::Replies | Slot::Job | Slot::CallNumber => WORD,
            Slot::Vpe | Slot::Pe => node(version),
            Slot::KernelCount => kernel_count(version),
            Slot::Kernel => Range {
                least: 0,
                most: u64::from(kernels).saturating_sub(1),
            },
            Slot::Window => window(version),
            Slot::Code => CODE,
        }
    }
}
