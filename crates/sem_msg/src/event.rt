ghost use Rattle.std.specs.Prelude.{◌≡◌};
ghost use Rattle.sem_msg.specs.Act.{number_of_act, only_moves as only_moves_spec};
ghost use Rattle.sem_msg.specs.Act.{replied_vpe as replied_vpe_spec};

/// What one kernel does in one atomic step.
#[derive(Clone, Copy, Debug, PartialEq, Eq)]
pub enum Act {
    /// A VPE makes its next call.
    Call { vpe: u16 },
    /// The next message from another kernel goes to the inbox.
    Fetch { from: u32 },
    /// The message in the inbox is handled.
    Handle,
    /// A VPE is asked for consent.
    Upcall { vpe: u16 },
    /// A parked call of a VPE goes on.
    Resume { vpe: u16 },
    /// The next message for another kernel goes to the link.
    Flush { to: u32 },
    /// A VPE is killed.
    Kill { vpe: u16 },
}

/// An act of one kernel.
#[derive(Clone, Copy, Debug, PartialEq, Eq)]
pub struct Event {
    pub kernel: u32,
    pub act: Act,
}

impl Act {
    /// The VPE whose call the act can answer; 0 for an act that answers no call.
    pub fn replied_vpe(self) -> u16
        ensures { result ≡ replied_vpe_spec self }
    {
        match self {
            Act::Call { vpe } | Act::Resume { vpe } => vpe,
            _ => 0,
        }
    }

    /// Whether the act only moves a message: a fetch or a flush.
    pub fn only_moves(self) -> bool
        ensures { result ≡ only_moves_spec self }
    {
        matches!(self, Act::Fetch { .. } | Act::Flush { .. })
    }
}

/// The number of the act, 1 to 7 in the order of `Act`.
pub fn act_number(act: Act) -> u8
    ensures { result ≡ number_of_act act }
{
    match act {
        Act::Call { .. } => 1,
        Act::Fetch { .. } => 2,
        Act::Handle => 3,
        Act::Upcall { .. } => 4,
        Act::Resume { .. } => 5,
        Act::Flush { .. } => 6,
        Act::Kill { .. } => 7,
    }
}
