// The room that the step of an act needs.
ghost use Rattle.std.specs.Prelude.{◌≡◌, true, ◌≤◌, ◌<◌, slice_get, length, vec_capacity, OnOk};
ghost use Rattle.std.specs.Prelude.{OnErr};
ghost use Rattle.std.specs.Option.{option_and_then};
ghost use Rattle.sem_msg.specs.Lookups.{kernel_of as kernel_of_spec};
ghost use Rattle.sem_machine.specs.Machine.{is_locally_enabled};
ghost use Rattle.sem_machine.specs.Sides.{row};
ghost use Rattle.sem_kernel.specs.KernelStores.{side_of, AreStoresOf, AreSound};
ghost use Rattle.sem_kernel.specs.Rooms.{IsReady, HasGrown, HasSameStores, HasRoomToRevoke};
ghost use Rattle.sem_kernel.specs.Rooms.{asked_parent as asked_parent_spec};
ghost use Rattle.sem_kernel.specs.Rooms.{linked_parent as linked_parent_spec};
ghost use Rattle.sem_kernel.specs.Rooms.{opens_jobs as opens_jobs_spec};
ghost use Rattle.sem_kernel.specs.Rooms.{ended_asks as ended_asks_spec};

use crate::stores::Stores;
use sem_key::{Key, OutOfMemory};
use sem_msg::{Act, Ask, Call, Message, Parked, Setup};
use sem_obtain::source;

impl Stores {
    // Makes all the room that the step of the act can need. All else stays as it is; if memory is
    // refused, no room is lost.
    pub fn room(&mut self, setup: &Setup, kernel: u32, act: Act) -> Result<(), OutOfMemory>
        requires are { AreSound setup.now kernel self.old }
        requires enabled { is_locally_enabled setup.now kernel (side_of self.old) act ≡ true }
        ensures same { HasSameStores self.old self.new }
        ensures ready { OnOk result (IsReady setup.now act self.new) }
        ensures kept { OnErr result (HasGrown self.old self.new) }
    {
        if act.only_moves() {
            return Ok(());
        }
        let parent = self.linked_parent(setup, kernel, act);
        if self.opens_jobs(setup, kernel, act) {
            let asks = self.ended_asks(setup, kernel, act);
            self.grow_to_revoke(setup, kernel, asks)?;
        } else {
            self.grow(setup, kernel)?;
        }
        self.caps.room(1, parent)
    }

    // Makes room for one more pending delegation and message, and for a message of each job.
    fn grow(&mut self, setup: &Setup, kernel: u32) -> Result<(), OutOfMemory>
        requires are { AreSound setup.now kernel self.old }
        ensures grown { HasGrown self.old self.new }
        ensures pendings { OnOk result (0 < self.new.pendings.spare) }
        ensures outs { OnOk result (length self.new.jobs.jobs < self.new.outs.spare) }
        ensures gone { OnOk result
            (length self.new.caps.caps ≤ vec_capacity self.new.scratch.gone) }
    {
        let (caps, jobs) = (self.caps.len(), self.job_count(setup, kernel));
        self.pendings.room(1)?;
        self.scratch.room(caps, 0)?;
        self.outs.room(jobs + 1)
    }

    // Makes room for the jobs that a step can open, and for the answers to that many asks.
    fn grow_to_revoke(&mut self, setup: &Setup, kernel: u32, asks: usize) -> Result<(), OutOfMemory>
        requires are { AreSound setup.now kernel self.old }
        requires few { asks ≤ 128 }
        ensures grown { HasGrown self.old self.new }
        ensures pendings { OnOk result (0 < self.new.pendings.spare) }
        ensures revoke { OnOk result (HasRoomToRevoke asks self.new) }
    {
        let (caps, links) = (self.caps.len(), self.caps.child_links());
        let jobs = self.job_count(setup, kernel);
        self.pendings.room(1)?;
        self.scratch.room(caps.max(links), 0)?;
        self.ended.clear();
        self.ended.reserve(caps)?;
        self.jobs.room(caps + jobs + 1)?;
        self.outs.room(asks + links + caps + 2 * jobs + 2)
    }

    fn job_count(&self, setup: &Setup, kernel: u32) -> usize
        requires are { AreSound setup.now kernel self.now }
        ensures count { result ≡ length self.now.jobs.jobs }
        ensures few { result ≤ 3084288 }
    {
        self.jobs.len()
    }

    // The capability that the step of the act, an enabled one, may link a child to.
    fn linked_parent(&self, setup: &Setup, kernel: u32, act: Act) -> Option<Key>
        requires are { AreSound setup.now kernel self.now }
        requires enabled { is_locally_enabled setup.now kernel (side_of self.now) act ≡ true }
        ensures { result ≡ linked_parent_spec setup.now (side_of self.now) act }
    {
        match act {
            Act::Call { vpe } => match self.next_call(setup, kernel, vpe)? {
                Call::Derive { src, .. } | Call::Gate { src, .. } => self.vpes.held_key(vpe, src),
                _ => None,
            },
            Act::Upcall { vpe } => self.asked_parent(setup, kernel, vpe),
            Act::Resume { vpe } => {
                let state = self.park.state(vpe);
                match &state {
                    Some(Parked::DelegateReady { parent, .. }) => Some(*parent),
                    _ => None,
                }
            }
            Act::Fetch { .. } | Act::Handle | Act::Flush { .. } | Act::Kill { .. } => None,
        }
    }

    // The capability that the answer to the oldest ask of the VPE may link a child to.
    fn asked_parent(&self, setup: &Setup, kernel: u32, vpe: u16) -> Option<Key>
        requires stores { AreStoresOf setup.now kernel self.now }
        requires here { kernel_of_spec setup.now vpe ≡ kernel }
        ensures { result ≡ option_and_then (asked_parent_spec setup.now (side_of self.now) vpe)
            (slice_get (row (side_of self.now) vpe).asks 0) }
    {
        let ask = self.vpes.front_ask(vpe);
        match &ask {
            Some(Ask::Obtain { target, .. }) => {
                match source(setup, vpe, target, &self.caps, &self.vpes) {
                    Some(cap) => Some(cap.key),
                    None => None,
                }
            }
            Some(Ask::Delegate { parent, .. }) => Some(*parent),
            None => None,
        }
    }

    // Whether the step of the act, an enabled one, may open jobs.
    fn opens_jobs(&self, setup: &Setup, kernel: u32, act: Act) -> bool
        requires are { AreSound setup.now kernel self.now }
        requires enabled { is_locally_enabled setup.now kernel (side_of self.now) act ≡ true }
        ensures { result ≡ opens_jobs_spec setup.now (side_of self.now) act }
    {
        match act {
            Act::Call { vpe } => matches!(
                self.next_call(setup, kernel, vpe),
                Some(Call::Revoke { .. } | Call::Clear { .. } | Call::Exit)
            ),
            Act::Handle => matches!(self.inbox, Some((_, Message::RevokeReq { .. }))),
            Act::Kill { .. } => true,
            Act::Fetch { .. } | Act::Upcall { .. } | Act::Resume { .. } | Act::Flush { .. } =>
                false,
        }
    }

    // How many asks the step may answer because their VPE ends.
    fn ended_asks(&self, setup: &Setup, kernel: u32, act: Act) -> usize
        requires are { AreSound setup.now kernel self.now }
        requires enabled { is_locally_enabled setup.now kernel (side_of self.now) act ≡ true }
        ensures asks { result ≡ ended_asks_spec (side_of self.now) act }
        ensures few { result ≤ 128 }
    {
        match act {
            Act::Call { vpe } => self.vpes.asks(vpe),
            Act::Kill { vpe } => self.vpes.asks(vpe),
            _ => 0,
        }
    }
}
