ghost use Rattle.std.specs.Prelude.{◌≡◌, ◌+◌, ◌-◌, ◌<◌, true, false, Some};
ghost use Rattle.sem_msg.specs.JobRows.{with_number, without_number};

use crate::vpe_list::VpeList;
use sem_key::{Key, VPES};
use sem_msg::Up;
use std::marker::Model;

/// A job that revokes everything made from its root.
#[derive(Debug, Drop)]
pub struct Job {
    pub id: u32,
    pub root: Key,
    /// How many tokens are out for it.
    pub outstanding: u64,
    /// The job that waits for it.
    pub up: Option<Up>,
    /// The VPEs that wait for it.
    pub slots: VpeList,
    /// Whether it keeps its root, as a `clear` does.
    pub keep: bool,
}

impl Model for Job {
    ghost use Rattle.sem_msg.specs.Rows.{JobRow};

    ghost Value = { JobRow };

    ghost view = { λ j. record {
      id = j.id;
      root = j.root;
      up = j.up;
      waiters = j.slots;
      count = j.outstanding;
      keep = j.keep;
    } };
}

impl Job {
    pub(crate) fn copy(&self) -> Self
        ensures { result ≡ self.now }
    {
        Job {
            id: self.id,
            root: self.root,
            outstanding: self.outstanding,
            up: self.up,
            slots: self.slots.copy(),
            keep: self.keep,
        }
    }

    // One more token is out for it.
    pub(crate) fn raise(&mut self)
        requires { self.old.count < 18446744073709551615 }
        ensures { self.new ≡ record self.old { count = self.old.count + 1 } }
    {
        self.outstanding += 1;
    }

    // A token came back to it.
    pub(crate) fn lower(&mut self)
        requires { 0 < self.old.count }
        ensures { self.new ≡ record self.old { count = self.old.count - 1 } }
    {
        self.outstanding -= 1;
    }

    // Another job waits for it, so it no longer keeps its root.
    pub(crate) fn set_up(&mut self, up: Up)
        ensures { self.new ≡ record self.old { up = Some up; keep = false } }
    {
        self.up = Some(up);
        self.keep = false;
    }

    pub(crate) fn keep(&mut self)
        ensures { self.new ≡ record self.old { keep = true } }
    {
        self.keep = true;
    }

    // It no longer keeps its root.
    pub(crate) fn give_up(&mut self)
        ensures { self.new ≡ record self.old { keep = false } }
    {
        self.keep = false;
    }

    // The VPE waits for it.
    pub(crate) fn wait(&mut self, vpe: u16)
        requires { vpe < VPES }
        ensures { self.new ≡ record self.old { waiters = with_number self.old.waiters vpe } }
    {
        self.slots.insert(vpe);
    }

    // The VPE no longer waits for it.
    pub(crate) fn leave(&mut self, vpe: u16)
        ensures { self.new ≡ record self.old { waiters = without_number self.old.waiters vpe } }
    {
        self.slots.remove(vpe);
    }
}
