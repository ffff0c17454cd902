// The end of a VPE on the stores of a kernel.
ghost use Rattle.std.specs.Prelude.{◌≡◌, ℕ, ◌+◌, length};
ghost use Rattle.sem_key.specs.Lists.{in_turn};
ghost use Rattle.sem_msg.specs.Lookups.{kernel_of as kernel_of_spec};
ghost use Rattle.sem_machine.specs.Sides.{cap, row};
ghost use Rattle.sem_machine.specs.Ends.{ended, revoked_if_left};
ghost use Rattle.sem_kernel.specs.KernelStores.{side_of, AreStoresOf, AreSound};
ghost use Rattle.sem_kernel.specs.Rooms.{HasRoomForJobs, HasRoomToRevoke};
ghost use Rattle.sem_kernel.specs.Ending.{is_unmarked as is_unmarked_spec};

use crate::stores::Stores;
use sem_key::Key;
use sem_mark::begin_revoke;
use sem_msg::Setup;
use sem_sweep::end_vpe;

impl Stores {
    // Ends the VPE, and revokes what it holds.
    pub fn end(&mut self, setup: &Setup, kernel: u32, vpe: u16)
        requires are { AreSound setup.now kernel self.old }
        requires here { kernel_of_spec setup.now vpe ≡ kernel }
        requires room { HasRoomToRevoke (length (row (side_of self.old) vpe).asks) self.old }
        ensures row { side_of self.new ≡ ended setup.now kernel vpe (side_of self.old) }
        ensures stores { AreStoresOf setup.now kernel self.new }
    {
        lend!(self => vpes, park, jobs, outs);
        end_vpe(setup, kernel, vpe, vpes, jobs, park, outs);
        self.ended.clear();
        self.caps.append_keys_of(vpe, &mut self.ended);
        self.revoke_ended(setup, kernel);
    }

    // Revokes what is listed, one after another.
    fn revoke_ended(&mut self, setup: &Setup, kernel: u32)
        requires are { AreSound setup.now kernel self.old }
        requires room { HasRoomForJobs (length self.old.ended.items) self.old }
        ensures row { side_of self.new
            ≡ in_turn (revoked_if_left setup.now kernel) self.old.ended.items (side_of self.old) }
        ensures stores { AreStoresOf setup.now kernel self.new }
    {
        for at in 0..self.ended.len() {
            let key = self.ended[at];
            self.revoke_if_left(setup, kernel, key);
        }
    }

    // Revokes the capability of that key, if it is held and unmarked.
    fn revoke_if_left(&mut self, setup: &Setup, kernel: u32, key: Key)
        requires are { AreSound setup.now kernel self.old }
        requires room { HasRoomForJobs 1 self.old }
        ensures row { side_of self.new ≡ revoked_if_left setup.now kernel key (side_of self.old) }
        ensures stores { AreStoresOf setup.now kernel self.new }
        ensures room { (n : ℕ) → HasRoomForJobs (n + 1) self.old → HasRoomForJobs n self.new }
        ensures ended { self.new.ended ≡ self.old.ended }
    {
        if !self.is_unmarked(key) {
            return;
        }
        lend!(self => caps, dtus, jobs, outs, scratch);
        let done = begin_revoke(
            setup, kernel, key, None, None, caps, dtus, jobs, outs, scratch,
        );
        self.finish(setup, kernel, done);
    }

    // Whether the key is held and unmarked.
    fn is_unmarked(&self, key: Key) -> bool
        ensures { result ≡ is_unmarked_spec (cap (side_of self.now) key) }
    {
        match self.caps.get(key) {
            Some(cap) => cap.mark.is_none(),
            None => false,
        }
    }
}
