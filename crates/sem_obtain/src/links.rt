ghost use Rattle.std.specs.Prelude.{◌≡◌, ℕ};
ghost use Rattle.sem_msg.specs.declared.message.Message.TheVariants.{Orphan, Unlink};
ghost use Rattle.sem_msg.specs.Setup.{Setup as SetupOf};
ghost use Rattle.sem_machine.specs.Sides.{Side};
ghost use Rattle.sem_machine.specs.Handles.{handle_row};
ghost use Rattle.sem_machine.specs.Stores.{with_caps};

use sem_caps::Caps;
use sem_key::Key;

/// A child was granted to a VPE that is dead: its parent loses its link to it.
#[tactic(auto, unfolding(sem_machine::specs::Handles::handle_row))]
pub fn orphan(parent: Key, key: Key, caps: &mut Caps)
    ensures row { (T : SetupOf) (i from : ℕ) (s : Side) →
        with_caps caps.new.caps s
        ≡ handle_row T i (with_caps caps.old.caps s) from (Orphan parent key) }
    ensures spare { caps.new.spare ≡ caps.old.spare }
{
    let _ = caps.unlink(parent, key);
}

/// A child is gone: its parent loses its link to it.
#[tactic(auto, unfolding(sem_machine::specs::Handles::handle_row))]
pub fn unlink(parent: Key, key: Key, caps: &mut Caps)
    ensures row { (T : SetupOf) (i from : ℕ) (s : Side) →
        with_caps caps.new.caps s
        ≡ handle_row T i (with_caps caps.old.caps s) from (Unlink parent key) }
    ensures spare { caps.new.spare ≡ caps.old.spare }
{
    let _ = caps.unlink(parent, key);
}
