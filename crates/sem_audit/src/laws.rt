//! The laws of complete schedules, as contracts of functions that do nothing.

ghost use Rattle.std.specs.Prelude.{◌≡◌, List, [], Contains, length};
ghost use Rattle.sem_msg.specs.declared.call.Call.TheVariants.{Exit};
ghost use Rattle.sem_msg.specs.declared.entry.Entry.{Entry};
ghost use Rattle.sem_msg.specs.declared.setup.VpeDecl.{VpeDecl};
ghost use Rattle.sem_msg.specs.Journal.{replies};
ghost use Rattle.sem_msg.specs.Setup.{Setup, IsSetup, call_count};
ghost use Rattle.sem_machine.specs.Living.{IsComplete};
ghost use Rattle.sem_audit.specs.Straying.{stray_after};

/// After a complete schedule of any setup no key is stray: every held key is in the forest, and
/// every key of the forest is held.
pub fn nothing_is_stray()
    ensures stray { (T : Setup) → IsSetup T → (J : List Entry) → IsComplete T J
        → stray_after T J ≡ 0 }
{}

/// If no VPE of a setup ends, since none is killed and none calls `exit`, a complete schedule of it
/// has a reply to each call.
pub fn all_calls_are_answered()
    ensures answered { (T : Setup) → IsSetup T → T.kills ≡ []
        → ((d : VpeDecl) → Contains T.vpes d → Contains d.calls Exit → ⊥)
        → (J : List Entry) → IsComplete T J → length (replies J) ≡ call_count T }
{}
