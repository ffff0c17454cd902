ghost use Rattle.std.specs.Prelude.{◌≡◌, ℕ, ◌+◌, Bool, ◌<◌, ◌≤◌, count_by, true, List, length};
ghost use Rattle.std.specs.Prelude.{Contains, Option, Some};
ghost use Rattle.sem_key.specs.KeyName.{KeyName};
ghost use Rattle.sem_key.specs.Capability.{Capability};
ghost use Rattle.sem_key.specs.Lists.{in_turn};
ghost use Rattle.sem_msg.specs.declared.state.Up.{Up};
ghost use Rattle.sem_msg.specs.Rows.{JobRow};
ghost use Rattle.sem_msg.specs.declared.event.Act.{Act};
ghost use Rattle.sem_msg.specs.declared.message.Message.{Message};
ghost use Rattle.sem_msg.specs.Setup.{Setup, IsSetup};
ghost use Rattle.sem_machine.specs.Sides.{Side, row, cap, job_opened, mark_all, unbind_all};
ghost use Rattle.sem_key.specs.Region.{region, children_of};
ghost use Rattle.sem_machine.specs.Revokes.{request_or_adopt};
ghost use Rattle.sem_machine.specs.Machine.{start_side, local_step, is_locally_enabled};
ghost use Rattle.sem_machine.specs.Schedules.{Always, world_after};
ghost use Rattle.sem_machine.specs.Sound.{IsSound};
ghost use Rattle.sem_sound.specs.SoundWorlds.{IsSoundInput, IsSoundWorld, all_parked_calls};
ghost use Rattle.sem_machine.specs.Seeded.{is_call};

/// A kernel's side is sound at the start, and after every locally enabled act, whatever fitting
/// messages it fetches.
pub fn stores_stay_sound()
    ensures start { (T : Setup) → IsSetup T → (i : ℕ) → i < T.kernels →
        IsSound T i (start_side T i) }
    ensures step { (T : Setup) → IsSetup T → (i : ℕ) → i < T.kernels → (s : Side) → IsSound T i s →
        (act : Act) → is_locally_enabled T i s act ≡ true → (input : Option Message) →
        IsSoundInput act input → IsSound T i (local_step T i s act input).side }
    ensures answered { Always (λ T J.
        (world_after T J).replies + all_parked_calls (world_after T J)
        ≤ count_by (λ e. is_call e.event.act) J) }
    ensures schedules { Always (λ T J. IsSoundWorld T (world_after T J)) }
{}

/// What calls of the stores also need. Ids and calls fit 32 bits. While a job opens, its count is
/// at most the number of settled children, of which there are at most 2 to the 63.
pub fn sound_stores_meet_their_calls()
    ensures ids { (T : Setup) → IsSetup T → (i : ℕ) → i < T.kernels → (s : Side) → IsSound T i s →
        s.next_job < 4294967295 }
    ensures calls { (T : Setup) → IsSetup T → (i : ℕ) → i < T.kernels → (s : Side) → IsSound T i s →
        (v : ℕ) → (row s v).next_call < 4294967295 }
    ensures children { (T : Setup) → IsSetup T → (i : ℕ) → i < T.kernels → (s : Side) →
        IsSound T i s → (root : KeyName) (c : Capability) → cap s root ≡ Some c →
        length (children_of s.caps (region s.caps root)) ≤ 9223372036854775808 }
    ensures counts { (T : Setup) (i : ℕ) (s : Side) → IsSound T i s →
        (root : KeyName) (up : Option Up) (ws : List ℕ) (keep : Bool) (settled : List KeyName)
        (x : JobRow) → Contains
        (in_turn (request_or_adopt T i s.next_job) settled
        (unbind_all (region s.caps root)
        (mark_all (region s.caps root) s.next_job (job_opened root up ws keep s)))).jobs x →
        x.id ≡ s.next_job → x.count ≤ length settled }
{}
