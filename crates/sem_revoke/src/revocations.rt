ghost use Rattle.std.specs.Prelude.{◌≡◌, ℕ, ◌+◌, true, Some, None};
ghost use Rattle.sem_key.specs.KeyName.{KeyName};
ghost use Rattle.sem_key.specs.declared.object.Object.{Object};
ghost use Rattle.sem_machine.specs.Schedules.{Always, world_after};
ghost use Rattle.sem_machine.specs.Living.{IsLive, HasObject, reply_count};
ghost use Rattle.sem_machine.specs.Machine.{side};
ghost use Rattle.sem_machine.specs.Sides.{row, parked, is_alive};
ghost use Rattle.sem_msg.specs.Lookups.{kernel_of};
ghost use Rattle.sem_msg.specs.declared.state.Parked.{Parked};
ghost use Rattle.sem_revoke.specs.Revocation.{held_at_home, live_are_linked, ancestors_held, orphans_dead};
ghost use Rattle.sem_revoke.specs.Revocation.{unlinked_dead, asked_below_marks, capability_first};
ghost use Rattle.sem_revoke.specs.Revocation.{marks_spread, marks_of_jobs, roots_marked};
ghost use Rattle.sem_revoke.specs.Revocation.{keepers_alone, keepers_waited_for, tokens_counted};
ghost use Rattle.sem_revoke.specs.Revocation.{waited_below_marks, marked_below_roots};
ghost use Rattle.sem_revoke.specs.Revocation.{revokers_wait, held_unless_doomed};
ghost use Rattle.sem_revoke.specs.Revocation.{ready_unless_doomed, given_unless_doomed};
ghost use Rattle.sem_revoke.specs.Revocation.{granted_unless_doomed, marks_doom, requests_doom};
ghost use Rattle.sem_revoke.specs.Revocation.{forest_spared, born_live, roots_last, near_keys_last};
ghost use Rattle.sem_revoke.specs.Revocation.{asks_awaited, requests_awaited, flights_go_on};
ghost use Rattle.sem_revoke.specs.Revocation.{dead_have_ended};
ghost use Rattle.sem_revoke.specs.Delegations.{one_token_each, tokens_pend};
ghost use Rattle.sem_machine.specs.Safety.{narrowing, nothing_lost, revoked_is_gone};

/// After every schedule of every setup the parent of a live key is held and has a link to it, so
/// all ancestors of a key in use are held. A key that an Orphan or an Unlink names is dead. A key
/// that a kernel asks another to revoke is below a mark of the asking job, and a capability travels
/// before the request to revoke it.
pub fn revocation_follows_links()
    ensures homes { Always held_at_home }
    ensures linked { Always live_are_linked }
    ensures ancestors { Always ancestors_held }
    ensures orphans { Always orphans_dead }
    ensures unlinked { Always unlinked_dead }
    ensures asked { Always asked_below_marks }
    ensures first { Always capability_first }
{}

/// After every schedule of every setup marks spread: a live child of a marked capability is marked
/// by the same job, or that job has asked for it. A mark is that of an open job, and an open job
/// has marked its root; no job waits for one that keeps its root. A job counts exactly its tokens
/// that are out. If another job waits for a job, the root of the latter is a child of a capability
/// that the other has marked. Every key that a job has marked, other than its root, is a child of a
/// capability that it has marked.
pub fn jobs_answer_for_marks()
    ensures spread { Always marks_spread }
    ensures marks { Always marks_of_jobs }
    ensures roots { Always roots_marked }
    ensures keepers { Always keepers_alone }
    ensures counted { Always tokens_counted }
    ensures waited { Always waited_below_marks }
    ensures below { Always marked_below_roots }
{}

/// After every schedule of every setup a revoke or a clear without an answer waits for the job that
/// marks its key, if the key is still held; the job will wake it, and does not keep what it cuts
/// off. Once it may succeed, what it cuts off is dead. A root that is kept belongs to a VPE that
/// waits.
pub fn revokers_wait_for_what_they_revoke()
    ensures waiting { Always revokers_wait }
    ensures keepers { Always keepers_waited_for }
{}

/// Revoked is gone: after every schedule of every setup no key in use has an ancestor that was
/// revoked and answered, or that an answered clear cut off.
pub fn revoked_keys_are_gone()
    ensures gone { Always revoked_is_gone }
{}

/// After every schedule of every setup a live key has an object. A live key that was granted grants
/// no more than its parent, and the parent is held.
pub fn live_keys_narrow_their_parents()
    ensures object { Always (λ T J. (k : KeyName) → IsLive (world_after T J) k →
        (object : Object) × HasObject (world_after T J) k object) }
    ensures narrowed { Always narrowing }
{}

/// After every schedule of every setup: a key that a kernel once held is still held or is doomed,
/// which means that one of its ancestors was cut off or belongs to a VPE that has ended. A key that
/// a call of a living VPE is ready to install is live from then on, or doomed. So is a key that a
/// VPE has consented to give, and every granted key. A marked key is doomed, or the root of a job
/// that keeps it. A key that a kernel asks another to revoke is doomed, and no key of the forest
/// is. A granted key is live at that moment. So roots in the forest are live, and so is every key
/// of the forest that was granted within one kernel.
pub fn what_is_lost_is_doomed()
    ensures lasts { Always held_unless_doomed }
    ensures ready { Always ready_unless_doomed }
    ensures given { Always given_unless_doomed }
    ensures granted { Always granted_unless_doomed }
    ensures marks { Always marks_doom }
    ensures requests { Always requests_doom }
    ensures spared { Always forest_spared }
    ensures born { Always born_live }
    ensures roots { Always roots_last }
    ensures near { Always near_keys_last }
{}

/// After every schedule of every setup: if an ask of an obtain stands in a queue or is on its way,
/// its VPE waits for the answer to exactly that one, or is dead. A message in flight stays so until
/// it is handled. A declared VPE that is dead has ended.
pub fn who_asks_waits()
    ensures asks { Always asks_awaited }
    ensures requests { Always requests_awaited }
    ensures flights { Always flights_go_on }
    ensures dead { Always dead_have_ended }
{}

/// After every schedule of every setup a delegation to another kernel has at most one of these: a
/// `DelegatePrepared` of it in flight, an `Ack` of it in flight, and a call that is ready to grant
/// it. While it has one, the kernel of the child has the delegation pending.
pub fn delegations_have_one_token()
    ensures one { Always one_token_each }
    ensures pends { Always tokens_pend }
{}

/// Nothing is lost: after every schedule of every setup each key of the forest is live. These are
/// the made keys with no ancestor that was cut off or belongs to a VPE that has ended.
pub fn nothing_is_lost()
    ensures kept { Always nothing_lost }
{}

/// A VPE that is alive after a schedule of any setup has as many replies as it made calls, or one
/// less while a call of it is parked.
pub fn living_vpes_have_their_replies()
    ensures free { Always (λ T J. (v : ℕ) →
        is_alive (side (world_after T J) (kernel_of T v)) v ≡ true →
        parked (side (world_after T J) (kernel_of T v)) v ≡ None →
        reply_count J v ≡ (row (side (world_after T J) (kernel_of T v)) v).next_call) }
    ensures parked { Always (λ T J. (v : ℕ) (p : Parked) →
        is_alive (side (world_after T J) (kernel_of T v)) v ≡ true →
        parked (side (world_after T J) (kernel_of T v)) v ≡ Some p →
        reply_count J v + 1 ≡ (row (side (world_after T J) (kernel_of T v)) v).next_call) }
{}
