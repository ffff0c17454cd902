//! What the life of a key tells, which keys an entry can move, and that a denial has one text.
//! These laws are contracts of functions that do nothing.

ghost use Rattle.std.specs.Prelude.{◌≡◌, ℕ, ◌≤◌, true, false, List, [], ◌∷◌, ◌++◌, length, map};
ghost use Rattle.std.specs.Prelude.{take, ◌⊎◌, Contains, Some, None, IsSome};
ghost use Rattle.sem_key.specs.KeyName.{KeyName};
ghost use Rattle.sem_key.specs.KeyList.{IsRising, key_set};
ghost use Rattle.sem_key.specs.Capability.{Capability};
ghost use Rattle.sem_key.specs.Region.{Reached};
ghost use Rattle.sem_msg.specs.declared.event.Act.TheVariants.{Handle};
ghost use Rattle.sem_msg.specs.declared.entry.Detail.TheVariants.{Carried};
ghost use Rattle.sem_msg.specs.declared.entry.Entry.{Entry};
ghost use Rattle.sem_msg.specs.declared.entry.Reply.{Reply};
ghost use Rattle.sem_msg.specs.declared.message.Message.TheVariants.{RevokeDone};
ghost use Rattle.sem_msg.specs.Setup.{Setup, IsSetup};
ghost use Rattle.sem_msg.specs.Lookups.{owner_of};
ghost use Rattle.sem_machine.specs.Machine.{World, side, start};
ghost use Rattle.sem_machine.specs.Schedules.{Always, IsSchedule, world_after};
ghost use Rattle.sem_machine.specs.Journals.{made, root_keys};
ghost use Rattle.sem_machine.specs.Living.{HoldsCap};
ghost use Rattle.sem_query.specs.declared.holder.Holder.{Holder};
ghost use Rattle.sem_query.specs.Whereabouts.{IsThere, Passes, whereabouts, whereabouts_after};
ghost use Rattle.sem_query.specs.Whereabouts.{holder};
ghost use Rattle.sem_query.specs.Changes.{may_revoke, grants_key, MayChange, IsRootOf};
ghost use Rattle.sem_query.specs.Changes.{seen_at_home};
ghost use Rattle.sem_query.specs.Denials.{IsAt, IsCallAt, IsDenied};
ghost use Rattle.sem_query.specs.Lives.{KeyLife, life_of_root, life, lives, told_of, noted_in};
ghost use Rattle.sem_query.specs.Lives.{lives_next};

/// After every schedule of every setup a key is where `whereabouts` says, and nowhere else: held by
/// its owner, on its way, or nowhere.
pub fn keys_are_in_one_place()
    ensures there { Always (λ T J. (k : KeyName) →
        IsThere (world_after T J) k (whereabouts_after T J k)) }
    ensures only { Always (λ T J. (k : KeyName) (h : Holder) → IsThere (world_after T J) k h →
        h ≡ whereabouts_after T J k) }
{}

/// What an entry of a schedule does to a key. A grant makes it live, and it was never live before.
/// A key on its way stays so, comes to be held unmarked, or is lost. A held key stays at its
/// selector, or is gone. A gone key stays gone.
pub fn keys_live_once()
    ensures passes { (T : Setup) → IsSetup T →
        (J before later : List Entry) (e : Entry) (k : KeyName)
        → IsSchedule T J → J ≡ before ++ e ∷ later
        → Passes (grants_key k e)
        (whereabouts_after T before k) (whereabouts_after T (before ++ e ∷ []) k) }
{}

/// A capability keeps its selector and its object as long as it is held. If a key is held at one
/// time and at a later one, its selector is the same, and so is its object.
pub fn held_keys_stay_as_they_are()
    ensures kept { (T : Setup) → IsSetup T → (J later : List Entry) (k : KeyName) (c d : Capability)
        → IsSchedule T (J ++ later) → HoldsCap (world_after T J) (owner_of T k) k c
        → HoldsCap (world_after T (J ++ later)) (owner_of T k) k d
        → (d.selector ≡ c.selector) × (d.object ≡ c.object) }
{}

/// The lives of a schedule are those of the made keys, and tell of each key where it was after each
/// number of entries.
pub fn lives_tell_where_keys_are()
    ensures made { Always (λ T J. (k : KeyName) → Contains (made T J) k → IsSome (life T J k)) }
    ensures no_other { Always (λ T J. (k : KeyName) → IsSome (life T J k) → Contains (made T J) k) }
    ensures rising { Always (λ T J. IsRising (map (λ l. l.key) (lives T J))) }
    ensures told { Always (λ T J. (k : KeyName) (n : ℕ) → n ≤ length J →
        told_of (lives T J) k n ≡ holder T J k n) }
    ensures there { Always (λ T J. (k : KeyName) (n : ℕ) → n ≤ length J →
        IsThere (world_after T (take n J)) k (told_of (lives T J) k n)) }
{}

/// How the lives of all made keys grow with each entry, so that one pass through a journal is
/// enough. At first they are those of the roots and services. An entry that grants a key adds a
/// life. Each life is noted in by where its key is before and after the entry; if the key stays, so
/// does its life.
pub fn lives_go_on()
    ensures first { (T : Setup)
        → lives T [] ≡ map (λ k. life_of_root k (whereabouts T (start T) k))
        (key_set (root_keys T)) }
    ensures next { (T : Setup) → IsSetup T → (before : List Entry) (e : Entry)
        → IsSchedule T (before ++ e ∷ [])
        → lives T (before ++ e ∷ []) ≡ lives_next T (length before)
        (world_after T before) (world_after T (before ++ e ∷ [])) e (lives T before) }
    ensures same { (T : Setup) → IsSetup T → (before : List Entry) → IsSchedule T before
        → (W : World) (k : KeyName) (l : KeyLife) → life T before k ≡ Some l
        → whereabouts_after T before k ≡ whereabouts T W k
        → noted_in T (length before) (world_after T before) W l ≡ l }
{}

/// The keys that an entry of a schedule may move: the one that it grants; the one that its handled
/// message brings; the one of a ready call that goes on, is cancelled or ends; and, if the entry
/// revokes, those that its kernel holds. All others stay where they are.
pub fn entries_move_few_keys()
    ensures moves { (T : Setup) → IsSetup T →
        (J before later : List Entry) (e : Entry) (k : KeyName)
        → IsSchedule T J → J ≡ before ++ e ∷ later
        → (whereabouts_after T before k ≡ whereabouts_after T (before ++ e ∷ []) k)
        ⊎ MayChange T (world_after T before) e k }
{}

/// If an entry of a schedule may have moved a key and does not grant it, the side of the key's
/// owner tells where it is: held there, or on its way to a call that is ready to install it, or
/// nowhere.
pub fn moved_keys_are_seen_at_home()
    ensures seen { (T : Setup) → IsSetup T → (J before later : List Entry) (e : Entry) (k : KeyName)
        → IsSchedule T J → J ≡ before ++ e ∷ later
        → grants_key k e ≡ false → MayChange T (world_after T before) e k
        → whereabouts_after T (before ++ e ∷ []) k
        ≡ seen_at_home k (side (world_after T (before ++ e ∷ [])) (owner_of T k)) }
{}

/// An entry that revokes leaves an unmarked key where it is, unless it reaches the key from where
/// it begins: from the key of a revoke or a clear, from one that another kernel asks for, or from a
/// key of a VPE that ends. It reaches keys by child links through unmarked capabilities of its
/// kernel. So a token that comes back moves only marked keys.
pub fn entries_revoke_what_is_reached()
    ensures spared { (T : Setup) → IsSetup T → (J before later : List Entry) (e : Entry)
        → (k : KeyName) (c : Capability)
        → IsSchedule T J → J ≡ before ++ e ∷ later
        → owner_of T k ≡ e.event.kernel → may_revoke e ≡ true
        → HoldsCap (world_after T before) (owner_of T k) k c → c.mark ≡ None
        → ((a : KeyName) → IsRootOf e a
        → Reached (side (world_after T before) e.event.kernel).caps a k → ⊥)
        → whereabouts_after T before k ≡ whereabouts_after T (before ++ e ∷ []) k }
{}

/// An entry that revokes leaves a marked key where it is, unless it handles a token that comes back
/// to a job: a job that begins marks with an id of its own.
pub fn marked_keys_wait_for_tokens()
    ensures stays { (T : Setup) → IsSetup T → (J before later : List Entry) (e : Entry)
        → (k : KeyName) (c : Capability) (j : ℕ)
        → IsSchedule T J → J ≡ before ++ e ∷ later
        → owner_of T k ≡ e.event.kernel → may_revoke e ≡ true
        → ((from job : ℕ) → e.detail ≡ Carried from (RevokeDone job) → ⊥)
        → HoldsCap (world_after T before) (owner_of T k) k c → c.mark ≡ Some j
        → whereabouts_after T before k ≡ whereabouts_after T (before ++ e ∷ []) k }
{}

/// A job may still mark a key of its kernel after a token came back to it. Then that entry leaves
/// each key that the kernel holds where it is: the job is not finished.
pub fn open_jobs_move_no_keys()
    ensures stays { (T : Setup) → IsSetup T → (J before later : List Entry) (e : Entry)
        → (k q : KeyName) (c d : Capability) (from j : ℕ)
        → IsSchedule T J → J ≡ before ++ e ∷ later
        → e.event.act ≡ Handle → e.detail ≡ Carried from (RevokeDone j)
        → owner_of T k ≡ e.event.kernel → HoldsCap (world_after T before) (owner_of T k) k c
        → HoldsCap (world_after T (before ++ e ∷ [])) e.event.kernel q d → d.mark ≡ Some j
        → whereabouts_after T before k ≡ whereabouts_after T (before ++ e ∷ []) k }
{}

/// A reply of a schedule has a call of its VPE at or before it.
pub fn replies_follow_calls()
    ensures called { Always (λ T J. (n : ℕ) (e : Entry) (r : Reply) → IsAt J n e →
        e.reply ≡ Some r → (b : ℕ) × (b ≤ n) × IsCallAt J r.vpe b) }
{}

/// There is at most one answer to the question why an entry of a journal denies a call.
pub fn denials_have_one_text()
    ensures one { (T : Setup) (J : List Entry) (n : ℕ) (text other : List ℕ)
        → IsDenied T J n text → IsDenied T J n other → text ≡ other }
{}

/// There is an answer to the question why entry n of a schedule denies a call: the line of a
/// denial, or that the entry denies none.
pub fn denials_are_explained()
    ensures answer { Always (λ T J. (n : ℕ) → (text : List ℕ) × IsDenied T J n text) }
{}
