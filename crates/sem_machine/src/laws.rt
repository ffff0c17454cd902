//! Laws about the definitions of the machine. Each is the contract of a function that does nothing.

ghost use Rattle.std.specs.Prelude.{◌≡◌, ◌≢◌, ◌↔◌, ℕ, true, false, List, [], ◌++◌, Some};
ghost use Rattle.std.specs.Prelude.{None, All, Contains, find, map, ◌<◌, length, slice_index_or};
ghost use Rattle.std.specs.Prelude.{slice_set};
ghost use Rattle.std.specs.Option.{option_map};
ghost use Rattle.sem_key.specs.KeyName.{KeyName, IsValidKey, key_eq};
ghost use Rattle.sem_key.specs.KeyList.{IsRising};
ghost use Rattle.sem_key.specs.Lists.{change, put, in_turn};
ghost use Rattle.sem_key.specs.Capability.{Capability};
ghost use Rattle.sem_key.specs.CapList.{with_cap};
ghost use Rattle.sem_msg.specs.declared.event.Event.{Event};
ghost use Rattle.sem_msg.specs.declared.entry.Entry.{Entry};
ghost use Rattle.sem_msg.specs.Setup.{Setup, IsSetup};
ghost use Rattle.sem_key.specs.Region.{has_key, Reached, region};
ghost use Rattle.sem_machine.specs.Machine.{World, enabled, is_enabled};
ghost use Rattle.sem_machine.specs.Schedules.{IsSchedule};

/// A write that fills the list up to its place, and then a read: at that place the read gives the
/// written element, at every other place what it gave before. Within the list it is the write of a
/// slice.
pub fn put_is_read<X>()
    ensures same { (d : X) (xs : List X) (i : ℕ) (x : X) → slice_index_or (put d xs i x) i d ≡ x }
    ensures other { (d : X) (xs : List X) (i j : ℕ) (x : X) → j ≢ i →
        slice_index_or (put d xs i x) j d ≡ slice_index_or xs j d }
    ensures within { (d : X) (xs : List X) (i : ℕ) (x : X) → i < length xs →
        put d xs i x ≡ slice_set xs i x }
{}

/// To take the elements of two joined lists in turn is to take those of the first and then those of
/// the second.
pub fn in_turn_is_joined<X, S>()
    ensures { (f : X → S → S) (xs ys : List X) (s : S) →
        in_turn f (xs ++ ys) s ≡ in_turn f ys (in_turn f xs s) }
{}

/// An added capability is found under its key; what every other key finds stays.
pub fn cap_added_is_found()
    ensures same { (cs : List Capability) (c : Capability) (k : KeyName) → key_eq c.key k ≡ true →
        find (λ x. key_eq x.key k) (with_cap cs c) ≡ Some c }
    ensures other { (cs : List Capability) (c : Capability) (k : KeyName) → key_eq c.key k ≡ false →
        find (λ x. key_eq x.key k) (with_cap cs c) ≡ find (λ x. key_eq x.key k) cs }
{}

/// A change that keeps the keys is found under the key where it was made; what every other key
/// finds stays.
pub fn cap_changed_is_found()
    ensures same { (cs : List Capability) (f : Capability → Capability) (q k : KeyName) →
        ((c : Capability) → (f c).key ≡ c.key) → key_eq q k ≡ true →
        find (λ x. key_eq x.key k) (change (λ c. key_eq c.key q) f cs)
        ≡ option_map f (find (λ x. key_eq x.key k) cs) }
    ensures other { (cs : List Capability) (f : Capability → Capability) (q k : KeyName) →
        ((c : Capability) → (f c).key ≡ c.key) → key_eq q k ≡ false →
        find (λ x. key_eq x.key k) (change (λ c. key_eq c.key q) f cs)
        ≡ find (λ x. key_eq x.key k) cs }
{}

/// The keys of capabilities still rise after one is added under a valid key that was not there.
pub fn cap_added_keeps_order()
    ensures { (cs : List Capability) (c : Capability) → IsRising (map (λ x. x.key) cs) →
        All IsValidKey (map (λ x. x.key) cs) → IsValidKey c.key →
        find (λ x. key_eq x.key c.key) cs ≡ None → IsRising (map (λ x. x.key) (with_cap cs c)) }
{}

/// The list of enabled events has exactly the events that are enabled.
pub fn enabled_is_exact()
    ensures { (T : Setup) (W : World) (e : Event) →
        Contains (enabled T W) e ↔ (is_enabled T W e ≡ true) }
{}

/// If the keys of the capabilities rise, the region of a root has exactly the keys that are reached
/// from it, in rising order. It is empty if the root is not held or is marked.
pub fn region_is_exact()
    ensures exact { (caps : List Capability) (root k : KeyName) → IsRising (map (λ c. c.key) caps) →
        ((has_key (region caps root) k ≡ true) ↔ Reached caps root k) }
    ensures rising { (caps : List Capability) (root : KeyName) → IsRising (map (λ c. c.key) caps) →
        IsRising (region caps root) }
    ensures empty { (caps : List Capability) (root : KeyName) → IsRising (map (λ c. c.key) caps) →
        ((c : Capability) → find (λ x. key_eq x.key root) caps ≡ Some c → c.mark ≢ None) →
        region caps root ≡ [] }
{}

/// A setup of version 1 is also one of version 2 with a window of 4, and then has the same
/// schedules: the machine reads the window of a setup, and never its version.
pub fn same_runs()
    ensures window { (T : Setup) → IsSetup T → T.version ≡ 1 → T.window ≡ 4 }
    ensures setup { (T : Setup) → IsSetup T → T.version ≡ 1 → IsSetup (record T { version = 2 }) }
    ensures same { (T : Setup) (J : List Entry) → T.version ≡ 1 →
        (IsSchedule T J ↔ IsSchedule (record T { version = 2 }) J) }
{}
