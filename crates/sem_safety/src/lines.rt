ghost use Rattle.std.specs.Prelude.{◌≡◌, ◌≤◌, ℕ, suc, List, [], ◌∷◌, ◌++◌, length, Contains};
ghost use Rattle.sem_key.specs.KeyName.{KeyName};
ghost use Rattle.sem_machine.specs.Journals.{ancestry_in};
ghost use Rattle.sem_machine.specs.Safety.{IsLineage};
ghost use Rattle.sem_safety.specs.Growth.{grown, IsGrown};

/// The lines of keys, if each grant was of a new key below one that was there. Each line ends in a
/// root, by grants. One more grant leaves the old lines, and puts the child before the line of its
/// parent. As many turns as there are grants are enough. An ancestor is there, and its ancestors
/// are ancestors too.
pub fn lines_lead_to_roots()
    ensures lineage { (roots : List KeyName) (gs : List (KeyName × KeyName)) → IsGrown roots gs →
        (n : ℕ) (k : KeyName) → length gs ≤ n → Contains (grown roots gs) k →
        IsLineage roots gs (ancestry_in n gs k) }
    ensures stays { (roots : List KeyName) (gs : List (KeyName × KeyName)) → IsGrown roots gs →
        (p c : KeyName) → (Contains (grown roots gs) c → ⊥) → (n : ℕ) (k : KeyName) →
        Contains (grown roots gs) k → ancestry_in n (gs ++ (p, c) ∷ []) k ≡ ancestry_in n gs k }
    ensures child { (roots : List KeyName) (gs : List (KeyName × KeyName)) → IsGrown roots gs →
        (p c : KeyName) → (Contains (grown roots gs) c → ⊥) → (n : ℕ) →
        Contains (grown roots gs) p →
        ancestry_in (suc n) (gs ++ (p, c) ∷ []) c ≡ c ∷ ancestry_in n gs p }
    ensures enough { (roots : List KeyName) (gs : List (KeyName × KeyName)) → IsGrown roots gs →
        (n m : ℕ) (k : KeyName) → length gs ≤ n → length gs ≤ m → Contains (grown roots gs) k →
        ancestry_in n gs k ≡ ancestry_in m gs k }
    ensures there { (roots : List KeyName) (gs : List (KeyName × KeyName)) → IsGrown roots gs →
        (n : ℕ) (k a : KeyName) → Contains (grown roots gs) k → Contains (ancestry_in n gs k) a →
        Contains (grown roots gs) a }
    ensures above { (roots : List KeyName) (gs : List (KeyName × KeyName)) → IsGrown roots gs →
        (n : ℕ) (k a b : KeyName) → length gs ≤ n → Contains (grown roots gs) k →
        Contains (ancestry_in n gs k) a → Contains (ancestry_in n gs a) b →
        Contains (ancestry_in n gs k) b }
{}
