ghost use Rattle.std.specs.Prelude.{List, [], ◌∷◌, ◌++◌, Contains};
ghost use Rattle.sem_msg.specs.declared.entry.Entry.{Entry};
ghost use Rattle.sem_msg.specs.Setup.{Setup, IsSetup};
ghost use Rattle.sem_histories.specs.Closed.{Telling, CountsAs, IsClosed};
ghost use Rattle.sem_machine.specs.Living.{IsComplete};
ghost use Rattle.sem_histories.specs.Outcomes.{outcome};
ghost use Rattle.sem_histories.specs.Listing.{Witness, witness_of, outcomes_of, ListsOutcomes};
ghost use Rattle.sem_histories.specs.Listing.{ListsAllOutcomes};

/// The witnesses of a closed set of schedules are all witnesses of the setup.
pub fn listings_are_exact()
    ensures { (by : Telling) (T : Setup) → IsSetup T → (V : List (List Entry)) →
        IsClosed (CountsAs by T) T V
        → (witnesses : List Witness) → ListsOutcomes T V witnesses → ListsAllOutcomes T witnesses }
{}

/// How the list of witnesses grows, schedule by schedule: one that is not complete, or whose
/// outcome is listed, adds nothing; any other adds its witness.
pub fn listings_go_on()
    ensures start { (T : Setup) → ListsOutcomes T [] [] }
    ensures skip { (T : Setup) (V : List (List Entry)) (J : List Entry) (witnesses : List Witness) →
        ListsOutcomes T V witnesses
        → (IsComplete T J → Contains (outcomes_of witnesses) (outcome T J)) →
        ListsOutcomes T (V ++ J ∷ []) witnesses }
    ensures put { (T : Setup) (V : List (List Entry)) (J : List Entry) (witnesses : List Witness) →
        ListsOutcomes T V witnesses
        → IsComplete T J → (Contains (outcomes_of witnesses) (outcome T J) → ⊥)
        → ListsOutcomes T (V ++ J ∷ []) (witnesses ++ witness_of T J ∷ []) }
{}
