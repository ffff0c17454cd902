ghost use Rattle.std.specs.Prelude.{◌≡◌, ℕ, ◌+◌, ◌<◌, ◌≤◌, true, List, [], ◌∷◌, ◌++◌, length};
ghost use Rattle.std.specs.Prelude.{slice_get, Some};
ghost use Rattle.sem_msg.specs.declared.entry.Entry.{Entry};
ghost use Rattle.sem_msg.specs.declared.event.Event.{Event};
ghost use Rattle.sem_msg.specs.Setup.{Setup, IsSetup};
ghost use Rattle.sem_machine.specs.Machine.{is_enabled, enabled};
ghost use Rattle.sem_machine.specs.Schedules.{IsSchedule, world_after};
ghost use Rattle.sem_histories.specs.Outcomes.{and_then};
ghost use Rattle.sem_histories.specs.Closed.{Telling, CountsAs, Represents, IsClosed};
ghost use Rattle.sem_histories.specs.Search.{HasMoreThan, IsSearched, HasGoneOn};
ghost use Rattle.sem_histories.specs.Listing.{Witness, ListsOutcomes, ListsAllOutcomes};

/// How a search that ends with a closed set proceeds. It starts with the empty journal. The result
/// of an event joins the end of the list, unless the list represents it. Once this is done for each
/// enabled event of the next schedule of the list, the search has gone on from one more. Once it
/// has gone on from all, the list is closed.
pub fn searches_end_closed()
    ensures start { (by : Telling) (T : Setup) → IsSearched (CountsAs by T) T ([] ∷ []) 0 }
    ensures put { (by : Telling) (T : Setup) (V : List (List Entry)) (n : ℕ) (J : List Entry)
        (e : Event)
        → IsSearched (CountsAs by T) T V n → IsSchedule T J →
        is_enabled T (world_after T J) e ≡ true
        → (Represents (CountsAs by T) V (and_then T J e) → ⊥)
        → IsSearched (CountsAs by T) T (V ++ and_then T J e ∷ []) n }
    ensures there { (by : Telling) (T : Setup) (V : List (List Entry)) (J : List Entry)
        → Represents (CountsAs by T) (V ++ J ∷ []) J }
    ensures kept { (by : Telling) (T : Setup) (V : List (List Entry)) (J K : List Entry)
        (es : List Event)
        → HasGoneOn (CountsAs by T) T V J es → HasGoneOn (CountsAs by T) T (V ++ K ∷ []) J es }
    ensures next { (by : Telling) (T : Setup) (V : List (List Entry)) (n : ℕ) (J : List Entry)
        → IsSearched (CountsAs by T) T V n → slice_get V n ≡ Some J
        → HasGoneOn (CountsAs by T) T V J (enabled T (world_after T J))
        → IsSearched (CountsAs by T) T V (n + 1) }
    ensures closed { (by : Telling) (T : Setup) (V : List (List Entry)) →
        IsSearched (CountsAs by T) T V (length V)
        → IsClosed (CountsAs by T) T V }
{}

/// What a search may answer. If the closed list keeps the limit, its witnesses are all witnesses of
/// the setup, and there are no more histories than the limit. If a list is longer, there are more.
pub fn searches_tell_enough()
    ensures all { (by : Telling) (T : Setup) → IsSetup T →
        (V : List (List Entry)) (witnesses : List Witness)
        → IsSearched (CountsAs by T) T V (length V) → ListsOutcomes T V witnesses →
        ListsAllOutcomes T witnesses }
    ensures few { (by : Telling) (T : Setup) (V : List (List Entry)) (limit : ℕ) →
        IsSearched (CountsAs by T) T V (length V)
        → length V ≤ limit → HasMoreThan (CountsAs by T) T limit → ⊥ }
    ensures many { (by : Telling) (T : Setup) (V : List (List Entry)) (n limit : ℕ) →
        IsSearched (CountsAs by T) T V n
        → limit < length V → HasMoreThan (CountsAs by T) T limit }
{}
