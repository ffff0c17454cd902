ghost use Rattle.std.specs.Prelude.{◌≡◌, ◌↔◌, ℕ, ◌<◌, ◌≤◌, List, [], ◌∷◌, ◌++◌, length};
ghost use Rattle.std.specs.Prelude.{slice_index_or, Contains};
ghost use Rattle.sem_msg.specs.declared.entry.Entry.{Entry};
ghost use Rattle.sem_msg.specs.Setup.{Setup};
ghost use Rattle.sem_histories.specs.Outcomes.{HasSameParts};
ghost use Rattle.sem_histories.specs.Trees.{IsTree, part_below, AreTrees, AreNumbersOf};

/// In a tree of parts the number of a part tells it. A node joins the end, unless there is one with
/// its parent and its entry.
pub fn trees_tell_parts()
    ensures start { IsTree [] ([] ∷ []) }
    ensures put { (nodes : List (ℕ × Entry)) (parts : List (List Entry)) (p : ℕ) (e : Entry) →
        IsTree nodes parts
        → p ≤ length nodes → (Contains nodes (p, e) → ⊥)
        → IsTree (nodes ++ (p, e) ∷ []) (parts ++ part_below parts p e ∷ []) }
    ensures tell { (nodes : List (ℕ × Entry)) (parts : List (List Entry)) (i j : ℕ) →
        IsTree nodes parts
        → i < length parts → j < length parts →
        slice_index_or parts i [] ≡ slice_index_or parts j [] → i ≡ j }
{}

/// With a tree for each kernel, two journals have the same numbers exactly if they have the same
/// parts. So a history is a list of numbers.
pub fn numbers_tell_histories()
    ensures { (T : Setup) (trees : List (List (List Entry))) (ns ms : List ℕ) (J K : List Entry) →
        AreTrees T trees
        → AreNumbersOf T trees ns J → AreNumbersOf T trees ms K → (ns ≡ ms) ↔ HasSameParts T J K }
{}
