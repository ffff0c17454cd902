ghost use Rattle.std.specs.Prelude.{◌≡◌, ◌==◌, ℕ, List, [], length, filter_map};
ghost use Rattle.std.specs.List.{list_any};
ghost use Rattle.sem_key.specs.KeyName.{KeyName};
ghost use Rattle.sem_msg.specs.declared.entry.Entry.{Entry};
ghost use Rattle.sem_key.specs.Region.{has_key};
ghost use Rattle.sem_machine.specs.Journals.{grants, has_ended, cut_from, answered};
ghost use Rattle.sem_safety.specs.History.{history};

/// The history of a journal, noted entry by entry, has what the definitions read off the whole
/// journal.
pub fn histories_tell_journals()
    ensures grants { (J : List Entry) → (history J).grants ≡ grants J }
    ensures cuts { (J : List Entry) → (history J).cuts ≡ filter_map (λ e. e.cut) J }
    ensures cut { (J : List Entry) → (history J).cut ≡ cut_from [] J }
    ensures ended { (J : List Entry) (v : ℕ) →
        list_any (λ w. w == v) (history J).ended ≡ has_ended J v }
    ensures answered { (J : List Entry) (k : KeyName) →
        has_key (history J).answered k ≡ has_key (answered J) k }
    ensures entries { (J : List Entry) → (history J).entries ≡ length J }
{}
