// Laws of the lines of entries. The functions do nothing: their promises hold for all entries.
ghost use Rattle.std.specs.Prelude.{◌≡◌, ℕ, ◌≤◌, length, None};
ghost use Rattle.sem_key.specs.declared.limits.TheConstants.{KERNELS};
ghost use Rattle.sem_msg.specs.declared.entry.Entry.{Entry};
ghost use Rattle.sem_text.specs.Lines.{line};
ghost use Rattle.sem_journal.specs.EntryText.{entry_words};
ghost use Rattle.sem_journal.specs.EntryForms.{entry_fault};
ghost use Rattle.sem_journal.specs.EntryRanges.{EntryFits};

/// The line of an entry has at most 160 bytes and the line end.
pub fn entry_lines_are_short()
    ensures { (version kernels : ℕ) (e : Entry) → kernels ≤ KERNELS → EntryFits version kernels e
        → length (line (entry_words e)) ≤ 161 }
{}

/// The words printed for an entry have no fault.
pub fn entries_are_read()
    ensures { (version kernels : ℕ) (e : Entry) → 1 ≤ kernels → kernels ≤ KERNELS
        → EntryFits version kernels e → entry_fault version kernels (entry_words e) ≡ None }
{}

/// The words printed for an entry tell only that entry.
pub fn one_entry()
    ensures { (version kernels : ℕ) (e f : Entry) → EntryFits version kernels e
        → EntryFits version kernels f → kernels ≤ KERNELS → entry_words e ≡ entry_words f
        → e ≡ f }
{}
