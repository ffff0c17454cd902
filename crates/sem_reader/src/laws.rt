// Laws of the texts that are read. The functions do nothing: their promises hold for all texts.
ghost use Rattle.std.specs.Prelude.{◌≡◌, ℕ, ◌⊎◌, List, Some};
ghost use Rattle.sem_msg.specs.Setup.{Setup as SetupRecord, IsSetup};
ghost use Rattle.sem_trace.specs.declared.fault.TraceFault.{TraceFault};
ghost use Rattle.sem_trace.specs.Refusal.{refusal};
ghost use Rattle.sem_trace.specs.TraceText.{canonical};
ghost use Rattle.sem_trace.specs.SetupOfText.{Stands};

/// Each text stands for exactly one setup or has exactly one refusal, and never both.
pub fn one_reading()
    ensures either { (bytes : List ℕ) → ((T : SetupRecord) × Stands bytes T)
        ⊎ ((fault : TraceFault) × (refusal bytes ≡ Some fault)) }
    ensures one_setup { (bytes : List ℕ) (S T : SetupRecord) → Stands bytes S → Stands bytes T →
        S ≡ T }
    ensures one_refusal { (bytes : List ℕ) (f g : TraceFault) → refusal bytes ≡ Some f →
        refusal bytes ≡ Some g → f ≡ g }
    ensures never_both { (bytes : List ℕ) (T : SetupRecord) (fault : TraceFault) → Stands bytes T →
        refusal bytes ≡ Some fault → ⊥ }
{}

/// A setup that a text stands for keeps every rule of a setup.
pub fn texts_stand_for_setups()
    ensures { (bytes : List ℕ) (T : SetupRecord) → Stands bytes T → IsSetup T }
{}

/// The canonical text of a setup is not refused, and stands for that setup.
pub fn canonical_stands()
    ensures { (T : SetupRecord) → IsSetup T → Stands (canonical T) T }
{}
