ghost use Rattle.std.specs.Prelude.{◌≡◌, ℕ, Contains, Some};
ghost use Rattle.sem_key.specs.KeyName.{KeyName};
ghost use Rattle.sem_key.specs.Capability.{Capability};
ghost use Rattle.sem_msg.specs.declared.message.Message.TheVariants.{RevokeReq};
ghost use Rattle.sem_machine.specs.Schedules.{Always, world_after};
ghost use Rattle.sem_machine.specs.Journals.{grants, made};
ghost use Rattle.sem_machine.specs.Living.{HoldsCap, InFlight};
ghost use Rattle.sem_safety.specs.Causes.{HasCutAncestor};

/// After every schedule of every setup each child link of a held capability is a grant. Every
/// marked key has an ancestor at which a revoke or a clear began, or whose VPE ended. So has each
/// made key that one kernel asks another to revoke.
pub fn marks_have_a_cause()
    ensures links { Always (λ T J. (i : ℕ) (p k : KeyName) (c : Capability) →
        HoldsCap (world_after T J) i p c → Contains c.children k → Contains (grants J) (p, k)) }
    ensures marks { Always (λ T J. (i : ℕ) (k : KeyName) (c : Capability) (j : ℕ) →
        HoldsCap (world_after T J) i k c → c.mark ≡ Some j → HasCutAncestor J k) }
    ensures requests { Always (λ T J. (k : KeyName) (j : ℕ) →
        InFlight (world_after T J) (RevokeReq k j) → Contains (made T J) k → HasCutAncestor J k) }
{}
