// A law of generated setups. The function does nothing: what it promises holds of all of them.
ghost use Rattle.std.specs.Prelude.{◌≡◌, ℕ, ◌*◌, [], Contains};
ghost use Rattle.sem_msg.specs.declared.call.Call.TheVariants.{Exit};
ghost use Rattle.sem_msg.specs.declared.setup.VpeDecl.{VpeDecl};
ghost use Rattle.sem_msg.specs.Setup.{call_count};
ghost use Rattle.sem_gen.specs.Generated.{generated};

/// In a generated setup no VPE ends, since none is killed and none calls `exit`, and each VPE has
/// as many calls as were asked for.
pub fn generated_vpes_go_on()
    ensures kills { (seed vpes calls : ℕ) → (generated seed vpes calls).kills ≡ [] }
    ensures exits { (seed vpes calls : ℕ) → (d : VpeDecl) →
        Contains (generated seed vpes calls).vpes d → Contains d.calls Exit → ⊥ }
    ensures calls { (seed vpes calls : ℕ) → call_count (generated seed vpes calls) ≡ vpes * calls }
{}
