ghost use Rattle.std.specs.Prelude.{Bool, ◌≡◌, ◌==◌, ◌+◌, ℕ, not, List, [], ◌∷◌, ◌++◌, drop};
ghost use Rattle.std.specs.Prelude.{Option, Some, None, if◌then◌else◌};
ghost use Rattle.std.specs.Option.{option_map, option_or};
ghost use Rattle.sem_key.specs.KeyName.{KeyName, key_eq};
ghost use Rattle.sem_key.specs.Capability.{Capability};
ghost use Rattle.sem_key.specs.CapList.{is_marked_by};
ghost use Rattle.sem_msg.specs.declared.message.Message.{Message};
ghost use Rattle.sem_msg.specs.declared.state.Parked.{Parked};
ghost use Rattle.sem_msg.specs.declared.state.Pending.{Pending};
ghost use Rattle.sem_msg.specs.declared.state.Up.{Up};
ghost use Rattle.sem_msg.specs.Rows.{Endpoint, JobRow, VpeRow};
ghost use Rattle.sem_msg.specs.EndpointRows.{with_endpoint_in, all_unbound_from};
ghost use Rattle.sem_machine.specs.Sides.{Side, cap, row, pending, job, outbox, parked, with_row};
ghost use Rattle.sem_machine.specs.Sides.{with_endpoint, parked_as, unparked, unbind_all};
ghost use Rattle.sem_machine.specs.Sides.{cap_added, cap_changed, mark_all, caps_removed};
ghost use Rattle.sem_machine.specs.Sides.{pending_added, pending_removed, job_opened, job_changed};
ghost use Rattle.sem_machine.specs.Sides.{job_removed, send, sent, with_inbox, parked};
ghost use Rattle.sem_key.specs.Region.{has_key};
ghost use Rattle.sem_machine.specs.Machine.{World, side, link, with_side, with_link};
ghost use Rattle.sem_machine.specs.Living.{way};
ghost use Rattle.sem_safety.specs.Observations.{seen, observed, at, at_key, endpoints, caps_changed};
ghost use Rattle.sem_safety.specs.Observations.{if_kept, AreDistinct};

/// How each change of a side appears in what is seen of the side; nothing else of it changes.
pub fn changes_are_seen()
    // All changes of what is kept of one VPE: calls, numbers, selectors, asks, the end. Its
    // endpoints and its parked call are kept apart.
    ensures row { (v : ℕ) (f : VpeRow → VpeRow) (s : Side) →
        seen (with_row v f s) ≡ record (seen s) { row = at v (f (row s v)) (row s) } }
    ensures unbound { (ks : List KeyName) (s : Side) →
        seen (unbind_all ks s)
        ≡ record (seen s) { endpoints = λ v. all_unbound_from ks (endpoints s v) } }
    ensures endpoint { (v ep : ℕ) (e : Option Endpoint) (s : Side) →
        seen (with_endpoint v ep e s)
        ≡ record (seen s) {
          endpoints =
              at v (with_endpoint_in (endpoints s v) ep e) (endpoints s);
        } }
    ensures parked { (v : ℕ) (p : Parked) (s : Side) →
        seen (parked_as v p s) ≡ record (seen s) { parked = at v (Some p) (parked s) } }
    ensures unparked { (v : ℕ) (s : Side) →
        seen (unparked v s) ≡ record (seen s) { parked = at v None (parked s) } }

    // Capabilities. A link is a change of the parent, and an installed capability is added.
    ensures cap_added { (c : Capability) (s : Side) →
        seen (cap_added c s) ≡ record (seen s) { cap = at_key c.key (Some c) (cap s) } }
    ensures cap_changed { (k : KeyName) (f : Capability → Capability) (s : Side) →
        ((c : Capability) → (f c).key ≡ c.key) →
        seen (cap_changed k f s)
        ≡ record (seen s) { cap = caps_changed (λ q. key_eq q k) f (cap s) } }
    ensures marked { (ks : List KeyName) (j : ℕ) (s : Side) →
        seen (mark_all ks j s)
        ≡ record (seen s) {
          cap =
              caps_changed (has_key ks) (λ c. record c { mark = Some j }) (cap s);
        } }
    ensures removed { (j : ℕ) (s : Side) → AreDistinct s.caps →
        seen (caps_removed j s)
        ≡ record (seen s) { cap = λ q. if_kept (λ c. not (is_marked_by j c)) (cap s q) } }

    // Pending delegations.
    ensures pending_added { (p : Pending) (s : Side) →
        seen (pending_added p s)
        ≡ record (seen s) {
          pending = λ k. option_or (pending s k) (if key_eq p.key k then Some p
              else None);
        } }
    ensures pending_removed { (k : KeyName) (s : Side) →
        seen (pending_removed k s) ≡ record (seen s) { pending = at_key k None (pending s) } }

    // Jobs.
    ensures job_opened { (root : KeyName) (up : Option Up) (waiters : List ℕ) (keep : Bool)
        (s : Side) →
        seen (job_opened root up waiters keep s)
        ≡ record (seen s) {
          job = λ j. option_or (job s j) (if s.next_job == j
              then Some (record {
                id = s.next_job;
                root = root;
                up = up;
                waiters = waiters;
                count = 0;
                keep = keep;
              }) else None);
          next_job = s.next_job + 1;
        } }
    ensures job_changed { (j : ℕ) (f : JobRow → JobRow) (s : Side) →
        ((x : JobRow) → (f x).id ≡ x.id) →
        seen (job_changed j f s) ≡ record (seen s) {
          job = λ q. if q == j
              then option_map f (job s q) else job s q;
        } }
    ensures job_removed { (j : ℕ) (s : Side) →
        seen (job_removed j s) ≡ record (seen s) { job = at j None (job s) } }

    // Messages.
    ensures send { (j : ℕ) (m : Message) (s : Side) →
        seen (send j m s) ≡ record (seen s) { outbox = at j (outbox s j ++ m ∷ []) (outbox s) } }
    ensures sent { (j : ℕ) (s : Side) →
        seen (sent j s) ≡ record (seen s) { outbox = at j (drop 1 (outbox s j)) (outbox s) } }
    ensures inbox { (message : Option (ℕ × Message)) (s : Side) →
        seen (with_inbox message s) ≡ record (seen s) { inbox = message } }
{}

/// How a changed side and a changed link appear in what is observed of a world.
pub fn worlds_are_observed()
    ensures side { (i : ℕ) (s : Side) (W : World) →
        observed (with_side i s W)
        ≡ record (observed W) { kernel = at i (seen s) (λ j. seen (side W j)) } }
    ensures link { (i j : ℕ) (messages : List Message) (W : World) →
        observed (with_link i j messages W)
        ≡ record (observed W) { link = at i (at j messages (link W i)) (link W) } }
{}

/// A flush and a fetch leave all ways as they are. A handled message was the front of its way, and
/// a sent one stands at the end of its way; all other ways stay.
pub fn messages_keep_their_way()
    ensures flush { (i j : ℕ) (m : Message) (rest : List Message) (W : World) →
        outbox (side W i) j ≡ m ∷ rest → (a b : ℕ) →
        way (with_link i j (link W i j ++ m ∷ []) (with_side i (sent j (side W i)) W)) a b
        ≡ way W a b }
    ensures fetch { (i j : ℕ) (m : Message) (rest : List Message) (W : World) →
        link W i j ≡ m ∷ rest → (side W j).inbox ≡ None → (a b : ℕ) →
        way (with_link i j rest (with_side j (with_inbox (Some (i, m)) (side W j)) W)) a b
        ≡ way W a b }
    ensures handled { (i j : ℕ) (m : Message) (W : World) → (side W j).inbox ≡ Some (i, m) →
        way W i j ≡ m ∷ way (with_side j (with_inbox None (side W j)) W) i j }
    ensures handled_other { (i j : ℕ) (m : Message) (W : World) → (side W j).inbox ≡ Some (i, m) →
        (a b : ℕ) → ((a ≡ i) × (b ≡ j) → ⊥) →
        way (with_side j (with_inbox None (side W j)) W) a b ≡ way W a b }
    ensures sent { (i j : ℕ) (m : Message) (W : World) →
        way (with_side i (send j m (side W i)) W) i j ≡ way W i j ++ m ∷ [] }
    ensures sent_other { (i j : ℕ) (m : Message) (W : World) → (a b : ℕ) → ((a ≡ i) × (b ≡ j) → ⊥) →
        way (with_side i (send j m (side W i)) W) a b ≡ way W a b }
{}
