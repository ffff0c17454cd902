ghost use Rattle.std.specs.Prelude.{◌≡◌, ℕ, ◌<◌, true, List, [], ◌∷◌, ◌++◌, length, drop};
ghost use Rattle.std.specs.Prelude.{slice_get, Option, None, Some};
ghost use Rattle.sem_msg.specs.declared.message.Message.{Message};
ghost use Rattle.sem_msg.specs.declared.event.Act.{Act};
ghost use Rattle.sem_msg.specs.declared.event.Act.TheVariants.{Fetch, Flush, Kill};
ghost use Rattle.sem_msg.specs.declared.entry.Entry.{Entry};
ghost use Rattle.sem_msg.specs.declared.entry.Detail.TheVariants.{Carried};
ghost use Rattle.sem_msg.specs.Setup.{Setup};
ghost use Rattle.sem_msg.specs.Journal.{part, replies};
ghost use Rattle.sem_msg.specs.Fabric.{FabricValue, FabricAgrees, IsOwnAct, is_due, link_in};
ghost use Rattle.sem_msg.specs.Fabric.{relinked, entered};
ghost use Rattle.sem_machine.specs.Sides.{Side, outbox};
ghost use Rattle.sem_machine.specs.Machine.{is_locally_enabled, local_step, local_entry};
ghost use Rattle.sem_parts.specs.Parts.{IsHanded, RunsTo};
ghost use Rattle.sem_parts.specs.SidesAfter.{HasEntered};

/// If a kernel is at the end of its local run, it is after its step at the end of the run with one
/// more entry, whatever the links are.
pub fn steps_go_on()
    ensures { (T : Setup) (i : ℕ) (L : List Entry) (s : Side) (a : Act) (input : Option Message)
        → RunsTo T i L s → IsHanded a input → is_locally_enabled T i s a ≡ true
        → RunsTo T i (L ++ local_entry T i s a input ∷ []) (local_step T i s a input).side }
{}

/// The step of a kernel is entered. The fabric agrees with its journal, and the kernel is at the
/// end of its part. The entry is that of an act that the kernel does alone, of a fetch of the
/// oldest message of a link, of a flush into a link with room, or of a kill that is due. A flush
/// moves the message that waited longest.
pub fn steps_are_entered()
    ensures own { (T : Setup) (f : FabricValue) → FabricAgrees T f → (i : ℕ) → i < f.kernels →
        (s : Side)
        → RunsTo T i (part f.journal i) s → (a : Act) → IsOwnAct a →
        is_locally_enabled T i s a ≡ true
        → HasEntered T i (local_entry T i s a None) (local_step T i s a None).side f
        (entered (local_entry T i s a None) f) }
    ensures fetch { (T : Setup) (f : FabricValue) → FabricAgrees T f → (i : ℕ) → i < f.kernels →
        (s : Side)
        → RunsTo T i (part f.journal i) s → (j : ℕ) (m : Message) →
        is_locally_enabled T i s (Fetch j) ≡ true
        → slice_get (link_in f.links j i) 0 ≡ Some m
        → HasEntered T i (local_entry T i s (Fetch j) (Some m))
        (local_step T i s (Fetch j) (Some m)).side f
        (entered (local_entry T i s (Fetch j) (Some m))
        (relinked j i (drop 1 (link_in f.links j i)) f)) }
    ensures flush { (T : Setup) (f : FabricValue) → FabricAgrees T f → (i : ℕ) → i < f.kernels →
        (s : Side)
        → RunsTo T i (part f.journal i) s → (j : ℕ) (m : Message) →
        is_locally_enabled T i s (Flush j) ≡ true
        → (local_entry T i s (Flush j) None).detail ≡ Carried j m →
        length (link_in f.links i j) < f.window
        → HasEntered T i (local_entry T i s (Flush j) None) (local_step T i s (Flush j) None).side f
        (entered (local_entry T i s (Flush j) None)
        (relinked i j (link_in f.links i j ++ m ∷ []) f)) }
    ensures kill { (T : Setup) (f : FabricValue) → FabricAgrees T f → (i : ℕ) → i < f.kernels →
        (s : Side)
        → RunsTo T i (part f.journal i) s → (v : ℕ) → is_locally_enabled T i s (Kill v) ≡ true
        → is_due T (length (replies f.journal)) v ≡ true
        → HasEntered T i (local_entry T i s (Kill v) None) (local_step T i s (Kill v) None).side f
        (entered (local_entry T i s (Kill v) None) f) }
    ensures carries { (T : Setup) (i : ℕ) (s : Side) (j : ℕ) →
        is_locally_enabled T i s (Flush j) ≡ true
        → (m : Message) × ((local_entry T i s (Flush j) None).detail ≡ Carried j m)
        × (slice_get (outbox s j) 0 ≡ Some m) }
{}
