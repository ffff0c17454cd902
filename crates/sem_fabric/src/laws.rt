ghost use Rattle.std.specs.Prelude.{◌≡◌, ℕ, ◌<◌, true, [], ◌∷◌, ◌++◌, length, drop, slice_get};
ghost use Rattle.std.specs.Prelude.{Some};
ghost use Rattle.sem_msg.specs.declared.message.Message.{Message};
ghost use Rattle.sem_msg.specs.declared.event.Act.TheVariants.{Fetch, Flush, Kill};
ghost use Rattle.sem_msg.specs.declared.entry.Entry.{Entry};
ghost use Rattle.sem_msg.specs.declared.entry.Detail.TheVariants.{Carried};
ghost use Rattle.sem_msg.specs.Setup.{Setup};
ghost use Rattle.sem_msg.specs.Journal.{replies};
ghost use Rattle.sem_msg.specs.Fabric.{FabricValue, FabricAgrees, IsOwnAct, is_due, link_in};
ghost use Rattle.sem_msg.specs.Fabric.{relinked, entered};
ghost use Rattle.sem_fabric.specs.Fabrics.{new_fabric};

/// A fabric agrees with its journal at the start. It still agrees after an entry that tells what
/// was done: an act that a kernel does alone, a fetch of the oldest message of a link, a flush into
/// a link with room, or a kill that is due.
pub fn entries_keep_agreement()
    ensures start { (T : Setup) → FabricAgrees T (new_fabric T) }
    ensures own { (T : Setup) (f : FabricValue) → FabricAgrees T f → (e : Entry) →
        e.event.kernel < f.kernels
        → IsOwnAct e.event.act → FabricAgrees T (entered e f) }
    ensures fetch { (T : Setup) (f : FabricValue) → FabricAgrees T f → (e : Entry) →
        e.event.kernel < f.kernels
        → (j : ℕ) (m : Message) → e.event.act ≡ Fetch j → e.detail ≡ Carried j m
        → slice_get (link_in f.links j e.event.kernel) 0 ≡ Some m
        → FabricAgrees T (entered e
        (relinked j e.event.kernel (drop 1 (link_in f.links j e.event.kernel)) f)) }
    ensures flush { (T : Setup) (f : FabricValue) → FabricAgrees T f → (e : Entry) →
        e.event.kernel < f.kernels
        → (j : ℕ) (m : Message) → e.event.act ≡ Flush j → e.detail ≡ Carried j m
        → length (link_in f.links e.event.kernel j) < f.window
        → FabricAgrees T (entered e
        (relinked e.event.kernel j (link_in f.links e.event.kernel j ++ m ∷ []) f)) }
    ensures kill { (T : Setup) (f : FabricValue) → FabricAgrees T f → (e : Entry) →
        e.event.kernel < f.kernels
        → (v : ℕ) → e.event.act ≡ Kill v → is_due T (length (replies f.journal)) v ≡ true
        → FabricAgrees T (entered e f) }
{}
