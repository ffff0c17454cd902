ghost use Rattle.std.specs.Prelude.{◌≡◌, ◌++◌, ◌∷◌, [], true, List, OnOk};
ghost use Rattle.sem_msg.specs.declared.entry.Entry.{Entry as EntryData};
ghost use Rattle.sem_msg.specs.Setup.{Setup as SetupData};
ghost use Rattle.sem_check.specs.Replays.{IsWorldAfter};

use sem_kernel::World;
use sem_key::OutOfMemory;
use sem_msg::{Entry, Setup};

/// Watches a world that follows a journal, and gathers what it was asked for.
pub trait Watch {
    /// What it was asked for.
    type Subject;

    // what it was asked for
    ghost subject: { Self → Self.Subject };

    // it has gathered nothing yet
    ghost is_new: { Self → Type 0 };

    // what it has gathered from the entries so far, a schedule
    ghost gathers: { SetupData → List EntryData → Self → Type 0 };

    // the same, once it has also seen the world before the next entry
    ghost expects: { SetupData → List EntryData → EntryData → Self → Type 0 };

    /// Sees the world at the start.
    fn begin(&mut self, setup: &Setup, world: &World)
        requires follows { IsWorldAfter setup.now [] world.now }
        requires new { is_new self.old }
        ensures gathered { gathers setup.now [] self.new }
        ensures same { subject self.new ≡ subject self.old };

    /// Sees the world after the past entries, before the next entry.
    fn before(
        &mut self,
        setup: &Setup,
        world: &World,
        past: &[Entry],
        next: &Entry,
    ) -> Result<(), OutOfMemory>
        requires follows { IsWorldAfter setup.now past.now world.now }
        requires gathered { gathers setup.now past.now self.old }
        ensures expected { OnOk result (expects setup.now past.now next.now self.new) }
        ensures same { subject self.new ≡ subject self.old };

    /// Sees the world after that entry.
    fn after(
        &mut self,
        setup: &Setup,
        world: &World,
        past: &[Entry],
        next: &Entry,
    ) -> Result<(), OutOfMemory>
        requires follows { IsWorldAfter setup.now (past.now ++ next.now ∷ []) world.now }
        requires expected { expects setup.now past.now next.now self.old }
        ensures gathered { OnOk result (gathers setup.now (past.now ++ next.now ∷ []) self.new) }
        ensures same { subject self.new ≡ subject self.old };
}

/// Is told the entries of a journal that a world follows. Nothing is promised about what it does
/// with them.
pub trait Note {
    /// Is told the entry after the past ones, and the world after it.
    fn note(
        &mut self,
        setup: &Setup,
        world: &World,
        past: &[Entry],
        entry: &Entry,
    ) -> Result<(), OutOfMemory>;
}

/// Watches for what is told the entries, and gathers nothing that it promises.
#[derive(Debug, Drop)]
pub struct Noting<N: Note>(pub N);

impl<N: Note> Watch for Noting<N> {
    type Subject = bool;

    ghost subject = { λ _. true };

    ghost is_new = { λ _. Unit {0} };

    ghost gathers = { λ _ _ _. Unit {0} };

    ghost expects = { λ _ _ _ _. Unit {0} };

    fn begin(&mut self, _setup: &Setup, _world: &World) {}

    fn before(
        &mut self,
        _setup: &Setup,
        _world: &World,
        _past: &[Entry],
        _next: &Entry,
    ) -> Result<(), OutOfMemory> {
        Ok(())
    }

    fn after(
        &mut self,
        setup: &Setup,
        world: &World,
        past: &[Entry],
        next: &Entry,
    ) -> Result<(), OutOfMemory> {
        self.0.note(setup, world, past, next)
    }
}

/// Does nothing with what it is told.
#[derive(Debug, Drop)]
pub struct Unwatched;

impl Note for Unwatched {
    fn note(
        &mut self,
        _setup: &Setup,
        _world: &World,
        _past: &[Entry],
        _entry: &Entry,
    ) -> Result<(), OutOfMemory> {
        Ok(())
    }
}
