// The files that the handles of a client have open.
ghost use Rattle.std.specs.Prelude.{◌≡◌, ℕ, ◌≤◌, List, [], ◌∷◌, ◌++◌, None, slice_index_or};
ghost use Rattle.std.specs.Prelude.{replicate};
ghost use Rattle.sem_files.specs.declared.files.Command.{Command as CommandData};
ghost use Rattle.sem_files.specs.Files.{handle_of};
ghost use Rattle.sem_files.specs.Handles.{TellsHandles, handles_after};

use crate::files::FileAct;
use std::marker::Model;

/// How many handles a client has.
pub const HANDLES: usize = 16;

/// The file that each handle of a client has open.
#[derive(Clone, Copy, Debug)]
pub struct Handles {
    files: [Option<u8>; HANDLES],
}

impl Model for Handles {
    ghost use Rattle.std.specs.Prelude.{ℕ, List, Option};

    ghost Value = { List (Option ℕ) };

    ghost view = { λ h. h.files };

    ghost inverse = { λ hs. record { files = hs } };
}

impl Handles {
    /// No handle is open.
    pub fn new() -> Self
        ensures none { result ≡ replicate 16 None }
        ensures tells { (v : ℕ) → TellsHandles [] v result }
    {
        Handles {
            files: [None; HANDLES],
        }
    }

    /// The file that the handle has open; none if it is not open.
    pub fn file(&self, handle: u8) -> Option<u8>
        ensures { result ≡ slice_index_or self.now handle None }
    {
        self.files.get(usize::from(handle)).copied().flatten()
    }

    /// Notes what the client does. What another client does changes nothing.
    pub fn note(&mut self, act: FileAct)
        requires { handle_of act ≤ 15 }
        ensures after { self.new ≡ handles_after self.old act }
        ensures own { (before : List CommandData) (v : ℕ) → TellsHandles before v self.old →
            TellsHandles (before ++ record { client = v; act = act } ∷ []) v self.new }
    {
        match act {
            FileAct::OpenFile { handle, file } => self.files[usize::from(handle)] = Some(file),
            FileAct::Close { handle } => self.files[usize::from(handle)] = None,
            FileAct::Read { .. } | FileAct::Write { .. } | FileAct::Share { .. } => {}
        }
    }
}
