// What the lines so far say, by number.
ghost use Rattle.std.specs.Prelude.{◌≡◌, ◌≤◌, []};
ghost use Rattle.sem_files.specs.Said.{files_of};
ghost use Rattle.sem_files.specs.Tells.{files_in, Tells};

use crate::files::{ClientList, CommandList, FileList};
use crate::handles::Handles;
use crate::numbers::Numbers;
use std::alloc::Global;

/// The most files of a text.
pub(crate) const FILES: usize = 16;

/// The number of clients that a text can declare, and one more.
pub(crate) const CLIENTS: usize = 64;

/// What is said so far, in the order of the lines, and by number. Only `enter` takes memory.
#[derive(Drop)]
pub(crate) struct Tables {
    pub kernels: u32,
    pub files: FileList,
    pub clients: ClientList,
    pub commands: CommandList,
    /// How many extents each declared file has.
    pub extents: [Option<u8>; FILES],
    /// Which clients are declared.
    pub declared: [bool; CLIENTS],
    /// Which clients do something.
    pub begun: [bool; CLIENTS],
    /// How often each client opens a file.
    pub openings: [u32; CLIENTS],
    /// The handles of each client.
    pub handles: [Handles; CLIENTS],
    /// The numbers under which each client received files.
    pub used: [Numbers; CLIENTS],
    /// How many calls there are.
    pub calls: u32,
}

impl Tables {
    /// That many kernels, and nothing else said yet.
    pub(crate) fn new(alloc: Global, kernels: u32) -> Tables
        requires some { 1 ≤ kernels }
        requires few { kernels ≤ 16 }
        ensures said { files_in result ≡ files_of kernels [] }
        ensures tells { Tells result }
    {
        Tables {
            kernels,
            files: FileList::new(alloc),
            clients: ClientList::new(alloc),
            commands: CommandList::new(alloc),
            extents: [None; FILES],
            declared: [false; CLIENTS],
            begun: [false; CLIENTS],
            openings: [0; CLIENTS],
            handles: [Handles::new(); CLIENTS],
            used: [Numbers::new(); CLIENTS],
            calls: 0,
        }
    }
}
