use sem_msg::Seq;
use std::marker::Model;

/// What a client does with one of its handles.
#[derive(Clone, Copy, Debug, PartialEq, Eq)]
pub enum FileAct {
    /// Open a file.
    OpenFile { handle: u8, file: u8 },
    /// Read a range of the file, in bytes.
    Read { handle: u8, off: u32, len: u32 },
    /// Write a range of the file, in bytes.
    Write { handle: u8, off: u32, len: u32 },
    /// Give the extents of the file to another client, under a number of that client.
    Share { handle: u8, to: u16, other: u8 },
    /// Close the file.
    Close { handle: u8 },
}

/// A file, 0 to 15, and how many extents of 4096 bytes it has, 1 to 4.
#[derive(Clone, Copy, Debug, PartialEq, Eq)]
pub struct FileDecl {
    pub file: u8,
    pub extents: u8,
}

/// A client, 1 to 63, and what it does.
#[derive(Clone, Copy, Debug, PartialEq, Eq)]
pub struct Command {
    pub client: u16,
    pub act: FileAct,
}

/// The declared files, in the order of their lines.
pub type FileList = Seq<FileDecl>;

/// The declared clients, in the order of their lines.
pub type ClientList = Seq<u16>;

/// What the clients do, in the order of the lines.
pub type CommandList = Seq<Command>;

/// What a text of file commands says. The type keeps every rule of such a text.
#[derive(Debug, Drop)]
pub struct Files {
    /// How many kernels there are: 1 to 16.
    pub kernels: u32,
    pub files: FileList,
    pub clients: ClientList,
    pub commands: CommandList,
}

impl Model for Files {
    ghost use Rattle.sem_files.specs.Files.{Files as FilesRecord};
    ghost use Rattle.sem_files.specs.Compiled.{AreFiles};

    ghost Value = { FilesRecord };

    ghost view = { λ f. record {
      kernels = f.kernels;
      files = f.files;
      clients = f.clients;
      commands = f.commands;
    } };

    ghost invariant = { λ f. AreFiles (record {
      kernels = f.kernels;
      files = f.files;
      clients = f.clients;
      commands = f.commands;
    }) };
}
