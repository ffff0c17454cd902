// Which files and clients are declared.
ghost use Rattle.std.specs.Prelude.{◌≡◌, ◌≤◌, ◌==◌};
ghost use Rattle.std.specs.List.{list_any};
ghost use Rattle.sem_files.specs.Files.{is_client, extents_of as extents_of_spec};
ghost use Rattle.sem_fs.specs.Extents.{extents_among};

use sem_files::{Command, FileDecl, Files};

// How many extents the file has among these; 0 if it is not declared.
fn extents_in(files: &[FileDecl], file: u8) -> u8
    ensures { result ≡ extents_among files.now file }
{
    for declared in files {
        if declared.file == file {
            return declared.extents;
        }
    }
    0
}

// How many extents a file has; 0 if it is not declared.
pub fn extents_of(files: &Files, file: u8) -> u8
    ensures extents { result ≡ extents_of_spec files.now file }
    ensures few { result ≤ 4 }
{
    extents_in(files.files.as_slice(), file)
}

fn is_among(clients: &[u16], client: u16) -> bool
    ensures { result ≡ list_any (λ c. c == client) clients.now }
{
    clients.iter().any(|declared| *declared == client)
}

pub fn has_client(files: &Files, client: u16) -> bool
    ensures { result ≡ is_client files.now client }
{
    is_among(files.clients.as_slice(), client)
}

// Whether one of the commands is the client's.
pub fn has_commands(commands: &[Command], client: u16) -> bool
    ensures { result ≡ list_any (λ c. c.client == client) commands.now }
{
    commands.iter().any(|command| command.client == client)
}
