// Enters an accepted line into the tables.
ghost use Rattle.std.specs.Prelude.{◌≡◌, List, [], ◌∷◌, ◌++◌, ◌&&◌, nat_le, false, None};
ghost use Rattle.std.specs.Prelude.{slice_index_or, OnOk};
ghost use Rattle.sem_files.specs.declared.files.Command.{Command as CommandData};
ghost use Rattle.sem_files.specs.declared.lines.FileLine.TheVariants.{File, Client, Do};
ghost use Rattle.sem_files.specs.Files.{is_opening as is_opening_spec};
ghost use Rattle.sem_files.specs.FileContext.{with_command, context_fault};
ghost use Rattle.sem_files.specs.FileReads.{IsClientNumber, IsActInRange, IsInRange};
ghost use Rattle.sem_files.specs.OneMore.{with_file, with_client, with_file_line};
ghost use Rattle.sem_files.specs.Tells.{files_in, Tells, TellsBegun, CountsOpenings, TellsOpen};
ghost use Rattle.sem_files.specs.Tells.{TellsUsed};

use crate::context::is_opening;
use crate::files::{Command, FileAct, FileDecl};
use crate::handles::Handles;
use crate::lines::FileLine;
use crate::numbers::Numbers;
use crate::tables::{CLIENTS, Tables};
use sem_key::OutOfMemory;

// The client of the command does something.
fn begin(begun: &mut [bool; CLIENTS], command: &Command)
    requires { IsClientNumber command.now.client }
    ensures { (commands : List CommandData) → TellsBegun commands begun.old →
        TellsBegun (commands ++ command.now ∷ []) begun.new }
{
    begun[usize::from(command.client)] = true;
}

// Counts an opening of a file by the client.
fn count_opening(openings: &mut [u32; CLIENTS], command: &Command)
    requires client { IsClientNumber command.now.client }
    requires few { (is_opening_spec command.now.act
        && nat_le 1000 (slice_index_or openings.old command.now.client 0))
        ≡ false }
    ensures { (commands : List CommandData) → CountsOpenings commands openings.old →
        CountsOpenings (commands ++ command.now ∷ []) openings.new }
{
    if is_opening(&command.act) {
        openings[usize::from(command.client)] += 1;
    }
}

// Notes what the client does with a handle.
fn note_handle(handles: &mut [Handles; CLIENTS], command: &Command)
    requires client { IsClientNumber command.now.client }
    requires act { IsActInRange command.now.act }
    ensures { (commands : List CommandData) → TellsOpen commands handles.old →
        TellsOpen (commands ++ command.now ∷ []) handles.new }
{
    handles[usize::from(command.client)].note(command.act);
}

// Notes that the client uses a number of another client to give under.
fn use_number(used: &mut [Numbers; CLIENTS], command: &Command)
    requires { IsActInRange command.now.act }
    ensures { (commands : List CommandData) → TellsUsed commands used.old →
        TellsUsed (commands ++ command.now ∷ []) used.new }
{
    if let FileAct::Share { to, other, .. } = command.act {
        used[usize::from(to)].put(other);
    }
}

impl Tables {
    fn enter_file(&mut self, declared: FileDecl) -> Result<(), OutOfMemory>
        requires tells { Tells self.old }
        requires range { IsInRange (File declared) }
        requires fine { context_fault (files_in self.old) (File declared) ≡ None }
        ensures said { OnOk result (files_in self.new ≡ with_file (files_in self.old) declared) }
        ensures tells { OnOk result (Tells self.new) }
    {
        self.files.push(declared)?;
        self.extents[usize::from(declared.file)] = Some(declared.extents);
        Ok(())
    }

    fn enter_client(&mut self, client: u16) -> Result<(), OutOfMemory>
        requires tells { Tells self.old }
        requires range { IsInRange (Client client) }
        requires fine { context_fault (files_in self.old) (Client client) ≡ None }
        ensures said { OnOk result (files_in self.new ≡ with_client (files_in self.old) client) }
        ensures tells { OnOk result (Tells self.new) }
    {
        self.clients.push(client)?;
        self.declared[usize::from(client)] = true;
        Ok(())
    }

    fn enter_command(&mut self, command: Command) -> Result<(), OutOfMemory>
        requires tells { Tells self.old }
        requires range { IsInRange (Do command) }
        requires fine { context_fault (files_in self.old) (Do command) ≡ None }
        ensures said { OnOk result (files_in self.new ≡ with_command (files_in self.old) command) }
        ensures tells { OnOk result (Tells self.new) }
    {
        let calls = self.new_calls(&command);
        self.commands.push(command)?;
        self.calls += calls;
        begin(&mut self.begun, &command);
        count_opening(&mut self.openings, &command);
        note_handle(&mut self.handles, &command);
        use_number(&mut self.used, &command);
        Ok(())
    }

    /// Enters what a line says; nothing may be wrong with it.
    pub(crate) fn enter(&mut self, line: FileLine) -> Result<(), OutOfMemory>
        requires tells { Tells self.old }
        requires range { IsInRange line }
        requires fine { context_fault (files_in self.old) line ≡ None }
        ensures said { OnOk result (files_in self.new ≡ with_file_line (files_in self.old) line) }
        ensures tells { OnOk result (Tells self.new) }
    {
        match line {
            FileLine::Kernels { .. } | FileLine::End => Ok(()),
            FileLine::File { declared } => self.enter_file(declared),
            FileLine::Client { client } => self.enter_client(client),
            FileLine::Do { command } => self.enter_command(command),
        }
    }
}
