// What earlier lines make wrong with a line.
ghost use Rattle.std.specs.Prelude.{◌≡◌, ◌≤◌, ◌&&◌, nat_le, nat_lt, true, false, if◌then◌else◌};
ghost use Rattle.sem_msg.specs.declared.limits.TheConstants.{CALLS as CALLS_SPEC};
ghost use Rattle.sem_files.specs.Files.{is_file as is_file_spec, is_client as is_client_spec};
ghost use Rattle.sem_files.specs.Files.{extents_of as extents_of_spec, file_of as file_of_spec};
ghost use Rattle.sem_files.specs.Files.{open_file as open_file_spec, open_count};
ghost use Rattle.sem_files.specs.Files.{is_opening as is_opening_spec};
ghost use Rattle.sem_files.specs.FileContext.{is_open as is_open_spec, is_astray as is_astray_spec};
ghost use Rattle.sem_files.specs.FileContext.{is_undeclared as is_undeclared_spec};
ghost use Rattle.sem_files.specs.FileContext.{is_repeated as is_repeated_spec};
ghost use Rattle.sem_files.specs.FileContext.{is_twice as is_twice_spec};
ghost use Rattle.sem_files.specs.FileContext.{ends_behind as ends_behind_spec};
ghost use Rattle.sem_files.specs.FileContext.{is_too_long as is_too_long_spec};
ghost use Rattle.sem_files.specs.FileContext.{is_too_much as is_too_much_spec, call_number};
ghost use Rattle.sem_files.specs.FileContext.{with_command, context_fault};
ghost use Rattle.sem_files.specs.FileContext.{astray_word as astray_word_spec};
ghost use Rattle.sem_files.specs.FileContext.{undeclared_word as undeclared_word_spec};
ghost use Rattle.sem_files.specs.FileContext.{repeated_word as repeated_word_spec};
ghost use Rattle.sem_files.specs.FileContext.{twice_word as twice_word_spec};
ghost use Rattle.sem_trace.specs.Forms.{at_word as at_word_spec};
ghost use Rattle.sem_files.specs.FileReads.{IsSmall, IsClientNumber, IsActInRange, IsInRange};
ghost use Rattle.sem_files.specs.OneMore.{declared_extents as declared_extents_spec};
ghost use Rattle.sem_files.specs.OneMore.{new_calls as new_calls_spec};
ghost use Rattle.sem_files.specs.Tells.{files_in, Tells};

use crate::counts::{EXTENT, calls_of_act};
use crate::files::{Command, FileAct};
use crate::lines::FileLine;
use crate::tables::Tables;
use sem_msg::CALLS;
use sem_trace::{Cause, LineFault};

/// The most times that a client can open a file.
const MOST_OPENINGS: u32 = 1000;

/// The most calls of file commands.
const MOST_CALLS: u32 = CALLS as u32;

/// Whether the client opens a file. Takes no memory.
pub(crate) fn is_opening(act: &FileAct) -> bool
    ensures { result ≡ is_opening_spec act.now }
{
    matches!(act, FileAct::OpenFile { .. })
}

// Whether the range of the act ends after a file of that many extents.
fn ends_behind(extents: u8, act: &FileAct) -> bool
    ensures { result ≡ ends_behind_spec extents act.now }
{
    match *act {
        FileAct::Read { off, len, .. } | FileAct::Write { off, len, .. } => {
            u64::from(off) + u64::from(len) > u64::from(EXTENT) * u64::from(extents)
        }
        FileAct::OpenFile { .. } | FileAct::Share { .. } | FileAct::Close { .. } => false,
    }
}

// The fault of that cause at a word.
fn at_word(word: u64, cause: Cause) -> LineFault
    ensures { result ≡ at_word_spec word cause }
{
    LineFault {
        cause,
        word: Some(word),
    }
}

// The word of an act that says what was said before.
fn repeated_word(client: u16, act: &FileAct) -> u64
    ensures { result ≡ repeated_word_spec client act.now }
{
    match *act {
        FileAct::Share { to, .. } => { if to == client { 4 } else { 5 } }
        _ => 3,
    }
}

// The word that says what an earlier line says.
fn twice_word(line: &FileLine) -> u64
    ensures { result ≡ twice_word_spec line.now }
{
    match line {
        FileLine::Kernels { .. } => 0,
        FileLine::Do { command } => repeated_word(command.client, &command.act),
        _ => 1,
    }
}

// How many calls open the session of a client: none if it did something before.
fn session_calls(begun: bool) -> u32
    ensures number { result ≡ (if begun then 0 else 1) }
    ensures few { result ≤ 1 }
{
    if begun { 0 } else { 1 }
}

impl Tables {
    // How many extents the file has, if it is declared.
    fn declared_extents(&self, file: u8) -> Option<u8>
        requires { Tells self.now }
        ensures { result ≡ declared_extents_spec (files_in self.now) file }
    {
        self.extents.get(usize::from(file)).copied().flatten()
    }

    fn is_file(&self, file: u8) -> bool
        requires { Tells self.now }
        ensures { result ≡ is_file_spec (files_in self.now) file }
    {
        self.declared_extents(file).is_some()
    }

    fn extents_of(&self, file: u8) -> u8
        requires { Tells self.now }
        ensures { result ≡ extents_of_spec (files_in self.now) file }
    {
        self.declared_extents(file).unwrap_or(0)
    }

    fn is_client(&self, client: u16) -> bool
        requires { Tells self.now }
        ensures { result ≡ is_client_spec (files_in self.now) client }
    {
        self.declared
            .get(usize::from(client))
            .copied()
            .unwrap_or(false)
    }

    // The file that the handle of the client has open.
    fn open_file(&self, client: u16, handle: u8) -> Option<u8>
        requires tells { Tells self.now }
        requires client { IsClientNumber client }
        requires handle { IsSmall handle }
        ensures { result ≡ open_file_spec self.now.commands client handle }
    {
        self.handles[usize::from(client)].file(handle)
    }

    fn is_open(&self, client: u16, handle: u8) -> bool
        requires tells { Tells self.now }
        requires client { IsClientNumber client }
        requires handle { IsSmall handle }
        ensures { result ≡ is_open_spec (files_in self.now) client handle }
    {
        self.open_file(client, handle).is_some()
    }

    // The file that an act of the client is about.
    fn file_of(&self, client: u16, act: &FileAct) -> u8
        requires tells { Tells self.now }
        requires client { IsClientNumber client }
        requires act { IsActInRange act.now }
        ensures { result ≡ file_of_spec self.now.commands client act.now }
    {
        match *act {
            FileAct::OpenFile { file, .. } => file,
            FileAct::Read { handle, .. }
            | FileAct::Write { handle, .. }
            | FileAct::Share { handle, .. }
            | FileAct::Close { handle } => self.open_file(client, handle).unwrap_or(0),
        }
    }

    // Whether the act names a file, a handle or a client that does not exist.
    fn is_astray(&self, client: u16, act: &FileAct) -> bool
        requires tells { Tells self.now }
        requires client { IsClientNumber client }
        requires act { IsActInRange act.now }
        ensures { result ≡ is_astray_spec (files_in self.now) client act.now }
    {
        match *act {
            FileAct::OpenFile { file, .. } => !self.is_file(file),
            FileAct::Share { handle, to, .. } => !self.is_open(client, handle)
                || !self.is_client(to),
            FileAct::Read { handle, .. }
            | FileAct::Write { handle, .. }
            | FileAct::Close { handle } => !self.is_open(client, handle),
        }
    }

    // Whether the line names something that no earlier line declares.
    fn is_undeclared(&self, line: &FileLine) -> bool
        requires tells { Tells self.now }
        requires range { IsInRange line.now }
        ensures { result ≡ is_undeclared_spec (files_in self.now) line.now }
    {
        match line {
            FileLine::Do { command } => {
                !self.is_client(command.client) || self.is_astray(command.client, &command.act)
            }
            _ => false,
        }
    }

    // Whether the act opens an open handle, or gives to the client itself, or under a used number.
    fn is_repeated(&self, client: u16, act: &FileAct) -> bool
        requires tells { Tells self.now }
        requires client { IsClientNumber client }
        requires act { IsActInRange act.now }
        ensures { result ≡ is_repeated_spec (files_in self.now) client act.now }
    {
        match *act {
            FileAct::OpenFile { handle, .. } => self.is_open(client, handle),
            FileAct::Share { to, other, .. } => {
                to == client || self.used[usize::from(to)].contains(other)
            }
            FileAct::Read { .. } | FileAct::Write { .. } | FileAct::Close { .. } => false,
        }
    }

    // Whether an earlier line says the same.
    fn is_twice(&self, line: &FileLine) -> bool
        requires tells { Tells self.now }
        requires range { IsInRange line.now }
        ensures { result ≡ is_twice_spec (files_in self.now) line.now }
    {
        match line {
            FileLine::Kernels { .. } => true,
            FileLine::File { declared } => self.is_file(declared.file),
            FileLine::Client { client } => self.is_client(*client),
            FileLine::Do { command } => self.is_repeated(command.client, &command.act),
            FileLine::End => false,
        }
    }

    // Whether the line has a range that ends after its file.
    fn is_too_long(&self, line: &FileLine) -> bool
        requires tells { Tells self.now }
        requires range { IsInRange line.now }
        ensures { result ≡ is_too_long_spec (files_in self.now) line.now }
    {
        match line {
            FileLine::Do { command } => {
                let file = self.file_of(command.client, &command.act);
                ends_behind(self.extents_of(file), &command.act)
            }
            _ => false,
        }
    }

    /// How many calls the command adds.
    pub(crate) fn new_calls(&self, command: &Command) -> u32
        requires tells { Tells self.now }
        requires client { IsClientNumber command.now.client }
        requires act { IsActInRange command.now.act }
        ensures number { result ≡ new_calls_spec (files_in self.now) command.now }
        ensures few { result ≤ 511 }
    {
        let file = self.file_of(command.client, &command.act);
        let calls = calls_of_act(self.extents_of(file), &command.act);
        session_calls(self.begun[usize::from(command.client)]) + calls
    }

    // Whether the client of the command opens more often than it may.
    fn opens_too_often(&self, command: &Command) -> bool
        requires tells { Tells self.now }
        requires client { IsClientNumber command.now.client }
        ensures { result ≡
            (is_opening_spec command.now.act
            && nat_le 1000 (open_count self.now.commands command.now.client)) }
    {
        let openings = self.openings[usize::from(command.client)];
        is_opening(&command.act) && openings >= MOST_OPENINGS
    }

    // Whether the command brings a call too many.
    fn calls_too_much(&self, command: &Command) -> bool
        requires tells { Tells self.now }
        requires client { IsClientNumber command.now.client }
        requires act { IsActInRange command.now.act }
        requires declared { is_client_spec (files_in self.now) command.now.client ≡ true }
        ensures { result ≡
            nat_lt CALLS_SPEC (call_number (with_command (files_in self.now) command.now)) }
    {
        self.calls + self.new_calls(command) > MOST_CALLS
    }

    // Whether a client opens more often than it may, or there is a call too many.
    fn is_too_much(&self, line: &FileLine) -> bool
        requires tells { Tells self.now }
        requires range { IsInRange line.now }
        requires declared { is_undeclared_spec (files_in self.now) line.now ≡ false }
        ensures { result ≡ is_too_much_spec (files_in self.now) line.now }
    {
        match line {
            FileLine::Do { command } => {
                self.opens_too_often(command) || self.calls_too_much(command)
            }
            _ => false,
        }
    }

    // The word that names the file, the handle or the client that does not exist.
    fn astray_word(&self, client: u16, act: &FileAct) -> u64
        requires tells { Tells self.now }
        requires client { IsClientNumber client }
        requires act { IsActInRange act.now }
        ensures { result ≡ astray_word_spec (files_in self.now) client act.now }
    {
        match *act {
            FileAct::OpenFile { .. } => 4,
            FileAct::Share { handle, .. } => { if self.is_open(client, handle) { 4 } else { 3 } }
            FileAct::Read { .. } | FileAct::Write { .. } | FileAct::Close { .. } => 3,
        }
    }

    // The word that names what no earlier line declares.
    fn undeclared_word(&self, line: &FileLine) -> u64
        requires tells { Tells self.now }
        requires range { IsInRange line.now }
        ensures { result ≡ undeclared_word_spec (files_in self.now) line.now }
    {
        match line {
            FileLine::Do { command } => {
                if self.is_client(command.client) {
                    self.astray_word(command.client, &command.act)
                } else {
                    1
                }
            }
            _ => 1,
        }
    }

    /// What earlier lines make wrong with the line.
    #[tactic(auto, unfolding(crate::specs::FileContext::context_fault))]
    pub(crate) fn fault(&self, line: &FileLine) -> Option<LineFault>
        requires tells { Tells self.now }
        requires range { IsInRange line.now }
        ensures { result ≡ context_fault (files_in self.now) line.now }
    {
        if self.is_undeclared(line) {
            Some(at_word(self.undeclared_word(line), Cause::Undeclared))
        } else if self.is_twice(line) {
            Some(at_word(twice_word(line), Cause::Twice))
        } else if self.is_too_long(line) {
            Some(at_word(5, Cause::OutOfRange))
        } else if self.is_too_much(line) {
            Some(at_word(2, Cause::TooMany))
        } else {
            None
        }
    }
}
