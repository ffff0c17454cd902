// The calls of a client, command by command.
ghost use Rattle.std.specs.Prelude.{◌≡◌, [], ◌++◌, IfOk, OnOk};
ghost use Rattle.sem_files.specs.Files.{extents_of as extents_of_spec};
ghost use Rattle.sem_files.specs.Compiled.{calls_of_act, calls_from};
ghost use Rattle.sem_files.specs.Compiled.{client_calls as client_calls_spec};
ghost use Rattle.sem_fs.specs.Acts.{IsPlainAct};
ghost use Rattle.sem_fs.specs.Handling.{file_in};

use crate::acts::{SESSION, push_act};
use crate::lookups::{extents_of, has_commands};
use sem_files::{FileAct, Files, Handles};
use sem_key::OutOfMemory;
use sem_msg::{Call, Calls};
use std::alloc::Global;

// The file that an act is about.
fn file_of(handles: &Handles, act: FileAct) -> u8
    ensures { result ≡ file_in handles.now act }
{
    match act {
        FileAct::OpenFile { file, .. } => file,
        FileAct::Read { handle, .. }
        | FileAct::Write { handle, .. }
        | FileAct::Share { handle, .. }
        | FileAct::Close { handle } => handles.file(handle).unwrap_or(0),
    }
}

// Appends the calls of an act of a client with these handles.
fn push_command(
    calls: &mut Calls,
    files: &Files,
    handles: &Handles,
    act: FileAct,
) -> Result<(), OutOfMemory>
    requires { IsPlainAct act }
    ensures { OnOk result (calls.new
        ≡ calls.old ++ calls_of_act (extents_of_spec files.now (file_in handles.now act)) act) }
{
    let file = file_of(handles, act);
    let extents = extents_of(files, file);
    push_act(calls, act, extents)
}

// Appends the calls of a client for all commands.
fn push_calls(calls: &mut Calls, files: &Files, client: u16) -> Result<(), OutOfMemory>
    ensures { OnOk result
        (calls.new ≡ calls.old ++ calls_from files.now client [] files.now.commands) }
{
    let mut handles = Handles::new();
    for command in files.commands.as_slice() {
        if command.client != client {
            continue;
        }
        push_command(calls, files, &handles, command.act)?;
        handles.note(command.act);
    }
    Ok(())
}

// The calls of a client, which opens a session first.
pub fn client_calls(alloc: Global, files: &Files, client: u16) -> Result<Calls, OutOfMemory>
    ensures { IfOk result (λ calls. calls ≡ client_calls_spec files.now client) }
{
    let mut calls = Calls::new(alloc);
    if !has_commands(files.commands.as_slice(), client) {
        return Ok(calls);
    }
    calls.push(Call::OpenSession {
        dst: SESSION,
        name: 0,
    })?;
    push_calls(&mut calls, files, client)?;
    Ok(calls)
}
