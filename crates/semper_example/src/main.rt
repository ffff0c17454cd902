//! An example of a program over the crates: it reads a trace, runs it by the seed 0, checks the
//! journal, and prints how many entries it has.
#![tactic(auto)]

ghost use Rattle.std.specs.Prelude.{◌≡◌, IfOk};
ghost use Rattle.sem_machine.specs.Living.{IsComplete};
ghost use Rattle.sem_machine.specs.Seeded.{seeded};

use sem_check::{CheckError, a_journal_has_one_verdict, check};
use sem_msg::{Journal, Setup};
use sem_reader::read_trace;
use sem_serial::{boot, drain};
use std::alloc::{AllocError as OutOfMemory, Global};
use std::io::{self, Read};

/// The journal of a run of the setup by the seed.
fn run(alloc: Global, setup: &Setup, seed: u64) -> Result<Journal, OutOfMemory>
    ensures seeded { IfOk result (λ journal. journal.entries ≡ seeded setup.now seed) }
    ensures complete { IfOk result (λ journal. IsComplete setup.now journal.entries) }
{
    let (mut kernels, mut fabric) = boot(alloc, setup, Journal::new(alloc))?;
    drain(alloc, setup, &mut kernels, &mut fabric, seed)?;
    Ok(fabric.into_journal())
}

/// Checks a complete schedule. It is accepted, unless memory is refused: no run reaches the last
/// two arms. The law says why, and does nothing when it is called.
fn confirm(alloc: Global, setup: &Setup, journal: &Journal) -> Result<(), OutOfMemory>
    requires { IsComplete setup.now journal.now.entries }
{
    a_journal_has_one_verdict();
    match check(alloc, setup, journal) {
        Ok(_world) => Ok(()),
        Err(CheckError::Memory) => Err(OutOfMemory),
        Err(CheckError::Differs { .. }) => unreachable!(),
        Err(CheckError::Incomplete { .. }) => unreachable!(),
    }
}

fn main(rt: HostRuntime) -> io::Result<()> {
    let mut text = Vec::new(rt.alloc());
    rt.stdin().read_to_end(&mut text)?;
    match read_trace(rt.alloc(), &text) {
        Ok(setup) => {
            let journal = run(rt.alloc(), &setup, 0)?;
            confirm(rt.alloc(), &setup, &journal)?;
            println!(rt; "{} entries, a complete schedule", journal.as_slice().len())
        }
        Err(error) => println!(rt; "{error}"),
    }
}
