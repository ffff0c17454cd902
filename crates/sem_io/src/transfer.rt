ghost use Rattle.std.specs.Prelude.{◌≡◌, ◌+◌, ◌<◌, ◌≤◌, take, vec_len, IfOk, IfSome, IsErrOf, OnOk};
ghost use Rattle.std.specs.Prelude.{OnErr};
ghost use Rattle.sem_io.specs.Count.{Rose};
ghost use Rattle.sem_io.specs.SourceBytes.{Takes, TakesAtMost};
ghost use Rattle.sem_io.specs.SinkBytes.{Appends, AppendsPrefix};
ghost use Rattle.sem_io.specs.declared.transfer.ReadError.TheVariants.{Fault, Memory};

use crate::sink::Sink;
use crate::source::{Failed, Source};
use std::alloc::{AllocError, Global};
use thiserror::Error;

/// The most bytes that one call asks of a source.
const PIECE: usize = 16384;

/// Why an input was not read whole.
#[derive(Clone, Copy, Debug, PartialEq, Eq, Error)]
pub enum ReadError {
    #[error("a read failed")]
    Fault,
    #[error("out of memory")]
    Memory,
}

impl From<Failed> for ReadError {
    ghost from_gives = { λ _ e. e ≡ Fault };

    fn from(_failed: Failed) -> Self {
        ReadError::Fault
    }
}

impl From<AllocError> for ReadError {
    ghost from_gives = { λ _ e. e ≡ Memory };

    fn from(_error: AllocError) -> Self {
        ReadError::Memory
    }
}

/// Reads to the end of the input, or one byte more than `limit`, so that a caller can see that the
/// input is longer.
pub fn read_all<S: Source>(alloc: Global, input: &mut S, limit: usize) -> Result<Vec<u8>, ReadError>
    requires { limit < usize.MAX }

    // It reads all that was left, or its first `limit + 1` bytes.
    ensures bytes { IfOk result
        (λ read. IfSome (S.left input.old) (λ left. read.items ≡ take (limit + 1) left)) }
    ensures taken { IfOk result (λ read. Takes (S.left input.old) (S.left input.new) read.items) }
    ensures within { IfOk result (λ read. vec_len read ≤ limit + 1) }

    // A fault comes from the source. Lack of memory is the other error, and no fault.
    ensures fault { IsErrOf result ReadError.Fault →
        Rose (S.faults input.old) (S.faults input.new) }
    ensures memory { IsErrOf result ReadError.Memory → S.faults input.new ≡ S.faults input.old }
    ensures quiet { OnOk result (S.faults input.new ≡ S.faults input.old) }
    ensures err { OnErr result (TakesAtMost (S.left input.old) (S.left input.new) (limit + 1)) }
    ensures never_falls { S.faults input.old ≤ S.faults input.new }
{
    let mut bytes = Vec::new(alloc);
    let mut piece = [0; PIECE];
    while bytes.len() <= limit {
        let most = PIECE.min(limit + 1 - bytes.len());
        let count = input.read(&mut piece[..most])?;
        if count == 0 {
            break;
        }
        bytes.extend_from_slice(&piece[..count])?;
    }
    Ok(bytes)
}

/// Writes all of these bytes. Takes no memory.
pub fn write_all<K: Sink>(out: &mut K, bytes: &[u8]) -> Result<(), Failed>
    ensures ok { OnOk result (Appends (K.written out.old) (K.written out.new) bytes.now) }
    ensures err { OnErr result (AppendsPrefix (K.written out.old) (K.written out.new) bytes.now) }
    ensures quiet { OnOk result (K.faults out.new ≡ K.faults out.old) }
    ensures fault { OnErr result (Rose (K.faults out.old) (K.faults out.new)) }
    ensures never_falls { K.faults out.old ≤ K.faults out.new }
{
    let mut done = 0;
    while done < bytes.len() {
        done += out.write(&bytes[done..])?;
    }
    Ok(())
}
