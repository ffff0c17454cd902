// A sink that keeps what is written to it.
ghost use Rattle.std.specs.Prelude.{◌≡◌, ◌<◌, ◌≤◌, [], length, take, Some, IfOk, OnErr, OnOk};
ghost use Rattle.sem_io.specs.Count.{Rose};
ghost use Rattle.sem_io.specs.SinkBytes.{Appends};

use sem_io::{Failed, Sink};
use std::alloc::Global;

/// A sink in memory. It takes every piece whole, and fails only if memory is refused. Making one
/// takes no memory.
#[derive(Drop)]
pub struct KeptSink {
    /// What was written.
    pub bytes: Vec<u8>,
    /// How many calls have failed.
    pub failed: u64,
}

impl KeptSink {
    /// A sink with nothing written yet.
    pub fn new(alloc: Global) -> Self
        ensures bytes { result.bytes.items ≡ [] }
        ensures failed { result.failed ≡ 0 }
    {
        KeptSink {
            bytes: Vec::new(alloc),
            failed: 0,
        }
    }
}

impl Sink for KeptSink {
    ghost written = { λ s. Some s.bytes.items };

    ghost faults = { λ s. s.failed };

    fn write(&mut self, bytes: &[u8]) -> Result<usize, Failed>
        requires { 0 < length bytes.now }
        ensures some { IfOk result (λ n. 0 < n) }
        ensures within { IfOk result (λ n. n ≤ length bytes.now) }
        ensures given { IfOk result (λ n.
            Appends (Some self.old.bytes.items) (Some self.new.bytes.items) (take n bytes.now)) }
        ensures err { OnErr result (self.new.bytes.items ≡ self.old.bytes.items) }
        ensures fault { OnErr result (Rose self.old.failed self.new.failed) }
        ensures quiet { OnOk result (self.new.failed ≡ self.old.failed) }
        ensures never_falls { self.old.failed ≤ self.new.failed }
    {
        match self.bytes.extend_from_slice(bytes) {
            Ok(()) => Ok(bytes.len()),
            Err(_) => {
                self.failed = self.failed.saturating_add(1);
                Err(Failed)
            }
        }
    }
}
