ghost use Rattle.std.specs.Prelude.{◌≡◌, ℕ, ◌<◌, ◌≤◌, ◌↔◌, List, [], length, take, min};
ghost use Rattle.std.specs.Prelude.{vec_len, vec_capacity, ◌-◌, ◌⊎◌, if◌then◌else◌, Contains};
ghost use Rattle.std.specs.Prelude.{Option, Some, None, IfOk, IsErr, OnErr, OnOk};
ghost use Rattle.std.specs.Result.{is_err};
ghost use Rattle.std.specs.Io.KnownBytes.{Appends as WriterAppends};
ghost use Rattle.sem_io.specs.Count.{Rose, counted};
ghost use Rattle.sem_io.specs.SinkBytes.{Appends};

use crate::source::Failed;
use std::alloc::{AllocError as OutOfMemory, Global};
use std::io::Write;

/// A place to write bytes to, a piece at a time.
pub trait Sink {
    // The bytes written so far, if the sink tells them.
    ghost written: { Self → Option (List ℕ) };

    // How many calls have failed, up to 18446744073709551615.
    ghost faults: { Self → ℕ };

    /// Writes the first of these bytes, at least one, and returns how many.
    fn write(&mut self, bytes: &[u8]) -> Result<usize, Failed>
        requires { 0 < length bytes.now }
        ensures some { IfOk result (λ n. 0 < n) }
        ensures within { IfOk result (λ n. n ≤ length bytes.now) }
        ensures given { IfOk result
            (λ n. Appends (written self.old) (written self.new) (take n bytes.now)) }
        ensures err { OnErr result (written self.new ≡ written self.old) }
        ensures fault { OnErr result (Rose (faults self.old) (faults self.new)) }
        ensures quiet { OnOk result (faults self.new ≡ faults self.old) }
        ensures never_falls { faults self.old ≤ faults self.new };
}

/// A sink in memory, of a fixed room. It takes at most `step` bytes a call. It fails when it is
/// full and at the calls that a test names. `new` takes the whole room; no other call takes memory.
#[derive(Debug, Drop)]
pub struct MemSink {
    /// What was written.
    pub bytes: Vec<u8>,
    /// The most bytes that can be written.
    pub room: usize,
    /// The most bytes that one call takes, at least 1.
    pub step: usize,
    /// The numbers, counted from 0, of the calls that fail.
    pub fails: Vec<u64>,
    /// How many calls were made.
    pub calls: u64,
    /// How many calls have failed.
    pub failed: u64,
    ghost within: { vec_len bytes ≤ room },
    ghost has_room: { room ≤ vec_capacity bytes },
    ghost moves: { 0 < step },
}

impl MemSink {
    /// A sink with nothing written yet.
    pub fn new(
        alloc: Global,
        room: usize,
        step: usize,
        fails: Vec<u64>,
    ) -> Result<Self, OutOfMemory>
        requires { 0 < step }
        ensures bytes { IfOk result (λ sink. sink.bytes.items ≡ []) }
        ensures room { IfOk result (λ sink. sink.room ≡ room) }
        ensures step { IfOk result (λ sink. sink.step ≡ step) }
        ensures fails { IfOk result (λ sink. sink.fails ≡ fails) }
        ensures calls { IfOk result (λ sink. sink.calls ≡ 0) }
        ensures failed { IfOk result (λ sink. sink.failed ≡ 0) }
    {
        let bytes = Vec::with_capacity(alloc, room)?;
        Ok(MemSink {
            bytes,
            room,
            step,
            fails,
            calls: 0,
            failed: 0,
        })
    }
}

impl Sink for MemSink {
    ghost written = { λ s. Some s.bytes.items };

    ghost faults = { λ s. s.failed };

    fn write(&mut self, bytes: &[u8]) -> Result<usize, Failed>
        requires { 0 < length bytes.now }

        // As for every sink.
        ensures some { IfOk result (λ n. 0 < n) }
        ensures within { IfOk result (λ n. n ≤ length bytes.now) }
        ensures given { IfOk result
            (λ n. Appends (Some self.old.bytes.items) (Some self.new.bytes.items)
            (take n bytes.now)) }
        ensures err { OnErr result (self.new.bytes.items ≡ self.old.bytes.items) }
        ensures fault { OnErr result (Rose self.old.failed self.new.failed) }
        ensures quiet { OnOk result (self.new.failed ≡ self.old.failed) }
        ensures never_falls { self.old.failed ≤ self.new.failed }

        // It fails when it is full and at the calls in `fails`; otherwise it takes as much as it
        // can.
        ensures fails { IsErr result
            ↔ ((vec_len self.old.bytes ≡ self.old.room)
            ⊎ Contains self.old.fails.items self.old.calls) }
        ensures count { IfOk result (λ n. n
            ≡ min (min (length bytes.now) self.old.step) (self.old.room - vec_len self.old.bytes)) }
        ensures calls { self.new.calls ≡ counted self.old.calls }
        ensures failed { self.new.failed ≡ (if is_err result then counted self.old.failed
            else self.old.failed) }
        ensures room { self.new.room ≡ self.old.room }
        ensures plan { self.new.fails ≡ self.old.fails }
        ensures step { self.new.step ≡ self.old.step }
    {
        let call = self.calls;
        self.calls = call.saturating_add(1);
        if self.bytes.len() == self.room || self.fails.contains(&call) {
            self.failed = self.failed.saturating_add(1);
            return Err(Failed);
        }
        let count = bytes.len().min(self.step).min(self.room - self.bytes.len());
        self.bytes.extend_from_slice(&bytes[..count]).unwrap();
        Ok(count)
    }
}

/// A sink over a real writer; it does not tell the bytes. Making one takes no memory.
#[derive(Drop)]
pub struct WriteSink<W: Write> {
    pub inner: W,
    /// How many calls of the writer have failed, or have taken nothing.
    pub failed: u64,
}

impl<W: Write> WriteSink<W> {
    /// A sink over the writer.
    pub fn new(inner: W) -> Self
        ensures inner { result.inner ≡ inner }
        ensures failed { result.failed ≡ 0 }
    {
        WriteSink { inner, failed: 0 }
    }
}

impl<W: Write> Sink for WriteSink<W> {
    ghost written = { λ _. None };

    ghost faults = { λ s. s.failed };

    fn write(&mut self, bytes: &[u8]) -> Result<usize, Failed>
        requires { 0 < length bytes.now }

        // As for every sink.
        ensures some { IfOk result (λ n. 0 < n) }
        ensures within { IfOk result (λ n. n ≤ length bytes.now) }
        ensures given { IfOk result (λ n. Appends None None (take n bytes.now)) }
        ensures fault { OnErr result (Rose self.old.failed self.new.failed) }
        ensures quiet { OnOk result (self.new.failed ≡ self.old.failed) }
        ensures never_falls { self.old.failed ≤ self.new.failed }

        // The bytes go to the writer, if it tells what it holds, and each of its errors is a fault.
        ensures bytes { IfOk result
            (λ n. WriterAppends (W.contents self.old.inner) (W.contents self.new.inner)
            (take n bytes.now)) }
        ensures counted { OnErr result (self.new.failed ≡ counted self.old.failed) }
    {
        match self.inner.write(bytes) {
            Ok(count) if count > 0 => Ok(count),
            _ => {
                self.failed = self.failed.saturating_add(1);
                Err(Failed)
            }
        }
    }
}
