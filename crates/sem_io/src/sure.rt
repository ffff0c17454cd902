// A source and a sink that never fail.
ghost use Rattle.std.specs.Prelude.{◌≡◌, ◌+◌, ◌<◌, ◌≤◌, [], length, take, drop, min, vec_len};
ghost use Rattle.std.specs.Prelude.{◌-◌, Some, None, IfOk, IsOk};
ghost use Rattle.sem_io.specs.SinkBytes.{Appends};
ghost use Rattle.sem_io.specs.SourceBytes.{Takes};

use crate::sink::Sink;
use crate::source::{Failed, Source};

/// A source in memory that never fails, and gives as much as it can in each call. No call of it
/// takes memory.
#[derive(Debug, Drop)]
pub struct SureSource {
    /// All bytes of the input.
    pub bytes: Vec<u8>,
    /// How many of the bytes were read.
    pub at: usize,
    ghost within: { at ≤ vec_len bytes },
}

impl SureSource {
    /// A source that has read nothing yet.
    pub fn new(bytes: Vec<u8>) -> Self
        ensures bytes { result.bytes ≡ bytes }
        ensures at { result.at ≡ 0 }
    {
        SureSource { bytes, at: 0 }
    }
}

impl Source for SureSource {
    ghost faults = { λ _. 0 };

    ghost left = { λ s. Some (drop s.at s.bytes.items) };

    fn read(&mut self, buf: &mut [u8]) -> Result<usize, Failed>
        requires { 0 < length buf.old }

        // As for every source.
        ensures within { IfOk result (λ n. n ≤ length buf.new) }
        ensures taken { IfOk result
            (λ n. Takes (Some (drop self.old.at self.old.bytes.items))
            (Some (drop self.new.at self.new.bytes.items)) (take n buf.new)) }
        ensures end { IfOk result (λ n. n ≡ 0 → drop self.old.at self.old.bytes.items ≡ []) }

        // It never fails, and gives as much as it can.
        ensures sure { IsOk result }
        ensures count { IfOk result (λ n. n
            ≡ min (length buf.old) (vec_len self.old.bytes - self.old.at)) }
        ensures bytes { self.new.bytes ≡ self.old.bytes }
    {
        let count = buf.len().min(self.bytes.len() - self.at);
        let end = self.at + count;
        buf[..count].copy_from_slice(&self.bytes[self.at..end]);
        self.at = end;
        Ok(count)
    }
}

/// A sink that never fails, takes every piece whole, and keeps none of it. No call of it takes
/// memory.
#[derive(Debug, Drop)]
pub struct SureSink {
    /// How many bytes were written, up to 18446744073709551615.
    pub taken: u64,
}

impl SureSink {
    /// A sink with nothing written yet.
    pub fn new() -> Self
        ensures { result.taken ≡ 0 }
    {
        SureSink { taken: 0 }
    }
}

impl Sink for SureSink {
    ghost written = { λ _. None };

    ghost faults = { λ _. 0 };

    fn write(&mut self, bytes: &[u8]) -> Result<usize, Failed>
        requires { 0 < length bytes.now }

        // As for every sink.
        ensures some { IfOk result (λ n. 0 < n) }
        ensures within { IfOk result (λ n. n ≤ length bytes.now) }
        ensures given { IfOk result (λ n. Appends None None (take n bytes.now)) }

        // It never fails, and takes the whole piece.
        ensures sure { IsOk result }
        ensures count { IfOk result (λ n. n ≡ length bytes.now) }
        ensures taken { self.new.taken
            ≡ min (self.old.taken + length bytes.now) 18446744073709551615 }
    {
        self.taken = self.taken.saturating_add(bytes.len() as u64);
        Ok(bytes.len())
    }
}
