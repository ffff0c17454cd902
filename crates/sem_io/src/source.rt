ghost use Rattle.std.specs.Prelude.{◌≡◌, ℕ, ◌+◌, ◌<◌, ◌≤◌, ◌↔◌, List, [], length, take, drop, min};
ghost use Rattle.std.specs.Prelude.{vec_len, ◌-◌, if◌then◌else◌, Option, Some, None, Contains};
ghost use Rattle.std.specs.Prelude.{IfOk, IfSome, IsErr, OnErr, OnOk};
ghost use Rattle.std.specs.Result.{is_err};
ghost use Rattle.std.specs.Io.KnownBytes.{Consumes, IsAtEnd};
ghost use Rattle.sem_io.specs.Count.{Rose, counted};
ghost use Rattle.sem_io.specs.SourceBytes.{Takes};

use std::io::Read;
use thiserror::Error;

/// A read or a write failed.
#[derive(Clone, Copy, Debug, PartialEq, Eq, Error)]
#[error("a read or a write failed")]
pub struct Failed;

/// A place to read bytes from, a piece at a time.
pub trait Source {
    // How many calls have failed, up to 18446744073709551615.
    ghost faults: { Self → ℕ };

    // The bytes that are left, if the source tells them.
    ghost left: { Self → Option (List ℕ) };

    /// Reads the next bytes to the front of `buf`, and returns how many. `Ok(0)` is the end of the
    /// input.
    fn read(&mut self, buf: &mut [u8]) -> Result<usize, Failed>
        requires { 0 < length buf.old }
        ensures within { IfOk result (λ n. n ≤ length buf.new) }
        ensures taken { IfOk result (λ n. Takes (left self.old) (left self.new) (take n buf.new)) }
        ensures end { IfOk result (λ n. n ≡ 0 → IfSome (left self.old) (λ bytes. bytes ≡ [])) }
        ensures err { OnErr result (left self.new ≡ left self.old) }
        ensures fault { OnErr result (Rose (faults self.old) (faults self.new)) }
        ensures quiet { OnOk result (faults self.new ≡ faults self.old) }
        ensures never_falls { faults self.old ≤ faults self.new };
}

/// A source in memory. It gives at most `step` bytes a call, and fails at the calls that a test
/// names. No call of it takes memory.
#[derive(Debug, Drop)]
pub struct MemSource {
    /// All bytes of the input.
    pub bytes: Vec<u8>,
    /// How many of the bytes were read.
    pub at: usize,
    /// The most bytes that one call gives, at least 1.
    pub step: usize,
    /// The numbers, counted from 0, of the calls that fail.
    pub fails: Vec<u64>,
    /// How many calls were made.
    pub calls: u64,
    /// How many calls have failed.
    pub failed: u64,
    ghost within: { at ≤ vec_len bytes },
    ghost moves: { 0 < step },
}

impl MemSource {
    /// A source that has read nothing yet.
    pub fn new(bytes: Vec<u8>, step: usize, fails: Vec<u64>) -> Self
        requires { 0 < step }
        ensures bytes { result.bytes ≡ bytes }
        ensures at { result.at ≡ 0 }
        ensures step { result.step ≡ step }
        ensures fails { result.fails ≡ fails }
        ensures calls { result.calls ≡ 0 }
        ensures failed { result.failed ≡ 0 }
    {
        MemSource {
            bytes,
            at: 0,
            step,
            fails,
            calls: 0,
            failed: 0,
        }
    }
}

impl Source for MemSource {
    ghost faults = { λ s. s.failed };

    ghost left = { λ s. Some (drop s.at s.bytes.items) };

    fn read(&mut self, buf: &mut [u8]) -> Result<usize, Failed>
        requires { 0 < length buf.old }

        // As for every source.
        ensures within { IfOk result (λ n. n ≤ length buf.new) }
        ensures taken { IfOk result
            (λ n. Takes (Some (drop self.old.at self.old.bytes.items))
            (Some (drop self.new.at self.new.bytes.items)) (take n buf.new)) }
        ensures end { IfOk result (λ n. n ≡ 0 → drop self.old.at self.old.bytes.items ≡ []) }
        ensures err { OnErr result (drop self.new.at self.new.bytes.items
            ≡ drop self.old.at self.old.bytes.items) }
        ensures fault { OnErr result (Rose self.old.failed self.new.failed) }
        ensures quiet { OnOk result (self.new.failed ≡ self.old.failed) }
        ensures never_falls { self.old.failed ≤ self.new.failed }

        // It fails at the calls in `fails`; at all others it gives as much as it can.
        ensures fails { IsErr result ↔ Contains self.old.fails.items self.old.calls }
        ensures count { IfOk result (λ n. n
            ≡ min (min (length buf.old) self.old.step) (vec_len self.old.bytes - self.old.at)) }
        ensures calls { self.new.calls ≡ counted self.old.calls }
        ensures failed { self.new.failed ≡ (if is_err result then counted self.old.failed
            else self.old.failed) }
        ensures bytes { self.new.bytes ≡ self.old.bytes }
        ensures plan { self.new.fails ≡ self.old.fails }
        ensures step { self.new.step ≡ self.old.step }
    {
        let call = self.calls;
        self.calls = call.saturating_add(1);
        if self.fails.contains(&call) {
            self.failed = self.failed.saturating_add(1);
            return Err(Failed);
        }
        let count = buf.len().min(self.step).min(self.bytes.len() - self.at);
        let end = self.at + count;
        buf[..count].copy_from_slice(&self.bytes[self.at..end]);
        self.at = end;
        Ok(count)
    }
}

/// A source over a real reader; it does not tell the bytes. Making one takes no memory.
#[derive(Drop)]
pub struct ReadSource<R: Read> {
    pub inner: R,
    /// How many calls of the reader have failed.
    pub failed: u64,
}

impl<R: Read> ReadSource<R> {
    /// A source over the reader.
    pub fn new(inner: R) -> Self
        ensures inner { result.inner ≡ inner }
        ensures failed { result.failed ≡ 0 }
    {
        ReadSource { inner, failed: 0 }
    }
}

impl<R: Read> Source for ReadSource<R> {
    ghost faults = { λ s. s.failed };

    ghost left = { λ _. None };

    fn read(&mut self, buf: &mut [u8]) -> Result<usize, Failed>
        requires { 0 < length buf.old }

        // As for every source.
        ensures within { IfOk result (λ n. n ≤ length buf.new) }
        ensures taken { IfOk result (λ n. Takes None None (take n buf.new)) }
        ensures fault { OnErr result (Rose self.old.failed self.new.failed) }
        ensures quiet { OnOk result (self.new.failed ≡ self.old.failed) }
        ensures never_falls { self.old.failed ≤ self.new.failed }

        // The bytes come from the reader, if it tells them, and each of its errors is a fault.
        ensures bytes { IfOk result
            (λ n. Consumes (R.remaining self.old.inner) (R.remaining self.new.inner)
            (take n buf.new)) }
        ensures end { IfOk result (λ n. n ≡ 0 → IsAtEnd (R.remaining self.new.inner)) }
        ensures counted { OnErr result (self.new.failed ≡ counted self.old.failed) }
    {
        match self.inner.read(buf) {
            Ok(count) => Ok(count),
            Err(_) => {
                self.failed = self.failed.saturating_add(1);
                Err(Failed)
            }
        }
    }
}
