// A source whose first bytes can be looked at once more.
ghost use Rattle.std.specs.Prelude.{◌≡◌, ◌<◌, ◌≤◌, [], length, take, IfOk, IfSome, OnErr, OnOk};
ghost use Rattle.sem_io.specs.Count.{Rose};
ghost use Rattle.sem_io.specs.SourceBytes.{Takes};

use crate::source::{Failed, Source};
use std::alloc::Global;

/// A source that keeps a copy of the bytes that it gives, as long as they are few and there is
/// memory for them: to keep nothing is no fault.
#[derive(Drop)]
pub struct KeptSource<S: Source> {
    pub inner: S,
    // All bytes that were given; none once they were too many, or memory ran out.
    kept: Option<Vec<u8>>,
    // The most bytes that are kept.
    most: usize,
}

impl<S: Source> KeptSource<S> {
    /// A source that has given nothing yet, and keeps at most so many bytes.
    pub fn new(alloc: Global, inner: S, most: usize) -> Self
        ensures { result.inner ≡ inner }
    {
        KeptSource {
            inner,
            kept: Some(Vec::new(alloc)),
            most,
        }
    }

    /// All bytes that the source has given, if they were kept.
    pub fn kept(&self) -> Option<&[u8]> {
        match &self.kept {
            Some(kept) => Some(kept.as_slice()),
            None => None,
        }
    }

    // Keeps these bytes, which were given now, or nothing any more.
    fn keep(&mut self, bytes: &[u8])
        ensures { self.new.inner ≡ self.old.inner }
    {
        let Some(kept) = &mut self.kept else {
            return;
        };
        let has_room = bytes.len() <= self.most.saturating_sub(kept.len());
        if !has_room || kept.extend_from_slice(bytes).is_err() {
            self.kept = None;
        }
    }
}

impl<S: Source> Source for KeptSource<S> {
    ghost faults = { λ s. S.faults s.inner };

    ghost left = { λ s. S.left s.inner };

    fn read(&mut self, buf: &mut [u8]) -> Result<usize, Failed>
        requires { 0 < length buf.old }

        // As the source itself.
        ensures within { IfOk result (λ n. n ≤ length buf.new) }
        ensures taken { IfOk result (λ n.
            Takes (S.left self.old.inner) (S.left self.new.inner) (take n buf.new)) }
        ensures end { IfOk result (λ n.
            n ≡ 0 → IfSome (S.left self.old.inner) (λ bytes. bytes ≡ [])) }
        ensures err { OnErr result (S.left self.new.inner ≡ S.left self.old.inner) }
        ensures fault { OnErr result (Rose (S.faults self.old.inner) (S.faults self.new.inner)) }
        ensures quiet { OnOk result (S.faults self.new.inner ≡ S.faults self.old.inner) }
        ensures never_falls { S.faults self.old.inner ≤ S.faults self.new.inner }
    {
        let count = self.inner.read(buf)?;
        self.keep(&buf[..count]);
        Ok(count)
    }
}
