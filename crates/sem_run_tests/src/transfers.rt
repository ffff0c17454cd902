use sem_io::{
    Failed, MemSink, MemSource, ReadError, ReadSource, SureSink, SureSource, WriteSink, read_all,
    write_all,
};
use std::alloc::{AllocError, Global};
use std::io;
use std::io::{Cursor, ErrorKind, Read, Write};
use std::test::Fail;

/// That many bytes: 0, 1, 2 and so on.
fn counting(alloc: Global, count: u8) -> Result<Vec<u8>, AllocError> {
    let mut bytes = Vec::with_capacity(alloc, count as usize)?;
    for byte in 0..count {
        bytes.push(byte)?;
    }
    Ok(bytes)
}

/// Gives its bytes three at a call, and fails once, at the call after these.
#[derive(Drop)]
struct Stumbling<'a> {
    bytes: &'a [u8],
    calls_left: usize,
}

impl<'a> Read for Stumbling<'a> {
    fn read(&mut self, buf: &mut [u8]) -> io::Result<usize> {
        if self.calls_left == 0 {
            self.calls_left = usize::MAX;
            return Err(io::Error::from(ErrorKind::BrokenPipe));
        }
        self.calls_left -= 1;
        let most = buf.len().min(3);
        self.bytes.read(&mut buf[..most])
    }
}

/// Takes three bytes at a call for that many calls. Then it takes nothing, or fails.
#[derive(Drop)]
struct Stopping {
    got: Vec<u8>,
    calls_left: usize,
    fails: bool,
}

impl Write for Stopping {
    fn write(&mut self, buf: &[u8]) -> io::Result<usize> {
        if self.calls_left == 0 {
            return if self.fails {
                Err(io::Error::from(ErrorKind::BrokenPipe))
            } else {
                Ok(0)
            };
        }
        self.calls_left -= 1;
        let most = buf.len().min(3);
        self.got.extend_from_slice(&buf[..most])?;
        Ok(most)
    }

    fn flush(&mut self) -> io::Result<()> {
        Ok(())
    }
}

#[test]
fn all_bytes_come_whatever_the_step(rt: HostRuntime) -> Result<(), Fail> {
    let bytes = counting(rt.alloc(), 100)?;
    for (step, calls) in [(1, 101), (7, 16), (64, 3)] {
        let mut source = MemSource::new(bytes.clone()?, step, Vec::new(rt.alloc()));
        let read = read_all(rt.alloc(), &mut source, 1000)?;
        assert_eq!(rt; read.as_slice(), bytes.as_slice(), "step {step}");
        let counts = (source.at, source.calls, source.failed);
        assert_eq!(rt; counts, (100, calls, 0), "step {step}");
    }
    Ok(())
}

#[test]
fn a_read_that_fails_ends_it_with_a_prefix_taken(rt: HostRuntime) -> Result<(), Fail> {
    // Fifteen calls give the bytes, and the sixteenth shows the end.
    for call in 0..16u64 {
        let fails = vec![in rt.alloc(); call]?;
        let mut source = MemSource::new(counting(rt.alloc(), 100)?, 7, fails);
        let outcome = read_all(rt.alloc(), &mut source, 1000);
        assert_eq!(rt; outcome.err(), Some(ReadError::Fault), "call {call}");
        let counts = (source.at, source.calls, source.failed);
        let taken = (call as usize * 7).min(100);
        assert_eq!(rt; counts, (taken, call + 1, 1), "call {call}");
    }
    Ok(())
}

#[test]
fn one_byte_past_the_limit_comes_and_no_more(rt: HostRuntime) -> Result<(), Fail> {
    let bytes = counting(rt.alloc(), 100)?;
    for (limit, come) in [(100, 100), (99, 100), (98, 99), (0, 1)] {
        let mut source = MemSource::new(bytes.clone()?, 7, Vec::new(rt.alloc()));
        let read = read_all(rt.alloc(), &mut source, limit)?;
        assert_eq!(rt; Some(read.as_slice()), bytes.get(..come), "limit {limit}");
        assert_eq!(rt; source.at, come, "limit {limit}");
    }
    Ok(())
}

#[test]
fn all_bytes_are_written_whatever_the_step(rt: HostRuntime) -> Result<(), Fail> {
    let bytes = counting(rt.alloc(), 100)?;
    for (step, calls) in [(1, 100), (7, 15), (64, 2)] {
        let mut sink = MemSink::new(rt.alloc(), 100, step, Vec::new(rt.alloc()))?;
        write_all(&mut sink, &bytes)?;
        assert_eq!(rt; sink.bytes.as_slice(), bytes.as_slice(), "step {step}");
        assert_eq!(rt; (sink.calls, sink.failed), (calls, 0), "step {step}");
    }
    Ok(())
}

#[test]
fn a_full_sink_holds_the_first_bytes(rt: HostRuntime) -> Result<(), Fail> {
    let bytes = counting(rt.alloc(), 100)?;
    for room in [0, 6, 7, 99] {
        let mut sink = MemSink::new(rt.alloc(), room, 7, Vec::new(rt.alloc()))?;
        assert_eq!(rt; write_all(&mut sink, &bytes), Err(Failed), "room {room}");
        assert_eq!(rt;
            Some(sink.bytes.as_slice()),
            bytes.get(..room),
            "room {room}"
        );
        assert_eq!(rt; sink.failed, 1, "room {room}");
    }
    Ok(())
}

#[test]
fn a_write_that_fails_ends_it_with_a_prefix_written(rt: HostRuntime) -> Result<(), Fail> {
    let bytes = counting(rt.alloc(), 100)?;
    for call in 0..15u64 {
        let fails = vec![in rt.alloc(); call]?;
        let mut sink = MemSink::new(rt.alloc(), 100, 7, fails)?;
        assert_eq!(rt; write_all(&mut sink, &bytes), Err(Failed), "call {call}");
        let written = call as usize * 7;
        assert_eq!(rt;
            Some(sink.bytes.as_slice()),
            bytes.get(..written),
            "call {call}"
        );
        assert_eq!(rt; sink.failed, 1, "call {call}");
    }
    Ok(())
}

#[test]
fn a_real_reader_is_read_to_its_end_or_its_fault(rt: HostRuntime) -> Result<(), Fail> {
    let mut source = ReadSource::new(Cursor::new(b"ten bytes!"));
    assert_eq!(rt;
        read_all(rt.alloc(), &mut source, 1000)?.as_slice(),
        b"ten bytes!".as_slice()
    );
    assert_eq!(rt; source.failed, 0);

    // The fifth call would show the end.
    for calls_left in 0..5 {
        let bytes = b"ten bytes!";
        let mut source = ReadSource::new(Stumbling { bytes, calls_left });
        let outcome = read_all(rt.alloc(), &mut source, 1000);
        assert_eq!(rt; outcome.err(), Some(ReadError::Fault), "after {calls_left}");
        assert_eq!(rt; source.failed, 1, "after {calls_left}");
        let rest = bytes.get((calls_left * 3).min(10)..);
        assert_eq!(rt; Some(source.inner.bytes), rest, "after {calls_left}");
    }
    Ok(())
}

#[test]
fn a_real_writer_takes_all_or_stops(rt: HostRuntime) -> Result<(), Fail> {
    let mut sink = WriteSink::new(Vec::new(rt.alloc()));
    assert_eq!(rt; write_all(&mut sink, b"ten bytes!"), Ok(()));
    assert_eq!(rt; sink.inner.as_slice(), b"ten bytes!".as_slice());
    assert_eq!(rt; sink.failed, 0);

    for fails in [true, false] {
        let stopping = Stopping {
            got: Vec::new(rt.alloc()),
            calls_left: 2,
            fails,
        };
        let mut sink = WriteSink::new(stopping);
        assert_eq!(rt;
            write_all(&mut sink, b"ten bytes!"),
            Err(Failed),
            "fails: {fails}"
        );
        assert_eq!(rt;
            sink.inner.got.as_slice(),
            b"ten by".as_slice(),
            "fails: {fails}"
        );
        assert_eq!(rt; sink.failed, 1, "fails: {fails}");
    }
    Ok(())
}

#[test]
fn a_sure_source_gives_all_it_has(rt: HostRuntime) -> Result<(), Fail> {
    let bytes = counting(rt.alloc(), 200)?;
    let mut source = SureSource::new(bytes.clone()?);
    let read = read_all(rt.alloc(), &mut source, 10_000)?;
    assert_eq!(rt; read.as_slice(), bytes.as_slice());
    assert_eq!(rt; source.at, 200);
    Ok(())
}

#[test]
fn a_sure_sink_counts_what_it_takes(rt: HostRuntime) -> Result<(), Fail> {
    let bytes = counting(rt.alloc(), 100)?;
    let mut sink = SureSink::new();
    write_all(&mut sink, &bytes)?;
    write_all(&mut sink, &bytes)?;
    assert_eq!(rt; sink.taken, 200);
    Ok(())
}
