use crate::runs::{
    LOADED, LOADS, SELECTED, SELECTS, ends, front, is_due, pass, run, run_and_read, sink, sound,
};
use lore_base::{NoMemory, OemText, Sink, Source, StdSink, StdSource, SureSink, SureSource};
use lore_run::{Outcome, Status};
use std::alloc::Global;
use std::io;
use std::io::{Cursor, Read, Write};
use std::test::Fail;

// Reads or writes one byte at a call, and fails when it has done so for so many calls.
#[derive(Drop)]
struct Failing<T> {
    inner: T,
    calls: usize,
}

impl<R: Read> Read for Failing<R> {
    fn read(&mut self, buf: &mut [u8]) -> io::Result<usize> {
        if self.calls == 0 {
            return Err(io::Error::from(io::ErrorKind::TimedOut));
        }
        self.calls -= 1;
        let count = buf.len().min(1);
        self.inner.read(&mut buf[..count])
    }
}

impl<W: Write> Write for Failing<W> {
    fn write(&mut self, buf: &[u8]) -> io::Result<usize> {
        if self.calls == 0 {
            return Err(io::Error::from(io::ErrorKind::BrokenPipe));
        }
        self.calls -= 1;
        self.inner.write(&buf[..buf.len().min(1)])
    }

    fn flush(&mut self) -> io::Result<()> {
        self.inner.flush()
    }
}

// Runs a script from a source to a sink, and lets both go.
fn run_out<S: Source + Drop, K: Sink + Drop>(
    alloc: Global,
    mut source: S,
    mut sink: K,
) -> Result<Outcome, NoMemory> {
    let outcome = run(alloc, &[], &mut source, &mut sink);
    drop(source);
    drop(sink);
    outcome
}

// Runs the selects from a reader and to a writer that fail behind so many calls.
fn run_failing(
    alloc: Global,
    reads: usize,
    writes: usize,
    bytes: &mut Vec<u8>,
) -> Result<Outcome, NoMemory> {
    let source = StdSource::new(Failing {
        inner: Cursor::new(SELECTS),
        calls: reads,
    });
    let sink = StdSink::new(Failing {
        inner: bytes,
        calls: writes,
    });
    run_out(alloc, source, sink)
}

// Fails where they end otherwise or write other bytes.
fn check_failing(
    alloc: Global,
    (reads, writes): (usize, usize),
    outcome: Outcome,
    written: &[u8],
) -> Result<(), Fail> {
    let mut bytes = Vec::new(alloc);
    let found = run_failing(alloc, reads, writes, &mut bytes);
    let is_so = is_due(found, bytes.as_slice(), outcome, written);
    drop(bytes);
    pass(is_so)
}

// The calls of the reader and of the writer that don't fail, how the run ends, and how many bytes
// are written.
type Ending = ((usize, usize), Outcome, usize);

fn endings() -> [Ending; 3] {
    [
        ((10_000, 10_000), ends(Status::DoneRefused, 3, 1), 63),
        ((2, 10_000), ends(Status::ReadFault, 0, 0), 0),
        ((10_000, 3), ends(Status::WriteFault, 1, 1), 3),
    ]
}

fn check_endings(alloc: Global, endings: &[Ending]) -> Result<(), Fail> {
    for (calls, outcome, count) in endings {
        check_failing(alloc, *calls, *outcome, front(SELECTED, *count))?;
    }
    Ok(())
}

#[test]
fn readers_and_writers_of_single_bytes_may_fail(rt: HostRuntime) -> Result<(), Fail> {
    check_endings(rt.alloc(), &endings())
}

fn sure_loads(alloc: Global, piece: u32) -> Result<SureSource, NoMemory> {
    Ok(SureSource::new(OemText::from_bytes(alloc, LOADS)?, piece.max(1)))
}

// Runs the loads from a source that never fails, and gives how the run ends, what a read finds
// behind it, and whether their replies are written.
fn run_from_sure(alloc: Global, piece: u32) -> Result<(Outcome, usize, bool), NoMemory> {
    let mut sink = sink(alloc, sound(piece, piece))?;
    let found = run_and_read(alloc, sure_loads(alloc, piece), &mut sink);
    let is_loaded = sink.bytes() == LOADED;
    drop(sink);
    let (outcome, behind) = found?;
    Ok((outcome, behind, is_loaded))
}

// Runs the loads from a source to a sink that never fail, and gives how the run ends and what a
// read finds behind it.
fn run_to_sure(alloc: Global, piece: u32) -> Result<(Outcome, usize), NoMemory> {
    let mut sink = SureSink::new(piece.max(1));
    run_and_read(alloc, sure_loads(alloc, piece), &mut sink)
}

const SURE_PIECES: [u32; 3] = [1, 5, 65_536];

#[test]
fn sources_and_sinks_that_never_fail_are_taken(rt: HostRuntime) -> Result<(), Fail> {
    for piece in SURE_PIECES {
        let outcome = ends(Status::Done, 3, 0);
        assert_eq!(rt; run_from_sure(rt.alloc(), piece)?, (outcome, 0, true));
        assert_eq!(rt; run_to_sure(rt.alloc(), piece)?, (outcome, 0));
    }
    Ok(())
}
