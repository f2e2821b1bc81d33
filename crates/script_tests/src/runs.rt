ghost use Rattle.std.specs.Prelude.{◌≡◌, ◌<◌};

use lore_base::{CallList, MemSink, MemSource, NoMemory, OemText, Sink, Source, Steps};
use lore_run::{Outcome, Session, Status, run_lore};
use std::alloc::Global;
use std::marker::Brand;
use std::sync::ledger::{Blank, Ledger};
use std::test::Fail;

/// Three loads, whose `;` are the bytes 12, 25 and 38.
pub(crate) const LOADS: &[u8] = b"load A := 1; load B := 2; load C := 3;";

/// Their replies, of 29 bytes each.
pub(crate) const LOADED: &[u8] = b"ok objects 1 edges 0 nodes 1
ok objects 2 edges 0 nodes 2
ok objects 3 edges 0 nodes 3
";

/// Three statements, of which the first is refused.
pub(crate) const SELECTS: &[u8] = b"select A; load A := 1; select A;";

/// Their replies, of 22, 29 and 12 bytes.
pub(crate) const SELECTED: &[u8] = b"refused 7 UnknownName
ok objects 1 edges 0 nodes 1
&1 1
rows 1
";

/// The most bytes of one read or write.
pub(crate) const PIECES: [u32; 4] = [1, 2, 13, 65_536];

/// Bytes that any reply of these tests finds room for.
const ROOM: usize = 65_536;

/// Where a run reads and writes.
#[derive(Clone, Copy)]
pub(crate) struct Outside {
    /// The most bytes of one read.
    pub(crate) read_piece: u32,
    /// The read that fails, counted from 1, or 0 where none does.
    pub(crate) failing_read: u64,
    /// The most bytes of one write.
    pub(crate) write_piece: u32,
    /// The write that fails, counted from 1, or 0 where none does.
    pub(crate) failing_write: u64,
    /// Bytes that the sink has room for.
    pub(crate) room: usize,
}

/// An outside in which nothing fails.
pub(crate) fn sound(read_piece: u32, write_piece: u32) -> Outside {
    Outside {
        read_piece,
        failing_read: 0,
        write_piece,
        failing_write: 0,
        room: ROOM,
    }
}

/// The end of a run.
pub(crate) fn ends(status: Status, done: u64, refused: u64) -> Outcome {
    Outcome {
        status,
        done,
        refused,
    }
}

fn only(alloc: Global, call: u64) -> Result<CallList, NoMemory> {
    let mut calls = CallList::new(alloc);
    calls.push(call)?;
    Ok(calls)
}

/// The source of a script.
pub(crate) fn source(
    alloc: Global,
    script: &[u8],
    outside: Outside,
) -> Result<MemSource, NoMemory> {
    let bytes = OemText::from_bytes(alloc, script)?;
    let fails = only(alloc, outside.failing_read)?;
    Ok(MemSource::new(bytes, outside.read_piece.max(1), fails))
}

/// The sink of a run.
pub(crate) fn sink(alloc: Global, outside: Outside) -> Result<MemSink, NoMemory> {
    let fails = only(alloc, outside.failing_write)?;
    MemSink::new(alloc, outside.room, outside.write_piece.max(1), fails)
}

fn run_counted<S: Source, K: Sink, L: Ledger>(
    alloc: Global,
    words: &[String],
    source: &mut S,
    sink: &mut K,
    blank: Blank,
) -> Result<Outcome, NoMemory>
    requires name { blank.name ≡ L.name }
    requires parts { blank.parts ≡ L.parts }
    requires some { 0 < blank.parts }
{
    let mut session = Session::new(alloc)?;
    let mut steps = Steps::<L>::new(blank);
    let outcome = run_lore(alloc, words, source, sink, &mut session, &mut steps);
    drop(session);
    Ok(outcome)
}

/// Runs a script in a new session.
pub(crate) fn run<S: Source, K: Sink>(
    alloc: Global,
    words: &[String],
    source: &mut S,
    sink: &mut K,
) -> Result<Outcome, NoMemory> {
    run_counted::<S, K, Brand>(alloc, words, source, sink, Blank::new(1))
}

// Sources and sinks that are let go are taken as parameters' types, and each in one place: that
// they can be let go is proved of each way out, and in few words where their type is a parameter.

/// Runs a script without words, from a source that there was memory for.
pub(crate) fn run_from<S: Source + Drop, K: Sink>(
    alloc: Global,
    source: Result<S, NoMemory>,
    sink: &mut K,
) -> Result<Outcome, NoMemory> {
    let mut source = source?;
    let outcome = run(alloc, &[], &mut source, sink);
    drop(source);
    outcome
}

/// What a read of a few bytes finds, or 99 where it fails.
pub(crate) fn read_count<S: Source>(source: &mut S, bytes: &mut [u8]) -> usize {
    source.read(bytes).unwrap_or(99)
}

fn read_one<S: Source>(source: &mut S) -> usize {
    read_count(source, &mut [0])
}

/// Runs a script so, and tells what a read of one byte finds behind it, too.
pub(crate) fn run_and_read<S: Source + Drop, K: Sink>(
    alloc: Global,
    source: Result<S, NoMemory>,
    sink: &mut K,
) -> Result<(Outcome, usize), NoMemory> {
    let mut source = source?;
    let outcome = run(alloc, &[], &mut source, sink);
    let count = read_one(&mut source);
    drop(source);
    Ok((outcome?, count))
}

/// The front of the bytes, of so many, or all where there are fewer.
pub(crate) fn front(bytes: &[u8], count: usize) -> &[u8] {
    bytes.get(..count).unwrap_or(bytes)
}

/// Whether a run ended so, and wrote these bytes.
pub(crate) fn is_due(
    found: Result<Outcome, NoMemory>,
    bytes: &[u8],
    outcome: Outcome,
    written: &[u8],
) -> Result<bool, NoMemory> {
    Ok(found? == outcome && bytes == written)
}

/// Fails where something isn't as it is to be.
pub(crate) fn pass(is_so: Result<bool, NoMemory>) -> Result<(), Fail> {
    if is_so? {
        return Ok(());
    }
    Err(Fail::new("a run ends otherwise, or writes other bytes"))
}

/// Fails where a run of the script without words ends otherwise, or writes other bytes.
pub(crate) fn check_run(
    alloc: Global,
    script: &[u8],
    outside: Outside,
    outcome: Outcome,
    written: &[u8],
) -> Result<(), Fail> {
    let mut sink = sink(alloc, outside)?;
    let found = run_from(alloc, source(alloc, script, outside), &mut sink);
    let is_so = is_due(found, sink.bytes(), outcome, written);
    drop(sink);
    pass(is_so)
}
