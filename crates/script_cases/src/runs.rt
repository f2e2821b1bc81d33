ghost use Rattle.std.specs.Prelude.{◌≡◌, ◌<◌};

use lore_base::{CallList, MemSink, MemSource, NoMemory, OemText, Sink, Source, Steps};
use lore_run::{Outcome, Session, run_lore};
use std::alloc::Global;
use std::marker::Brand;
use std::sync::ledger::{Blank, Ledger};

/// The most bytes of one read and of one write.
const PIECES: [u32; 4] = [65_536, 1, 2, 13];

/// The modes of plans, as a script sets them.
const MODES: [&str; 4] = ["auto", "top", "bottom", "guide"];

/// The most bytes of a script that is read and written in pieces of each size.
const SHORT: usize = 8_192;

/// Bytes that any case finds room for.
const ROOM: usize = 2_097_152;

/// How a run ended, and what it wrote.
#[derive(Drop)]
struct Ended {
    outcome: Outcome,
    sink: MemSink,
}

// Sources and sinks that are let go have parameters as types: that they can be let go is proved of
// each way out, and in few words where their type is a parameter.

fn run_counted<S: Source, K: Sink, L: Ledger>(
    alloc: Global,
    source: &mut S,
    sink: &mut K,
    blank: Blank,
) -> Result<Outcome, NoMemory>
    requires name { blank.name ≡ L.name }
    requires parts { blank.parts ≡ L.parts }
    requires some { 0 < blank.parts }
{
    let mut session = Session::new(alloc)?;
    let mut steps = Steps::<L>::new(blank);
    let outcome = run_lore(alloc, &[], source, sink, &mut session, &mut steps);
    drop(session);
    Ok(outcome)
}

fn run_from<S: Source + Drop, K: Sink>(
    alloc: Global,
    mut source: S,
    sink: &mut K,
) -> Result<Outcome, NoMemory> {
    let outcome = run_counted::<S, K, Brand>(alloc, &mut source, sink, Blank::new(1));
    drop(source);
    outcome
}

fn run_into<K: Sink>(
    alloc: Global,
    script: &[u8],
    reads: u32,
    sink: &mut K,
) -> Result<Outcome, NoMemory> {
    let bytes = OemText::from_bytes(alloc, script)?;
    let source = MemSource::new(bytes, reads.max(1), CallList::new(alloc));
    run_from(alloc, source, sink)
}

// Runs a script in a new session.
fn run(alloc: Global, script: &[u8], reads: u32, writes: u32) -> Result<Ended, NoMemory> {
    let mut sink = MemSink::new(alloc, ROOM, writes.max(1), CallList::new(alloc))?;
    match run_into(alloc, script, reads, &mut sink) {
        Ok(outcome) => Ok(Ended { outcome, sink }),
        Err(error) => {
            drop(sink);
            Err(error)
        }
    }
}

// Whether a run, which is let go, ended as the first and wrote the same.
fn is_same(first: &Ended, run: Ended) -> bool {
    let is_same = first.outcome == run.outcome && first.sink.bytes() == run.sink.bytes();
    drop(run);
    is_same
}

fn put(printed: &mut Vec<u8>, line: String) -> Result<(), NoMemory> {
    let put = printed.extend_from_slice(line.as_bytes());
    drop(line);
    Ok(put?)
}

fn difference(alloc: Global, reads: u32, writes: u32) -> Result<String, NoMemory> {
    Ok(format!(in alloc; "read by {reads} and written by {writes} it differs\n")?)
}

// Prints a line where a run in smaller pieces differs from the first.
fn compare(
    alloc: Global,
    script: &[u8],
    first: &Ended,
    printed: &mut Vec<u8>,
) -> Result<(), NoMemory> {
    for reads in PIECES {
        for writes in PIECES {
            if !is_same(first, run(alloc, script, reads, writes)?) {
                put(printed, difference(alloc, reads, writes)?)?;
            }
        }
    }
    Ok(())
}

fn end(alloc: Global, outcome: Outcome) -> Result<String, NoMemory> {
    let status = outcome.status.number();
    let done = outcome.done;
    let refused = outcome.refused;
    Ok(format!(in alloc; "status {status}, done {done}, refused {refused}\n")?)
}

fn print_end(alloc: Global, ended: &Ended, printed: &mut Vec<u8>) -> Result<(), NoMemory> {
    printed.extend_from_slice(ended.sink.bytes())?;
    put(printed, end(alloc, ended.outcome)?)
}

fn print_first(
    alloc: Global,
    script: &[u8],
    first: &Ended,
    printed: &mut Vec<u8>,
) -> Result<(), NoMemory> {
    print_end(alloc, first, printed)?;
    if script.len() <= SHORT {
        compare(alloc, script, first, printed)?;
    }
    Ok(())
}

/// Prints what the script writes, and how its run ends.
pub(crate) fn print_runs(
    alloc: Global,
    script: &[u8],
    printed: &mut Vec<u8>,
) -> Result<(), NoMemory> {
    let first = run(alloc, script, PIECES[0], PIECES[0])?;
    let done = print_first(alloc, script, &first, printed);
    drop(first);
    done
}

fn mode_line(alloc: Global, mode: &str) -> Result<String, NoMemory> {
    Ok(format!(in alloc; "set plan {mode};\n")?)
}

fn put_in_mode(
    alloc: Global,
    mode: &str,
    script: &[u8],
    whole: &mut Vec<u8>,
) -> Result<(), NoMemory> {
    put(whole, mode_line(alloc, mode)?)?;
    whole.extend_from_slice(script)?;
    Ok(())
}

// Runs a script in a new session that has set the mode of plans.
fn run_in_mode(alloc: Global, mode: &str, script: &[u8]) -> Result<Ended, NoMemory> {
    let mut whole = Vec::new(alloc);
    let ended = match put_in_mode(alloc, mode, script, &mut whole) {
        Ok(()) => run(alloc, whole.as_slice(), PIECES[0], PIECES[0]),
        Err(error) => Err(error),
    };
    drop(whole);
    ended
}

fn other_mode(alloc: Global, mode: &str) -> Result<String, NoMemory> {
    Ok(format!(in alloc; "in mode {mode} it differs\n")?)
}

fn print_first_mode(
    alloc: Global,
    script: &[u8],
    first: &Ended,
    printed: &mut Vec<u8>,
) -> Result<(), NoMemory> {
    print_end(alloc, first, printed)?;
    for mode in MODES {
        if !is_same(first, run_in_mode(alloc, mode, script)?) {
            put(printed, other_mode(alloc, mode)?)?;
        }
    }
    Ok(())
}

/// Prints what the script writes in each mode of plans, and how its run ends: once, and a line for
/// each mode in which it differs from the first.
pub(crate) fn print_modes(
    alloc: Global,
    script: &[u8],
    printed: &mut Vec<u8>,
) -> Result<(), NoMemory> {
    let first = run_in_mode(alloc, MODES[0], script)?;
    let done = print_first_mode(alloc, script, &first, printed);
    drop(first);
    done
}
