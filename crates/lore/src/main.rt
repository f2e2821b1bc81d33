//! The program: `lore` reads a script from standard input, writes one reply a statement to
//! standard output, and ends with the status of the run. It takes no words.
#![tactic(auto)]

ghost use Rattle.std.specs.Prelude.{◌≡◌, ◌<◌};

use lore_base::{NoMemory, Sink, Source, StdSink, StdSource, Steps};
use lore_run::{Session, Status, run_lore};
use std::alloc::Global;
use std::env;
use std::io::ErrorKind;
use std::marker::Brand;
use std::process::ExitCode;
use std::sync::ledger::{Blank, Ledger};

// Runs a script in a new session.
fn run_counted<S: Source, K: Sink, L: Ledger>(
    alloc: Global,
    words: &[String],
    source: &mut S,
    sink: &mut K,
    blank: Blank,
) -> Result<Status, NoMemory>
    requires name { blank.name ≡ L.name }
    requires parts { blank.parts ≡ L.parts }
    requires some { 0 < blank.parts }
{
    let mut session = Session::new(alloc)?;
    let mut steps = Steps::<L>::new(blank);
    let outcome = run_lore(alloc, words, source, sink, &mut session, &mut steps);
    drop(session);
    Ok(outcome.status)
}

// The source and the sink are let go where their types are parameters: that they can be is proved
// in few words there.
fn run_between<S: Source + Drop, K: Sink + Drop>(
    alloc: Global,
    words: &[String],
    mut source: S,
    mut sink: K,
) -> Result<Status, NoMemory> {
    let blank = Blank::new(1);
    let status = run_counted::<S, K, Brand>(alloc, words, &mut source, &mut sink, blank);
    drop(source);
    drop(sink);
    status
}

/// Runs the script on standard input with the words after the program's name.
fn run(rt: &HostRuntime, words: &[String]) -> Result<Status, NoMemory> {
    let (source, sink) = (StdSource::new(rt.stdin()), StdSink::new(rt.stdout()));
    run_between(rt.alloc(), words, source, sink)
}

// The threshold goes up to 32 MiB, and a block of 32 MiB would be above that with its header.
const KEPT_BYTES: usize = 31 << 20;

/// Lets the C library keep blocks of up to 31 MiB when they are freed.
///
/// glibc gives a block above a threshold, 128 KiB at first, pages of its own, which go back to the
/// system with it, and raises the threshold to its size when it is freed (mallopt(3),
/// M_MMAP_THRESHOLD). So one is asked for and freed unwritten: the lists of a first load then take
/// over pages that were freed. With another C library, or where it is refused, nothing changes.
fn raise_mmap_threshold(rt: &HostRuntime) {
    drop(Vec::<u8>::with_capacity(rt.alloc(), KEPT_BYTES));
}

/// The words after the program's name. One that isn't text is a word all the same, and words are a
/// wrong use.
fn words(rt: &HostRuntime) -> Result<Vec<String>, Status> {
    match env::args(rt) {
        Ok(args) => args
            .skip(1)
            .collect(rt.alloc())
            .map_err(|_| Status::NoMemory),
        Err(error) if error.kind() == ErrorKind::OutOfMemory => Err(Status::NoMemory),
        Err(_) => Err(Status::Usage),
    }
}

fn main(rt: HostRuntime) -> ExitCode {
    raise_mmap_threshold(&rt);
    let status = match words(&rt) {
        Ok(words) => run(&rt, words.as_slice()).unwrap_or(Status::NoMemory),
        Err(status) => status,
    };
    ExitCode::from(status.number())
}
