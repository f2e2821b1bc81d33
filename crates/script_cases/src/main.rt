//! Runs many scripts, each in a new session, and prints what each run writes and how it ends:
//! cases are data.
//!
//! Standard input has the scripts. A line `=== NAME` begins one, which ends before the line end
//! ahead of the next such line. A line `+++ COUNT [TEXT]` stands for the text so many times, with
//! no line end behind it.
//!
//! A script of at most 8,192 bytes is read and written in pieces of each size; where two runs
//! differ, a line says so.
//!
//! A script whose line is `=== modes: NAME` is run in each mode of plans instead, in new sessions
//! in which `set plan` stands in front of it. What it writes is printed once; where a mode
//! differs, a line says so.
#![tactic(auto)]

mod cases;
mod runs;

use cases::answers;
use std::io;
use std::io::{ErrorKind, Read, Write};

fn main(rt: HostRuntime) -> io::Result<()> {
    let mut input = Vec::new(rt.alloc());
    rt.stdin().read_to_end(&mut input)?;
    match answers(rt.alloc(), input.as_slice()) {
        Ok(printed) => rt.stdout().write_all(printed.as_slice()),
        Err(_) => Err(io::Error::from(ErrorKind::OutOfMemory)),
    }
}
