//! Reads and prints many statements: cases are data.
//!
//! Each line of standard input is a statement, and a line answers it: its canonical text, or why
//! it has none. A line `=== TITLE` is repeated. Where a line ends with a backslash the statement
//! goes on in the next line. A line `+++ COUNT [TEXT]` stands for the text so many times; what
//! follows goes on behind it.
//!
//! The statement is read from a copy of its tokens. Behind the text of an update stands the select
//! that gives its rows. A further line says where the text isn't read back as a statement with the
//! same text, or a copy has another text.
#![tactic(auto)]

mod cases;
mod statements;

use cases::answers;
use std::io;
use std::io::{ErrorKind, Read, Write};

fn main(rt: HostRuntime) -> io::Result<()> {
    let mut input = Vec::new(rt.alloc());
    rt.stdin().read_to_end(&mut input)?;
    match answers(rt.alloc(), input.as_slice()) {
        Ok(printed) => rt.stdout().write_all(printed.as_slice()),
        Err(_) => Err(io::Error::from(ErrorKind::OutOfMemory)),
    }
}
