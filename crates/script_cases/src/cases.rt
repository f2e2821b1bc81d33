use crate::runs::{print_modes, print_runs};
use lore_base::NoMemory;
use std::alloc::Global;

/// The lines of a script that were read so far, whether one was begun, and whether it is run in
/// each mode of plans.
#[derive(Drop)]
struct Case {
    script: Vec<u8>,
    is_begun: bool,
    in_modes: bool,
}

/// What all cases print.
pub(crate) fn answers(alloc: Global, input: &[u8]) -> Result<Vec<u8>, NoMemory> {
    let mut printed = Vec::new(alloc);
    match print_all(alloc, input, &mut printed) {
        Ok(()) => Ok(printed),
        Err(error) => {
            drop(printed);
            Err(error)
        }
    }
}

// What is changed in place is lent: that it can be let go is proved of each way out.
fn print_all(alloc: Global, input: &[u8], printed: &mut Vec<u8>) -> Result<(), NoMemory> {
    let mut case = Case {
        script: Vec::new(alloc),
        is_begun: false,
        in_modes: false,
    };
    let done = print_cases(alloc, input, &mut case, printed);
    drop(case);
    done
}

fn print_cases(
    alloc: Global,
    input: &[u8],
    case: &mut Case,
    printed: &mut Vec<u8>,
) -> Result<(), NoMemory> {
    for line in input
        .strip_suffix(b"\n")
        .unwrap_or(input)
        .split(|byte| *byte == b'\n')
    {
        read_line(alloc, line, case, printed)?;
    }
    finish(alloc, case, printed)
}

// Takes a line: one that begins a case prints the case before it. Lines ahead of the first case
// are none.
fn read_line(
    alloc: Global,
    line: &[u8],
    case: &mut Case,
    printed: &mut Vec<u8>,
) -> Result<(), NoMemory> {
    if line.starts_with(b"=== ") {
        finish(alloc, case, printed)?;
        begin(case, line.starts_with(b"=== modes: "));
        return put_line(printed, line);
    }
    if case.is_begun {
        return add(&mut case.script, line);
    }
    Ok(())
}

fn begin(case: &mut Case, in_modes: bool) {
    case.script.clear();
    case.is_begun = true;
    case.in_modes = in_modes;
}

// Runs the script of a case, if one was begun: it has one line end too many.
fn finish(alloc: Global, case: &Case, printed: &mut Vec<u8>) -> Result<(), NoMemory> {
    if !case.is_begun {
        return Ok(());
    }
    let bytes = case.script.as_slice();
    let script = bytes.strip_suffix(b"\n").unwrap_or(bytes);
    if case.in_modes {
        print_modes(alloc, script, printed)
    } else {
        print_runs(alloc, script, printed)
    }
}

fn put_line(bytes: &mut Vec<u8>, line: &[u8]) -> Result<(), NoMemory> {
    bytes.extend_from_slice(line)?;
    bytes.extend_from_slice(b"\n")?;
    Ok(())
}

// Adds what a line stands for to a script.
fn add(script: &mut Vec<u8>, line: &[u8]) -> Result<(), NoMemory> {
    match part(line) {
        Some((count, text)) => repeat(script, count, text),
        None => put_line(script, line),
    }
}

fn repeat(script: &mut Vec<u8>, count: usize, text: &str) -> Result<(), NoMemory> {
    for _ in 0..count {
        script.extend_from_slice(text.as_bytes())?;
    }
    Ok(())
}

// The count and the text of a line `+++ COUNT [TEXT]`.
fn part(line: &[u8]) -> Option<(usize, &str)> {
    let words = str::from_utf8(line).ok()?.strip_prefix("+++ ")?;
    let (count, text) = words.split_once(' ')?;
    let text = text.strip_prefix('[')?.strip_suffix(']')?;
    Some((count.parse().ok()?, text))
}
