use crate::statements::answer;
use lore_base::NoMemory;
use std::alloc::Global;

/// What all cases print.
pub(crate) fn answers(alloc: Global, input: &[u8]) -> Result<Vec<u8>, NoMemory> {
    let mut printed = Vec::new(alloc);
    match print_all(alloc, input, &mut printed) {
        Ok(()) => Ok(printed),
        Err(error) => {
            drop(printed);
            Err(error)
        }
    }
}

// What is changed in place is lent: that it can be let go is proved of each way out.
fn print_all(alloc: Global, input: &[u8], printed: &mut Vec<u8>) -> Result<(), NoMemory> {
    let mut text = Vec::new(alloc);
    let done = print_cases(alloc, input, &mut text, printed);
    drop(text);
    done
}

fn print_cases(
    alloc: Global,
    input: &[u8],
    text: &mut Vec<u8>,
    printed: &mut Vec<u8>,
) -> Result<(), NoMemory> {
    for line in input
        .strip_suffix(b"\n")
        .unwrap_or(input)
        .split(|byte| *byte == b'\n')
    {
        read_line(alloc, line, text, printed)?;
    }
    Ok(())
}

// Takes a line: one that ends a case has it printed.
fn read_line(
    alloc: Global,
    line: &[u8],
    text: &mut Vec<u8>,
    printed: &mut Vec<u8>,
) -> Result<(), NoMemory> {
    if gather(text, line)? {
        print_case(alloc, text.as_slice(), printed)?;
        text.clear();
    }
    Ok(())
}

// Adds what a line stands for to a text, and whether the text ends there.
fn gather(text: &mut Vec<u8>, line: &[u8]) -> Result<bool, NoMemory> {
    if let Some((count, part)) = repeated(line) {
        repeat(text, count, part)?;
        return Ok(false);
    }
    if let Some(part) = line.strip_suffix(b"\\") {
        put_line(text, part)?;
        return Ok(false);
    }
    text.extend_from_slice(line)?;
    Ok(true)
}

fn repeat(text: &mut Vec<u8>, count: usize, part: &str) -> Result<(), NoMemory> {
    for _ in 0..count {
        text.extend_from_slice(part.as_bytes())?;
    }
    Ok(())
}

// The count and the text of a line `+++ COUNT [TEXT]`.
fn repeated(line: &[u8]) -> Option<(usize, &str)> {
    let words = str::from_utf8(line).ok()?.strip_prefix("+++ ")?;
    let (count, text) = words.split_once(' ')?;
    let text = text.strip_prefix('[')?.strip_suffix(']')?;
    Some((count.parse().ok()?, text))
}

fn print_case(alloc: Global, text: &[u8], printed: &mut Vec<u8>) -> Result<(), NoMemory> {
    if text.starts_with(b"=== ") {
        put_line(printed, text)
    } else {
        answer(alloc, text, printed)
    }
}

/// Adds a line.
pub(crate) fn put_line(bytes: &mut Vec<u8>, line: &[u8]) -> Result<(), NoMemory> {
    bytes.extend_from_slice(line)?;
    bytes.extend_from_slice(b"\n")?;
    Ok(())
}
