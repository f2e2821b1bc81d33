use crate::cases::put_line;
use lore_base::limits::CHUNK_BYTES;
use lore_base::{NoMemory, OemText, TryCopy};
use lorel_ast::{Statement, print_statement, rows_form};
use lorel_lex::{LexFault, TokenList, tokens};
use lorel_parse::{ParseFault, parse};
use std::alloc::Global;

// A drop of a statement is written out: then it is proved once, and not in each function.

/// Prints what the text of a statement is answered with.
pub(crate) fn answer(alloc: Global, text: &[u8], printed: &mut Vec<u8>) -> Result<(), NoMemory> {
    if text.len() > CHUNK_BYTES {
        return put_line(printed, b"too long");
    }
    match tokens(alloc, text) {
        Ok(tokens) => answer_copy(alloc, &tokens, printed),
        Err(fault) => print_fault(alloc, fault, printed),
    }
}

// Tokens that a copy lacks, or has otherwise, show in what is printed.
fn answer_copy(alloc: Global, tokens: &TokenList, printed: &mut Vec<u8>) -> Result<(), NoMemory> {
    let copy = tokens.try_copy(alloc)?;
    answer_tokens(alloc, &copy, printed)
}

fn print_fault(alloc: Global, fault: LexFault, printed: &mut Vec<u8>) -> Result<(), NoMemory> {
    let line = format!(in alloc; "no tokens: {fault}")?;
    put_line(printed, line.as_bytes())
}

fn answer_tokens(alloc: Global, tokens: &TokenList, printed: &mut Vec<u8>) -> Result<(), NoMemory> {
    match parse(alloc, tokens) {
        Ok(statement) => {
            let done = print_whole(alloc, &statement, printed);
            drop(statement);
            done
        }
        Err(ParseFault::Syntax) => put_line(printed, b"no statement"),
        Err(ParseFault::NoMemory) => Err(NoMemory),
    }
}

fn print_whole(
    alloc: Global,
    statement: &Statement,
    printed: &mut Vec<u8>,
) -> Result<(), NoMemory> {
    let text = print_statement(alloc, statement)?;
    let done = print_text(alloc, statement, &text, printed);
    drop(text);
    done
}

fn print_text(
    alloc: Global,
    statement: &Statement,
    text: &OemText,
    printed: &mut Vec<u8>,
) -> Result<(), NoMemory> {
    put_line(printed, text.as_bytes())?;
    print_rows(alloc, statement, printed)?;
    if !is_read_back(alloc, text)? {
        put_line(printed, b"it is read back otherwise")?;
    }
    if !is_copied(alloc, statement, text)? {
        put_line(printed, b"its copy is printed otherwise")?;
    }
    Ok(())
}

// Prints the select that gives the rows of an update.
fn print_rows(alloc: Global, statement: &Statement, printed: &mut Vec<u8>) -> Result<(), NoMemory> {
    match rows_form(alloc, statement)? {
        Some(rows) => {
            let select = Statement::Select(rows);
            let done = print_line(alloc, &select, printed);
            drop(select);
            done
        }
        None => Ok(()),
    }
}

fn print_line(alloc: Global, statement: &Statement, printed: &mut Vec<u8>) -> Result<(), NoMemory> {
    let text = print_statement(alloc, statement)?;
    put_line(printed, text.as_bytes())
}

fn is_read_back(alloc: Global, text: &OemText) -> Result<bool, NoMemory> {
    let bytes = text.as_bytes();
    if bytes.len() > CHUNK_BYTES {
        return Ok(false);
    }
    match tokens(alloc, bytes) {
        Ok(tokens) => are_read_back(alloc, &tokens, text),
        Err(LexFault::NoMemory) => Err(NoMemory),
        Err(_) => Ok(false),
    }
}

fn are_read_back(alloc: Global, tokens: &TokenList, text: &OemText) -> Result<bool, NoMemory> {
    match parse(alloc, tokens) {
        Ok(statement) => {
            let same = is_printed(alloc, &statement, text);
            drop(statement);
            same
        }
        Err(ParseFault::Syntax) => Ok(false),
        Err(ParseFault::NoMemory) => Err(NoMemory),
    }
}

fn is_copied(alloc: Global, statement: &Statement, text: &OemText) -> Result<bool, NoMemory> {
    let copy = statement.try_copy(alloc)?;
    let same = is_printed(alloc, &copy, text);
    drop(copy);
    same
}

fn is_printed(alloc: Global, statement: &Statement, text: &OemText) -> Result<bool, NoMemory> {
    let printed = print_statement(alloc, statement)?;
    Ok(printed.as_bytes() == text.as_bytes())
}
