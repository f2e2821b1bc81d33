use lore_base::limits::CHUNK_BYTES;
use lore_base::{NoMemory, OemText, Steps};
use lore_db::{Db, Reply};
use lorel_lex::tokens;
use lorel_parse::parse;
use std::alloc::Global;
use std::sync::ledger::Ledger;

// A drop that is written out is proved once; else it is proved in each function, at length.

fn put_lines(lines: &[OemText], dump: &mut Vec<u8>) -> Result<(), NoMemory> {
    for line in lines {
        dump.extend_from_slice(line.as_bytes())?;
        dump.push(b'\n')?;
    }
    Ok(())
}

fn put_dump(reply: &Reply, dump: &mut Vec<u8>) -> Result<(), NoMemory> {
    match reply {
        Reply::Dump(lines) => {
            dump.extend_from_slice(lines.as_bytes())?;
            Ok(())
        }
        Reply::Lines(lines) => put_lines(lines.as_slice(), dump),
        Reply::Refused(_) => Err(NoMemory),
        _ => Ok(()),
    }
}

fn note(executed: Result<Reply, NoMemory>, dump: &mut Vec<u8>) -> Result<(), NoMemory> {
    let Ok(reply) = executed else {
        return Err(NoMemory);
    };
    let noted = put_dump(&reply, dump);
    drop(reply);
    noted
}

fn is_refused(reply: &Reply) -> bool {
    matches!(reply, Reply::Refused(_))
}

// Whether the statement was executed. What it answers is let go.
fn was_executed(executed: Result<Reply, NoMemory>) -> bool {
    let Ok(reply) = executed else {
        return false;
    };
    let is_refused = is_refused(&reply);
    drop(reply);
    !is_refused
}

// The reply to a statement. A text that is none counts as want of memory.
fn reply_to<L: Ledger>(
    alloc: Global,
    text: &[u8],
    db: &mut Db,
    steps: &mut Steps<L>,
) -> Result<Reply, NoMemory> {
    if text.len() > CHUNK_BYTES {
        return Err(NoMemory);
    }
    let Ok(tokens) = tokens(alloc, text) else {
        return Err(NoMemory);
    };
    let parsed = parse(alloc, &tokens);
    drop(tokens);
    match parsed {
        Ok(statement) => {
            let executed = db.execute(alloc, &statement, steps);
            drop(statement);
            executed
        }
        Err(_) => Err(NoMemory),
    }
}

/// Executes a statement, and puts the lines that it answers. A text that is none counts as want of
/// memory, and so does a refusal, since all that is executed here is accepted.
pub fn execute<L: Ledger>(
    alloc: Global,
    text: &[u8],
    db: &mut Db,
    steps: &mut Steps<L>,
    dump: &mut Vec<u8>,
) -> Result<(), NoMemory> {
    note(reply_to(alloc, text, db, steps), dump)
}

/// Whether a statement is executed. What it answers is let go, so that no memory is wanted for it.
pub fn is_accepted<L: Ledger>(
    alloc: Global,
    text: &[u8],
    db: &mut Db,
    steps: &mut Steps<L>,
) -> bool {
    was_executed(reply_to(alloc, text, db, steps))
}
