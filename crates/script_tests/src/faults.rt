use crate::runs::{
    LOADED, LOADS, Outside, PIECES, SELECTED, SELECTS, check_run, ends, front, read_count, run,
    sink, sound, source,
};
use lore_base::{NoMemory, Sink, Source};
use lore_run::{Outcome, Status};
use std::alloc::Global;
use std::test::Fail;

// Tables are lent to the functions that walk them: there a table is any slice, and what its rows
// are is no fact of the loop.

// The first replies to the loads, of 29 bytes each.
fn replies(count: u8) -> &'static [u8] {
    match count {
        0 => b"",
        1 => b"ok objects 1 edges 0 nodes 1\n",
        2 => b"ok objects 1 edges 0 nodes 1\nok objects 2 edges 0 nodes 2\n",
        _ => LOADED,
    }
}

// Runs the loads with a read that fails, behind so many statements, or that isn't made.
fn check_read(
    alloc: Global,
    read_piece: u32,
    failing_read: u64,
    status: Status,
    done: u8,
) -> Result<(), Fail> {
    let outside = Outside {
        failing_read,
        ..sound(read_piece, 13)
    };
    let outcome = ends(status, u64::from(done), 0);
    check_run(alloc, LOADS, outside, outcome, replies(done))
}

// The script has 38 bytes, whose `;` are the 12th, 25th and 38th, and one more read finds its end.
// The piece of a read; how many reads are made; a read that fails, and the statements that are
// replied to then. Of each piece the first eight reads, and those round the end of a statement.
const READS: [(u32, u64, u64, u8); 43] = [
    (1, 39, 1, 0),
    (1, 39, 2, 0),
    (1, 39, 3, 0),
    (1, 39, 4, 0),
    (1, 39, 5, 0),
    (1, 39, 6, 0),
    (1, 39, 7, 0),
    (1, 39, 8, 0),
    (1, 39, 12, 0),
    (1, 39, 13, 1),
    (1, 39, 25, 1),
    (1, 39, 26, 2),
    (1, 39, 38, 2),
    (1, 39, 39, 3),
    (1, 39, 40, 3),
    (2, 20, 1, 0),
    (2, 20, 2, 0),
    (2, 20, 3, 0),
    (2, 20, 4, 0),
    (2, 20, 5, 0),
    (2, 20, 6, 0),
    (2, 20, 7, 1),
    (2, 20, 8, 1),
    (2, 20, 13, 1),
    (2, 20, 14, 2),
    (2, 20, 20, 3),
    (2, 20, 21, 3),
    (13, 4, 1, 0),
    (13, 4, 2, 1),
    (13, 4, 3, 2),
    (13, 4, 4, 3),
    (13, 4, 5, 3),
    (13, 4, 6, 3),
    (13, 4, 7, 3),
    (13, 4, 8, 3),
    (65_536, 2, 1, 0),
    (65_536, 2, 2, 3),
    (65_536, 2, 3, 3),
    (65_536, 2, 4, 3),
    (65_536, 2, 5, 3),
    (65_536, 2, 6, 3),
    (65_536, 2, 7, 3),
    (65_536, 2, 8, 3),
];

// How a run ends of whose reads, of so many, this one fails.
fn read_status(reads: u64, failing: u64) -> Status {
    if failing <= reads {
        Status::ReadFault
    } else {
        Status::Done
    }
}

fn check_reads(alloc: Global, table: &[(u32, u64, u64, u8)]) -> Result<(), Fail> {
    for (piece, reads, failing, done) in table {
        let status = read_status(*reads, *failing);
        check_read(alloc, *piece, *failing, status, *done)?;
    }
    Ok(())
}

#[test]
fn a_read_fault_ends_a_run_behind_the_replies_to_what_was_read(
    rt: HostRuntime,
) -> Result<(), Fail> {
    check_reads(rt.alloc(), &READS)
}

// Runs a script to a sink with room for 1,024 bytes and a write that fails, behind the bytes that
// are to be written.
fn check_write(
    alloc: Global,
    script: &[u8],
    (write_piece, failing_write): (u32, u64),
    outcome: Outcome,
    written: &[u8],
) -> Result<(), Fail> {
    let outside = Outside {
        failing_write,
        room: 1_024,
        ..sound(13, write_piece)
    };
    check_run(alloc, script, outside, outcome, written)
}

// The piece of a write and the write that fails; the bytes written and the statements replied to.
type Write = ((u32, u64), usize, u64);

// Three replies of 29 bytes, in one write each where the piece has room for it. Of each piece the
// first eight writes, and those round the end of a reply.
const WRITES: [Write; 31] = [
    ((1, 1), 0, 1),
    ((1, 2), 1, 1),
    ((1, 3), 2, 1),
    ((1, 4), 3, 1),
    ((1, 5), 4, 1),
    ((1, 6), 5, 1),
    ((1, 7), 6, 1),
    ((1, 8), 7, 1),
    ((1, 29), 28, 1),
    ((1, 30), 29, 2),
    ((1, 87), 86, 3),
    ((1, 88), 87, 3),
    ((5, 1), 0, 1),
    ((5, 2), 5, 1),
    ((5, 3), 10, 1),
    ((5, 4), 15, 1),
    ((5, 5), 20, 1),
    ((5, 6), 25, 1),
    ((5, 7), 29, 2),
    ((5, 8), 34, 2),
    ((5, 13), 58, 3),
    ((5, 18), 83, 3),
    ((5, 19), 87, 3),
    ((4_096, 1), 0, 1),
    ((4_096, 2), 29, 2),
    ((4_096, 3), 58, 3),
    ((4_096, 4), 87, 3),
    ((4_096, 5), 87, 3),
    ((4_096, 6), 87, 3),
    ((4_096, 7), 87, 3),
    ((4_096, 8), 87, 3),
];

// How a run ends that writes so many of the bytes that are due.
fn write_status(count: usize, due: &[u8], done: Status) -> Status {
    if count < due.len() {
        Status::WriteFault
    } else {
        done
    }
}

// A script whose refused statements are so many, what it has to write, and how it ends where it
// does.
#[derive(Clone, Copy)]
struct Case {
    script: &'static [u8],
    due: &'static [u8],
    status: Status,
    refused: u64,
}

// Runs the script with each of these writes failing.
fn check_writes(alloc: Global, case: Case, table: &[Write]) -> Result<(), Fail> {
    for (writes, count, done) in table {
        let status = write_status(*count, case.due, case.status);
        let outcome = ends(status, *done, case.refused);
        check_write(
            alloc,
            case.script,
            *writes,
            outcome,
            front(case.due, *count),
        )?;
    }
    Ok(())
}

#[test]
fn a_write_fault_ends_a_run_in_a_reply(rt: HostRuntime) -> Result<(), Fail> {
    let loads = Case {
        script: LOADS,
        due: LOADED,
        status: Status::Done,
        refused: 0,
    };
    check_writes(rt.alloc(), loads, &WRITES)
}

// The same of three statements of which the first is refused, with replies of 22, 29 and 12 bytes.
const REFUSED_WRITES: [Write; 15] = [
    ((1, 22), 21, 1),
    ((1, 23), 22, 2),
    ((1, 51), 50, 2),
    ((1, 52), 51, 3),
    ((1, 63), 62, 3),
    ((13, 2), 13, 1),
    ((13, 3), 22, 2),
    ((13, 4), 35, 2),
    ((13, 5), 48, 2),
    ((13, 6), 51, 3),
    ((1, 64), 63, 3),
    ((2, 33), 63, 3),
    ((13, 7), 63, 3),
    ((13, 8), 63, 3),
    ((13, 9), 63, 3),
];

// A refused statement whose reply breaks off is counted among the refused.
#[test]
fn a_refused_statement_is_counted_where_its_reply_breaks_off(rt: HostRuntime) -> Result<(), Fail> {
    let selects = Case {
        script: SELECTS,
        due: SELECTED,
        status: Status::DoneRefused,
        refused: 1,
    };
    check_writes(rt.alloc(), selects, &REFUSED_WRITES)
}

// Runs the loads to a sink with so much room, in pieces of a write.
fn check_room(alloc: Global, room: usize, piece: u32, done: u64) -> Result<(), Fail> {
    let outside = Outside {
        room,
        ..sound(65_536, piece)
    };
    let outcome = ends(write_status(room, LOADED, Status::Done), done, 0);
    check_run(alloc, LOADS, outside, outcome, front(LOADED, room))
}

// Room, which is written to the full, and statements replied to.
const ROOMS: [(usize, u64); 7] = [(0, 1), (1, 1), (29, 2), (30, 2), (40, 2), (86, 3), (87, 3)];

fn check_rooms(alloc: Global, piece: u32, table: &[(usize, u64)]) -> Result<(), Fail> {
    for (room, done) in table {
        check_room(alloc, *room, piece, *done)?;
    }
    Ok(())
}

#[test]
fn a_sink_that_is_full_ends_a_run(rt: HostRuntime) -> Result<(), Fail> {
    for piece in PIECES {
        check_rooms(rt.alloc(), piece, &ROOMS)?;
    }
    Ok(())
}

// Puts so many bytes `x` between the bytes in front and behind.
fn put_framed(
    bytes: &mut Vec<u8>,
    front: &[u8],
    count: u32,
    behind: &[u8],
) -> Result<(), NoMemory> {
    bytes.extend_from_slice(front)?;
    for _ in 0..count {
        bytes.push(b'x')?;
    }
    bytes.extend_from_slice(behind)?;
    Ok(())
}

fn framed(alloc: Global, front: &[u8], count: u32, behind: &[u8]) -> Result<Vec<u8>, NoMemory> {
    let mut bytes = Vec::new(alloc);
    put_framed(&mut bytes, front, count, behind)?;
    Ok(bytes)
}

// Runs the script with its third write failing, which is in its second reply.
fn check_third_write(alloc: Global, script: &[u8], written: &[u8]) -> Result<(), Fail> {
    let outside = Outside {
        failing_write: 3,
        ..sound(65_536, 65_536)
    };
    check_run(
        alloc,
        script,
        outside,
        ends(Status::WriteFault, 2, 0),
        written,
    )
}

// A reply goes through a buffer of 4,096 bytes, and the second one has 4,109.
#[test]
fn a_long_reply_breaks_off_where_its_buffer_is_full(rt: HostRuntime) -> Result<(), Fail> {
    let front = b"ok objects 1 edges 0 nodes 1\n&1 \"";
    let script = framed(rt.alloc(), b"load A := \"", 4_096, b"\"; select A;")?;
    let written = framed(rt.alloc(), front, 4_092, b"")?;
    check_third_write(rt.alloc(), script.as_slice(), written.as_slice())
}

// How a run ends, what two reads find behind it, and how many bytes are written.
type Found = (Outcome, [usize; 3]);

fn read_twice<S: Source>(source: &mut S, bytes: &mut [u8]) -> (usize, usize) {
    let first = read_count(source, bytes);
    (first, read_count(source, bytes))
}

// What two reads of at most so many bytes as the loads have find, or 99 for one that fails.
fn two_counts<S: Source>(source: &mut S) -> (usize, usize) {
    read_twice(source, &mut [0; 38])
}

// Runs a script with these words, and reads twice behind it.
fn run_and_read_twice<S: Source + Drop, K: Sink>(
    alloc: Global,
    words: &[String],
    source: Result<S, NoMemory>,
    sink: &mut K,
) -> Result<(Outcome, (usize, usize)), NoMemory> {
    let mut source = source?;
    let outcome = run(alloc, words, &mut source, sink);
    let counts = two_counts(&mut source);
    drop(source);
    Ok((outcome?, counts))
}

fn found_with(alloc: Global, words: &[String], outside: Outside) -> Result<Found, NoMemory> {
    let mut sink = sink(alloc, outside)?;
    let source = source(alloc, LOADS, outside);
    let found = run_and_read_twice(alloc, words, source, &mut sink);
    let count = sink.bytes().len();
    drop(sink);
    let (outcome, (first, second)) = found?;
    Ok((outcome, [first, second, count]))
}

// Runs the loads with a word, over a source and a sink that fail at their first call, so that a
// run that made it would show.
fn run_with_word(alloc: Global, word: &str) -> Result<Found, NoMemory> {
    let outside = Outside {
        failing_read: 1,
        failing_write: 1,
        ..sound(65_536, 65_536)
    };
    let words = [String::from_str(alloc, word)?];
    found_with(alloc, &words, outside)
}

const WORDS: [&str; 3] = ["x", "--help", ""];

#[test]
fn words_end_a_run_before_it_reads(rt: HostRuntime) -> Result<(), Fail> {
    for word in WORDS {
        let found = run_with_word(rt.alloc(), word)?;
        assert_eq!(rt; found, (ends(Status::Usage, 0, 0), [99, 38, 0]));
    }
    Ok(())
}
