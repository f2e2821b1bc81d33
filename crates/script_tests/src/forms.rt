use crate::runs::{Outside, PIECES, check_run, ends, front, is_due, pass, run_from, sink, sound};
use lore_base::{NoMemory, OemText, SureSink, SureSource};
use lore_run::{Outcome, Status};
use std::alloc::Global;
use std::test::Fail;

// A chunk of a script, up to its `;`, and its reply.
type Form = (&'static [u8], &'static [u8]);

// A script that has each form of statement once and one that is refused.
const FORMS: [Form; 28] = [
    (
        b"restore oem 2 next 1 nodes 4096 plan auto end;",
        b"ok objects 0 edges 0 nodes 0\n",
    ),
    (
        b"load A := { b 1, c { b \"x\" } };",
        b"ok objects 4 edges 3 nodes 4\n",
    ),
    (b"name B := A.c;", b"ok objects 4 edges 3 nodes 4\n"),
    (b"update A.b := 2;", b"ok objects 4 edges 3 nodes 4\n"),
    (b"update A.c.b := {};", b"ok objects 4 edges 3 nodes 4\n"),
    (
        b"update A.c.d += { e true };",
        b"ok objects 6 edges 5 nodes 6\n",
    ),
    (b"update A.f += A.c;", b"ok objects 6 edges 6 nodes 6\n"),
    (b"update A.f -= A.c;", b"ok objects 6 edges 5 nodes 6\n"),
    (b"select A.b, A.c.d.e;", b"&2 2 | &6 true\nrows 1\n"),
    (b"explain select A.b;", b"plan guide - -\n"),
    (
        b"guide;",
        b"A 1\nB 1\nA.b 1\nB.b 1\nB.d 1\nB.d.e 1\nnodes 6\n",
    ),
    (b"browse A.c;", b"at A.c 1\n.b 1\n.d 1\nlabels 2\n"),
    (b"sample A.b 1;", b"&2 2\nsample 1 of 1\n"),
    (b"menu;", b"refused 5 Syntax\n"),
    (b"set nodes 1000;", b"ok objects 6 edges 5 nodes 6\n"),
    (b"set plan top;", b"ok objects 6 edges 5 nodes 6\n"),
    (b"history on;", b"ok objects 6 edges 5 nodes 6\n"),
    (b"unname B;", b"ok objects 6 edges 5 nodes 6\n"),
    (b"at 0 select B.d.e;", b"&6 true\nrows 1\n"),
    (b"changes 0 1;", b"- name B &3\nchanges 1\n"),
    (b"history off;", b"ok objects 6 edges 5 nodes 6\n"),
    (
        b"blocks;",
        b"block &1 1\nblock &2 1\nblock &3 1\nblock &4 1\nblock &5 1\nblock &6 1\nblocks 6\n",
    ),
    (b"blocks select A.c.d.e;", b"&6 true\nrows 1\n"),
    (
        b"watch V := select A.c where A.b < 3;",
        b"ok objects 6 edges 5 nodes 6\n",
    ),
    (b"show V;", b"&3 {}\nrows 1\n"),
    (b"unwatch V;", b"ok objects 6 edges 5 nodes 6\n"),
    (b"dump;", DUMPED),
    (b"generate 1 20;", b"ok objects 197 edges 245 nodes 140\n"),
];

const DUMPED: &[u8] = b"oem 2
next 7
nodes 1000
plan top
label b
label c
label d
label e
label f
name A &1
object &1 {}
object &2 2
object &3 {}
object &4 {}
object &5 {}
object &6 true
edge &1 b &2
edge &1 c &3
edge &3 b &4
edge &3 d &5
edge &5 e &6
end
";

// The forms as any slice, so that what they are is no fact of the loops over them.
fn forms() -> &'static [Form] {
    &FORMS
}

// What a run comes to: how it ends, and the bytes written.
#[derive(Drop)]
struct Due {
    outcome: Outcome,
    written: Vec<u8>,
}

impl Due {
    fn new(alloc: Global) -> Due {
        Due {
            outcome: ends(Status::DoneRefused, 0, 0),
            written: Vec::new(alloc),
        }
    }

    // One more statement, of whose reply so many bytes are written.
    fn add(&mut self, reply: &[u8], count: usize) -> Result<(), NoMemory> {
        let refused = u64::from(reply.starts_with(b"refused "));
        self.outcome.done = self.outcome.done.saturating_add(1);
        self.outcome.refused = self.outcome.refused.saturating_add(refused);
        self.written.extend_from_slice(front(reply, count))?;
        Ok(())
    }

    // All statements of a script of which so many bytes are read.
    fn add_read(&mut self, taken: usize) -> Result<(), NoMemory> {
        let mut end = 0usize;
        for (chunk, reply) in forms() {
            end = end.saturating_add(chunk.len());
            if end <= taken {
                self.add(reply, reply.len())?;
            }
        }
        Ok(())
    }

    // The statements up to a write that fails behind so many: a reply is written in as many writes
    // as it has pieces.
    fn add_written(&mut self, piece: u32, sound: usize) -> Result<(), NoMemory> {
        let mut ahead = sound;
        for (_, reply) in forms() {
            let writes = parts(reply.len(), piece);
            if ahead < writes {
                self.outcome.status = Status::WriteFault;
                return self.add(reply, ahead.saturating_mul(piece as usize));
            }
            ahead = ahead.saturating_sub(writes);
            self.add(reply, reply.len())?;
        }
        Ok(())
    }
}

fn put_script(bytes: &mut Vec<u8>) -> Result<(), NoMemory> {
    for (chunk, _) in forms() {
        bytes.extend_from_slice(chunk)?;
    }
    Ok(())
}

fn script(alloc: Global) -> Result<Vec<u8>, NoMemory> {
    let mut bytes = Vec::new(alloc);
    put_script(&mut bytes)?;
    Ok(bytes)
}

// The parts of so many bytes that pieces make, the last one maybe a smaller piece.
fn parts(bytes: usize, piece: u32) -> usize {
    bytes.div_ceil((piece as usize).max(1))
}

// What a run comes to whose read of this number fails, counted from 1.
fn due_to_read(alloc: Global, piece: u32, failing: usize) -> Result<Due, NoMemory> {
    let taken = failing.saturating_sub(1).saturating_mul(piece as usize);
    let mut due = Due::new(alloc);
    due.outcome.status = Status::ReadFault;
    due.add_read(taken)?;
    Ok(due)
}

// What a run comes to whose write of this number fails, counted from 1.
fn due_to_write(alloc: Global, piece: u32, failing: usize) -> Result<Due, NoMemory> {
    let mut due = Due::new(alloc);
    due.add_written(piece, failing.saturating_sub(1))?;
    Ok(due)
}

fn check_read(alloc: Global, script: &[u8], piece: u32, failing: usize) -> Result<(), Fail> {
    let outside = Outside {
        failing_read: failing as u64,
        ..sound(piece, 65_536)
    };
    let due = due_to_read(alloc, piece, failing)?;
    check_run(alloc, script, outside, due.outcome, due.written.as_slice())
}

// Each read failing in turn, the one that finds the end of the script among them.
fn check_reads(alloc: Global, script: &[u8], piece: u32) -> Result<(), Fail> {
    let reads = parts(script.len(), piece).saturating_add(1);
    for failing in 1..reads.saturating_add(1) {
        check_read(alloc, script, piece, failing)?;
    }
    Ok(())
}

fn check_pieces_read(alloc: Global, script: &[u8]) -> Result<(), Fail> {
    for piece in PIECES {
        check_reads(alloc, script, piece)?;
    }
    Ok(())
}

#[test]
fn each_read_may_fail_of_a_script_of_all_forms(rt: HostRuntime) -> Result<(), Fail> {
    let script = script(rt.alloc())?;
    check_pieces_read(rt.alloc(), script.as_slice())
}

// Whether the run is done, so that the write that was to fail isn't made.
fn check_write(alloc: Global, script: &[u8], piece: u32, failing: usize) -> Result<bool, Fail> {
    let outside = Outside {
        failing_write: failing as u64,
        ..sound(65_536, piece)
    };
    let due = due_to_write(alloc, piece, failing)?;
    let outcome = due.outcome;
    let checked = check_run(alloc, script, outside, outcome, due.written.as_slice());
    drop(due);
    checked?;
    Ok(outcome.status == Status::DoneRefused)
}

// Each write failing in turn, up to the first that isn't made.
fn check_writes(alloc: Global, script: &[u8], piece: u32) -> Result<(), Fail> {
    for failing in 1..10_000 {
        if check_write(alloc, script, piece, failing)? {
            return Ok(());
        }
    }
    Err(Fail::new("no run is done"))
}

const WRITE_PIECES: [u32; 3] = [1, 5, 4_096];

fn check_pieces_written(alloc: Global, script: &[u8]) -> Result<(), Fail> {
    for piece in WRITE_PIECES {
        check_writes(alloc, script, piece)?;
    }
    Ok(())
}

#[test]
fn each_write_may_fail_of_a_script_of_all_forms(rt: HostRuntime) -> Result<(), Fail> {
    let script = script(rt.alloc())?;
    check_pieces_written(rt.alloc(), script.as_slice())
}

fn sure_source(alloc: Global, script: &[u8], piece: u32) -> Result<SureSource, NoMemory> {
    Ok(SureSource::new(OemText::from_bytes(alloc, script)?, piece.max(1)))
}

// Whether the script runs so to a sink that keeps what it is written.
fn runs_told(alloc: Global, script: &[u8], piece: u32, due: &Due) -> Result<bool, NoMemory> {
    let mut kept = sink(alloc, sound(piece, piece))?;
    let found = run_from(alloc, sure_source(alloc, script, piece), &mut kept);
    let is_so = is_due(found, kept.bytes(), due.outcome, due.written.as_slice());
    drop(kept);
    is_so
}

// Whether it runs so to one that never fails, too.
fn runs_so(alloc: Global, script: &[u8], piece: u32, due: &Due) -> Result<bool, NoMemory> {
    let is_told = runs_told(alloc, script, piece, due)?;
    let mut sink = SureSink::new(piece.max(1));
    let untold = run_from(alloc, sure_source(alloc, script, piece), &mut sink)?;
    Ok(is_told && untold == due.outcome)
}

// Runs the script from a source that never fails to both.
fn check_sure(alloc: Global, script: &[u8], piece: u32) -> Result<(), Fail> {
    let due = due_to_write(alloc, 4_096, 10_000)?;
    let is_so = runs_so(alloc, script, piece, &due);
    drop(due);
    pass(is_so)
}

const SURE_PIECES: [u32; 4] = [1, 5, 13, 65_536];

fn check_pieces_sure(alloc: Global, script: &[u8]) -> Result<(), Fail> {
    for piece in SURE_PIECES {
        check_sure(alloc, script, piece)?;
    }
    Ok(())
}

#[test]
fn a_script_of_all_forms_runs_where_nothing_can_fail(rt: HostRuntime) -> Result<(), Fail> {
    let script = script(rt.alloc())?;
    check_pieces_sure(rt.alloc(), script.as_slice())
}
