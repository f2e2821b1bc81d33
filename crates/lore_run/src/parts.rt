ghost use Rattle.std.specs.Prelude.{◌≡◌, ◌+◌, ◌<◌, ◌≤◌, ◌^◌, [], length, IfOk, IfErr, OnOk, OnErr};
ghost use Rattle.std.specs.Io.KnownBytes.{Appends};
ghost use Rattle.lore_base.specs.Outcomes.{HasCause};
ghost use Rattle.lore_base.specs.declared.limits.TheConstants.{CHUNK_BYTES};
ghost use Rattle.lore_run.specs.Runs.{chunk, rest, Yields, refusals};
ghost use Rattle.lore_run.specs.Reads.{PartReads};
ghost use Rattle.lore_run.specs.Endings.{IsCausedBySink};
ghost use Rattle.lore_run.specs.Replies.{reply_text};
ghost use Rattle.reply_texts.specs.Deliveries.{AppendsProperFront};
ghost use Rattle.lore_run.specs.inside.Turns.{standing, IsRefusalOf, Replied, RepliedInPart};
ghost use Rattle.lore_run.specs.inside.Turns.{StopsReplying};

use crate::rendering::write_reply;
use crate::sessions::Session;
use crate::status::Status;
use crate::tally::Tally;
use lore_base::{Fault, NoMemory, Refusal, Sink, Steps};
use lore_db::Reply;
use lorel_lex::tokens;
use lorel_parse::parse;
use std::alloc::Global;
use std::sync::ledger::Ledger;

/// Executes a chunk and writes its reply.
pub(crate) fn run_chunk<K: Sink, L: Ledger>(
    alloc: Global,
    text: &[u8],
    session: &mut Session,
    sink: &mut K,
    tally: &mut Tally,
    steps: &mut Steps<L>,
) -> Result<(), Status>
    requires sized { length text.now ≤ CHUNK_BYTES }
    requires room { (tally.old.done + 1 < 2 ^ 64) × (tally.old.refused + 1 < 2 ^ 64) }
    ensures ok { OnOk result (Replied
        (standing [] tally.old (K.written sink.old) session.old.state steps.old)
        (chunk text.now) (standing [] tally.new (K.written sink.new) session.new.state steps.new)) }
    ensures stopped { IfErr result (λ status. StopsReplying status
        (standing [] tally.old (K.written sink.old) session.old.state steps.old)
        (chunk text.now) (standing [] tally.new (K.written sink.new) session.new.state steps.new)) }
    ensures faultless { OnOk result (K.faults sink.new ≡ K.faults sink.old) }
    ensures cause { IfErr result
        (λ status. IsCausedBySink status (K.faults sink.old) (K.faults sink.new)) }
{
    let Ok(reply) = answer(alloc, text, session, steps) else {
        return Err(Status::NoMemory);
    };
    let responded = respond(&reply, session, sink, tally);
    // A drop that is written out is proved once; else it is proved in this function, at length.
    drop(reply);
    responded
}

/// Refuses what stands behind the last chunk. Nothing is read for it, so the count of reads, which it
/// isn't given, is told as 0.
pub(crate) fn run_rest<K: Sink>(
    session: &Session,
    sink: &mut K,
    tally: &mut Tally,
) -> Result<(), Status>
    requires room { (tally.old.done + 1 < 2 ^ 64) × (tally.old.refused + 1 < 2 ^ 64) }
    ensures ok { OnOk result (Replied
        (standing [] tally.old (K.written sink.old) session.now.state 0)
        rest (standing [] tally.new (K.written sink.new) session.now.state 0)) }
    ensures err { OnErr result (RepliedInPart
        (standing [] tally.old (K.written sink.old) session.now.state 0)
        rest (standing [] tally.new (K.written sink.new) session.now.state 0)) }
    ensures only { IfErr result (λ status. status ≡ Status.WriteFault) }
    ensures cause { HasCause (K.faults sink.old) (K.faults sink.new) result }
{
    respond(&Reply::Refused(Refusal::Unfinished), session, sink, tally)
}

// Executes a chunk and gives its reply. Its tokens are gone before the statement is executed.
fn answer<L: Ledger>(
    alloc: Global,
    text: &[u8],
    session: &mut Session,
    steps: &mut Steps<L>,
) -> Result<Reply, NoMemory>
    requires { length text.now ≤ CHUNK_BYTES }
    ensures ok { IfOk result (λ reply.
        Yields session.old.state (chunk text.now) reply session.new.state) }
    ensures err { OnErr result (session.new ≡ session.old) }
    ensures read { let before = session.old.state in IfOk result (λ reply.
        PartReads before (chunk text.now) reply session.new.state steps.old steps.new) }
{
    let parsed = match tokens(alloc, text) {
        Ok(tokens) => parse(alloc, &tokens),
        Err(fault) => return refused(&fault),
    };
    match parsed {
        Ok(statement) => {
            let reply = session.execute(alloc, &statement, steps);
            // A drop that is written out is proved once; else it is proved in this function, at length.
            drop(statement);
            reply
        }
        Err(fault) => refused(&fault),
    }
}

// The reply to a fault, unless it is want of memory.
fn refused<F: Fault>(fault: &F) -> Result<Reply, NoMemory>
    ensures { IfOk result (λ reply. IsRefusalOf (F.refusal_of fault.now) reply) }
{
    match fault.refusal() {
        Some(refusal) => Ok(Reply::Refused(refusal)),
        None => Err(NoMemory),
    }
}

// Counts a part that was executed and writes its reply.
fn respond<K: Sink>(
    reply: &Reply,
    session: &Session,
    sink: &mut K,
    tally: &mut Tally,
) -> Result<(), Status>
    requires some { 0 < length (reply_text session.now.state reply.now) }
    requires room { (tally.old.done + 1 < 2 ^ 64) × (tally.old.refused + 1 < 2 ^ 64) }
    ensures done { tally.new.done ≡ tally.old.done + 1 }
    ensures refused { tally.new.refused ≡ tally.old.refused + refusals reply.now }
    ensures ok { OnOk result (Appends (K.written sink.old) (K.written sink.new)
        (reply_text session.now.state reply.now)) }
    ensures err { OnErr result (AppendsProperFront (K.written sink.old) (K.written sink.new)
        (reply_text session.now.state reply.now)) }
    ensures only { IfErr result (λ status. status ≡ Status.WriteFault) }
    ensures cause { HasCause (K.faults sink.old) (K.faults sink.new) result }
{
    tally.count(reply);
    match write_reply(reply, session.db(), sink) {
        Ok(()) => Ok(()),
        Err(_failed) => Err(Status::WriteFault),
    }
}
