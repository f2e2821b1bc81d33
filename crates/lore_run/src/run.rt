ghost use Rattle.std.specs.Prelude.{◌≡◌, ◌+◌, ◌<◌, ◌↔◌, ◌^◌, [], false, length, Some};
ghost use Rattle.std.specs.Prelude.{IfSome};
ghost use Rattle.lore_base.specs.Causes.{Rose};
ghost use Rattle.lorel_lex.specs.Progress.{holds};
ghost use Rattle.lore_db.specs.States.{new_state};
ghost use Rattle.lore_run.specs.Endings.{KeepsLimits, outside, RunEnds, PrintsAll, IsDone};
ghost use Rattle.lore_run.specs.Endings.{EndsWell, IsUntouched, IsCausedBySource, IsCausedBySink};
ghost use Rattle.lore_run.specs.Reads.{HadMemory, ReadsInBounds};
ghost use Rattle.lore_run.specs.inside.Turns.{standing, Finishes};
ghost use Rattle.lore_run.specs.declared.pieces.TheConstants.{PIECE_BYTES};

use crate::parts::run_rest;
use crate::pieces::{piece_buffer, read_piece, run_piece};
use crate::sessions::Session;
use crate::status::{Outcome, Status};
use crate::tally::Tally;
use lore_base::limits::SCRIPT_BYTES;
use lore_base::{Sink, Source, Steps};
use lorel_lex::{Chunks, Rest};
use std::alloc::Global;
use std::sync::ledger::Ledger;

/// Runs the script that the source has left and writes its replies to the sink, in order. The
/// session is new, and ends in the state after the last statement that was executed.
///
/// The script is read in pieces of at most 65,536 bytes. A statement is executed when its `;` has
/// been read, and its reply is written before the source is read again. With any word from the
/// command line nothing is read or written. What the answer says of bytes is said where the source
/// tells the bytes that it has left, and what was written where the sink tells it, too.
pub fn run_lore<S: Source, K: Sink, L: Ledger>(
    alloc: Global,
    words: &[String],
    source: &mut S,
    sink: &mut K,
    session: &mut Session,
    steps: &mut Steps<L>,
) -> Outcome
    requires { session.old.state ≡ new_state }

    // The headline: where the script was read to its end, the sink grew by the replies of all its
    // statements, and the session is in the state after them.
    ensures printed { IsDone result.status → IfSome (S.left source.old)
        (λ script. PrintsAll script result session.new.state
        (K.written sink.old) (K.written sink.new)) }
    ensures read { IsDone result.status → IfSome (S.left source.old)
        (λ _. S.left source.new ≡ Some []) }

    // How each run ends: the bytes that it took, the replies that it wrote, its counts and its
    // state, by its status.
    ensures ends { length words.now ≡ 0 → RunEnds result session.new.state
        (outside (S.left source.old) (K.written sink.old))
        (outside (S.left source.new) (K.written sink.new)) }
    ensures complete { length words.now ≡ 0 → IfSome (S.left source.old)
        (λ script. KeepsLimits script → EndsWell result.status
        (Rose (S.faults source.old) (S.faults source.new))
        (Rose (K.faults sink.old) (K.faults sink.new))) }

    // What is read, where memory suffices: part by part no more than the bounds of its statement.
    ensures bounded { HadMemory result.status → IfSome (S.left source.old)
        (λ script. ReadsInBounds script result.done session.new.state steps.old steps.new) }

    // Words are the one cause of Usage, and then nothing is touched.
    ensures usage { (result.status ≡ Status.Usage) ↔ (0 < length words.now) }
    ensures untouched { 0 < length words.now → IsUntouched result session.new.state
        (outside (S.left source.old) (K.written sink.old))
        (outside (S.left source.new) (K.written sink.new)) }

    // The faults of source and sink.
    ensures source_faults { IsCausedBySource result.status
        (S.faults source.old) (S.faults source.new) }
    ensures sink_faults { IsCausedBySink result.status (K.faults sink.old) (K.faults sink.new) }
{
    if words.is_empty() {
        run_script(alloc, source, sink, session, steps)
    } else {
        Tally::new().outcome(Status::Usage)
    }
}

// Runs the script piece by piece, each read into one buffer.
fn run_script<S: Source, K: Sink, L: Ledger>(
    alloc: Global,
    source: &mut S,
    sink: &mut K,
    session: &mut Session,
    steps: &mut Steps<L>,
) -> Outcome
    requires { session.old.state ≡ new_state }
    ensures ends { RunEnds result session.new.state
        (outside (S.left source.old) (K.written sink.old))
        (outside (S.left source.new) (K.written sink.new)) }
    ensures bounded { HadMemory result.status → IfSome (S.left source.old)
        (λ script. ReadsInBounds script result.done session.new.state steps.old steps.new) }
    ensures source_faults { IsCausedBySource result.status
        (S.faults source.old) (S.faults source.new) }
    ensures sink_faults { IsCausedBySink result.status (K.faults sink.old) (K.faults sink.new) }
{
    let Ok(mut piece) = piece_buffer(alloc) else {
        return Tally::new().outcome(Status::NoMemory);
    };
    let mut reader = Chunks::new(alloc);
    let ended = run_pieces(
        alloc,
        piece.as_mut_slice(),
        &mut reader,
        source,
        sink,
        session,
        steps,
    );
    drop(reader);
    ended
}

// Reads one piece after the other and executes each chunk when its `;` has been read.
fn run_pieces<S: Source, K: Sink, L: Ledger>(
    alloc: Global,
    piece: &mut [u8],
    reader: &mut Chunks,
    source: &mut S,
    sink: &mut K,
    session: &mut Session,
    steps: &mut Steps<L>,
) -> Outcome
    requires new { session.old.state ≡ new_state }
    requires room { length piece.old ≡ PIECE_BYTES }
    requires fresh { reader.old ≡ holds [] }
    ensures ends { RunEnds result session.new.state
        (outside (S.left source.old) (K.written sink.old))
        (outside (S.left source.new) (K.written sink.new)) }
    ensures bounded { HadMemory result.status → IfSome (S.left source.old)
        (λ script. ReadsInBounds script result.done session.new.state steps.old steps.new) }
    ensures source_faults { IsCausedBySource result.status
        (S.faults source.old) (S.faults source.new) }
    ensures sink_faults { IsCausedBySink result.status (K.faults sink.old) (K.faults sink.new) }
{
    let mut tally = Tally::new();
    let mut taken = 0;
    'pieces: loop {
        let count = match read_piece(source, piece, taken) {
            Ok(0) => {
                let status = end_script(reader, session, sink, &mut tally);
                return tally.outcome(status);
            }
            Ok(count) => count,
            Err(_failed) => return tally.outcome(Status::ReadFault),
        };
        if taken == SCRIPT_BYTES {
            return tally.outcome(Status::ScriptTooLong);
        }
        match run_piece(
            alloc,
            &piece[..count],
            reader,
            session,
            sink,
            &mut tally,
            steps,
        ) {
            Ok(()) => taken += count,
            Err(status) => return tally.outcome(status),
        }
    }
}

// Ends a script that was read to its end: what stands behind its last chunk is refused, where it
// isn't blank. Nothing is read for it, so the count of reads, which it isn't given, is told as 0.
fn end_script<K: Sink>(
    reader: &mut Chunks,
    session: &Session,
    sink: &mut K,
    tally: &mut Tally,
) -> Status
    requires unfailed { (reader.old.whole ≡ false) × (reader.old.failed ≡ false) }
    requires room { (tally.old.done + 1 < 2 ^ 64) × (tally.old.refused + 1 < 2 ^ 64) }
    ensures finished { Finishes result
        (standing reader.old.held tally.old (K.written sink.old) session.now.state 0)
        (standing reader.old.held tally.new (K.written sink.new) session.now.state 0) }
    ensures cause { IsCausedBySink result (K.faults sink.old) (K.faults sink.new) }
{
    if reader.finish() == Rest::Unfinished {
        if let Err(status) = run_rest(session, sink, tally) {
            return status;
        }
    }
    if tally.refused == 0 {
        Status::Done
    } else {
        Status::DoneRefused
    }
}
