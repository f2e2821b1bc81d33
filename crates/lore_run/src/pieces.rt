ghost use Rattle.std.specs.Prelude.{◌≡◌, ◌+◌, ◌<◌, ◌≤◌, ◌^◌, false, length, take, IfOk, IfErr};
ghost use Rattle.std.specs.Prelude.{OnOk, OnErr};
ghost use Rattle.std.specs.Io.KnownBytes.{Consumes, Keeps, IsAtEnd};
ghost use Rattle.lore_base.specs.Outcomes.{HasCause};
ghost use Rattle.lore_base.specs.declared.limits.TheConstants.{SCRIPT_BYTES as THE_SCRIPT_BYTES};
ghost use Rattle.lore_run.specs.Endings.{IsCausedBySink};
ghost use Rattle.lore_run.specs.inside.Turns.{standing, IsUnended, Advances, StopsIn};

use crate::parts::run_chunk;
use crate::sessions::Session;
use crate::status::Status;
use crate::tally::Tally;
use lore_base::limits::SCRIPT_BYTES;
use lore_base::{Failed, Sink, Source, Steps};
use lorel_lex::{Chunks, FedState};
use std::alloc::{AllocError, Global};
use std::sync::ledger::Ledger;

/// Bytes that one read asks for at most.
pub(crate) const PIECE_BYTES: usize = 65_536;

/// The buffer of all reads.
pub(crate) fn piece_buffer(alloc: Global) -> Result<Vec<u8>, AllocError>
    ensures { IfOk result (λ piece. length piece.items ≡ PIECE_BYTES) }
{
    let mut piece = Vec::with_capacity(alloc, PIECE_BYTES)?;
    piece.resize(PIECE_BYTES, 0)?;
    Ok(piece)
}

/// Reads the next piece of a script of which so many bytes were taken, and gives the number of its
/// bytes; 0 is the end. A piece goes up to the limit of a script, and at the limit it has one byte.
pub(crate) fn read_piece<S: Source>(
    source: &mut S,
    piece: &mut [u8],
    taken: usize,
) -> Result<usize, Failed>
    requires room { length piece.old ≡ PIECE_BYTES }
    requires taken { taken ≤ THE_SCRIPT_BYTES }
    ensures bound { IfOk result (λ count. count ≤ PIECE_BYTES) }
    ensures within { IfOk result
        (λ count. taken < THE_SCRIPT_BYTES → taken + count ≤ THE_SCRIPT_BYTES) }
    ensures one { IfOk result (λ count. taken ≡ THE_SCRIPT_BYTES → count ≤ 1) }
    ensures bytes { IfOk result
        (λ count. Consumes (S.left source.old) (S.left source.new) (take count piece.new)) }
    ensures end { IfOk result (λ count. count ≡ 0 → IsAtEnd (S.left source.new)) }
    ensures kept { OnErr result (Keeps (S.left source.old) (S.left source.new)) }
    ensures cause { HasCause (S.faults source.old) (S.faults source.new) result }
{
    let room = PIECE_BYTES.min(SCRIPT_BYTES - taken).max(1);
    source.read(&mut piece[..room])
}

/// Executes the chunks that end in a piece of the script, each as soon as its `;` is met, and
/// writes the reply of each before the next is executed. What stands behind them is held.
pub(crate) fn run_piece<K: Sink, L: Ledger>(
    alloc: Global,
    piece: &[u8],
    reader: &mut Chunks,
    session: &mut Session,
    sink: &mut K,
    tally: &mut Tally,
    steps: &mut Steps<L>,
) -> Result<(), Status>
    requires unfailed { (reader.old.whole ≡ false) × (reader.old.failed ≡ false) }
    requires held { IsUnended reader.old.held }
    requires room { tally.old.done + (length reader.old.held + length piece.now) + 1 < 2 ^ 64 }
    requires fewer { tally.old.refused ≤ tally.old.done }
    ensures ok { OnOk result (Advances
        (standing reader.old.held tally.old (K.written sink.old) session.old.state steps.old) piece.now
        (standing reader.new.held tally.new (K.written sink.new) session.new.state steps.new)) }
    ensures unfailed { OnOk result ((reader.new.whole ≡ false) × (reader.new.failed ≡ false)) }
    ensures held { OnOk result (IsUnended reader.new.held) }
    ensures fewer { OnOk result (tally.new.refused ≤ tally.new.done) }
    ensures stopped { IfErr result (λ status. StopsIn status
        (standing reader.old.held tally.old (K.written sink.old) session.old.state steps.old) piece.now
        (standing reader.new.held tally.new (K.written sink.new) session.new.state steps.new)) }
    ensures faultless { OnOk result (K.faults sink.new ≡ K.faults sink.old) }
    ensures cause { IfErr result
        (λ status. IsCausedBySink status (K.faults sink.old) (K.faults sink.new)) }
{
    let mut at = 0;
    'chunks: while at < piece.len() {
        let fed = reader.feed(&piece[at..]);
        match fed.state {
            FedState::More => return Ok(()),
            FedState::Whole => {}
            FedState::TooLong => return Err(Status::StatementTooLong),
            FedState::NoMemory => return Err(Status::NoMemory),
        }
        let Some(chunk) = reader.take() else {
            unreachable!()
        };
        match run_chunk(alloc, chunk.as_bytes(), session, sink, tally, steps) {
            Ok(()) => at += fed.used,
            Err(status) => return Err(status),
        }
    }
    Ok(())
}
