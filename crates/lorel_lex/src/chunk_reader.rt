ghost use Rattle.std.specs.Prelude.{◌≡◌, ◌↔◌, true, false, [], ◌++◌, IfOk, OnErr, IfSome, OnSome};
ghost use Rattle.std.specs.Prelude.{IfNone};
ghost use Rattle.lorel_lex.specs.Gaps.{IsBlank};

use crate::gaps::is_all_blank;
use crate::scan::{Scanned, State, scan};
use lore_base::limits::CHUNK_BYTES;
use lore_base::{NoMemory, OemText};
use std::alloc::Global;
use std::marker::Model;

/// What `Chunks::feed` did with a piece.
#[derive(Clone, Copy, Debug, PartialEq, Eq)]
pub struct Fed {
    /// How many bytes of the piece were used.
    pub used: usize,
    pub state: FedState,
}

/// Where a reader stands behind a piece.
#[derive(Clone, Copy, Debug, PartialEq, Eq)]
pub enum FedState {
    /// The piece was used whole; no chunk is ended.
    More,
    /// The `;` of a chunk was met, and the chunk waits to be taken.
    Whole,
    /// A chunk passed its limit.
    TooLong,
    /// Memory was refused; nothing was used.
    NoMemory,
}

/// What stands behind the last chunk of a script.
#[derive(Clone, Copy, Debug, PartialEq, Eq)]
pub enum Rest {
    /// Blank bytes and comments alone.
    Blank,
    /// The beginning of a statement.
    Unfinished,
}

/// Cuts a script that comes in pieces into chunks, each of them the bytes before a `;`.
///
/// A `;` in a comment, a text or a quoted label ends no chunk. The caller feeds the script piece by
/// piece, takes each chunk as it is whole, feeds what is left of the piece, and finishes at the end
/// of the script.
#[derive(Drop)]
pub struct Chunks {
    held: Vec<u8>,
    state: State,
    ready: Option<OemText>,
    failed: bool,
}

impl Model for Chunks {
    ghost use Rattle.lorel_lex.specs.Progress.{Progress};

    ghost Value = { Progress };

    ghost use Rattle.lorel_lex.specs.inside.Reader.{progress_of, IsReader};

    ghost view = { progress_of };

    ghost invariant = { IsReader };
}

impl Chunks {
    ghost use Rattle.lorel_lex.specs.Progress.{holds};
    ghost use Rattle.lorel_lex.specs.Chunks.{Feeds};

    /// A reader at the beginning of a script, which holds nothing. Takes no memory.
    pub fn new(alloc: Global) -> Chunks
        ensures { result ≡ holds [] }
    {
        Chunks {
            held: Vec::new(alloc),
            state: State::Plain,
            ready: None,
            failed: false,
        }
    }

    /// Reads the next piece of the script, at most up to the end of one chunk, and says how many
    /// bytes it used.
    ///
    /// A reader that met a chunk over its limit stays failed, and uses nothing of this or any later
    /// piece.
    pub fn feed(&mut self, piece: &[u8]) -> Fed
        requires { self.old.whole ≡ false }
        ensures { Feeds result.state self.old piece.now result.used self.new }
    {
        if self.failed {
            return stopped(FedState::TooLong);
        }
        match scan(self.state, piece) {
            Scanned::End(at) => {
                if CHUNK_BYTES - self.held.len() < at {
                    self.failed = true;
                    return stopped(FedState::TooLong);
                }
                let Ok(chunk) = joined(&mut self.held, &piece[..at]) else {
                    return stopped(FedState::NoMemory);
                };
                self.ready = Some(chunk);
                self.state = State::Plain;
                Fed {
                    used: at + 1,
                    state: FedState::Whole,
                }
            }
            Scanned::Open(state) => {
                if CHUNK_BYTES - self.held.len() < piece.len() {
                    self.failed = true;
                    return stopped(FedState::TooLong);
                }
                let Ok(()) = self.held.extend_from_slice(piece) else {
                    return stopped(FedState::NoMemory);
                };
                self.state = state;
                Fed {
                    used: piece.len(),
                    state: FedState::More,
                }
            }
        }
    }

    /// The whole chunk that waits, without its `;`; None exactly where none waits, and then nothing
    /// changes. Takes no memory.
    pub fn take(&mut self) -> Option<OemText>
        ensures chunk { IfSome result
            (λ chunk. self.old ≡ record { held = chunk; whole = true; failed = self.old.failed }) }
        ensures taken { OnSome result
            (self.new ≡ record { held = []; whole = false; failed = self.old.failed }) }
        ensures none { IfNone result ((self.old.whole ≡ false) × (self.new ≡ self.old)) }
    {
        self.ready.take()
    }

    /// Ends the script: what stands behind its last chunk. The reader is then as a new one. Takes
    /// no memory.
    pub fn finish(&mut self) -> Rest
        requires taken { self.old.whole ≡ false }
        requires unfailed { self.old.failed ≡ false }
        ensures blank { (result ≡ Rest.Blank) ↔ IsBlank self.old.held }
        ensures unfinished { (result ≡ Rest.Unfinished) ↔ ¬ (IsBlank self.old.held) }
        ensures new { self.new ≡ holds [] }
    {
        let is_blank = is_all_blank(self.held.as_slice());
        self.held.clear();
        self.state = State::Plain;
        if is_blank {
            Rest::Blank
        } else {
            Rest::Unfinished
        }
    }
}

// Nothing of the piece was used.
fn stopped(state: FedState) -> Fed
    ensures { result ≡ record { used = 0; state = state } }
{
    Fed { used: 0, state }
}

// The bytes held and these behind them as one text; nothing is held then. Where memory is refused
// all stays.
fn joined(held: &mut Vec<u8>, front: &[u8]) -> Result<OemText, NoMemory>
    ensures ok { IfOk result (λ text.
        (text ≡ held.old.items ++ front.now) × (held.new.items ≡ [])) }
    ensures err { OnErr result (held.new.items ≡ held.old.items) }
{
    let alloc = *held.allocator();
    if held.is_empty() {
        return OemText::from_bytes(alloc, front);
    }
    let len = held.len();
    held.extend_from_slice(front)?;
    match OemText::from_bytes(alloc, held.as_slice()) {
        Ok(text) => {
            held.clear();
            Ok(text)
        }
        Err(error) => {
            held.truncate(len);
            Err(error)
        }
    }
}
