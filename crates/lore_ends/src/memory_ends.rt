ghost use Rattle.std.specs.Prelude.{◌≡◌, ℕ, ◌+◌, ◌<◌, ◌≤◌, ◌↔◌, ◌⊎◌, [], length, take, min, Some};
ghost use Rattle.std.specs.Prelude.{None, IsOk, IsErr, IfOk, OnErr, Contains};
ghost use Rattle.std.specs.Io.{ReadsAtMost};
ghost use Rattle.std.specs.Io.KnownBytes.{ReadConsumes, WriteAppends};
ghost use Rattle.lore_ends.specs.Outcomes.{HasCause, Accepts};
ghost use Rattle.lore_ends.specs.MemoryEnds.{call_after};

use crate::outside::{Failed, Sink, Source};
use lore_lists::{CallList, NoMemory, OemText, RoomyList};
use std::alloc::Global;
use std::marker::Model;

/// A source over bytes in memory, which fails at chosen calls.
#[derive(Drop)]
pub struct MemSource {
    bytes: OemText,
    at: usize,
    piece: u32,
    fails: CallList,
    calls: u64,
    faults: u64,
}

impl Model for MemSource {
    ghost use Rattle.std.specs.Prelude.{◌≤◌, length, drop};
    ghost use Rattle.lore_ends.specs.MemoryEnds.{SourceState};

    ghost Value = { SourceState };

    ghost view = { λ s. record {
      left = drop s.at s.bytes;
      piece = s.piece;
      fails = s.fails;
      calls = s.calls;
      faults = s.faults;
    } };

    ghost invariant = { λ s. (1 ≤ s.piece) × (s.at ≤ length s.bytes) };
}

impl MemSource {
    /// A source that gives `bytes`, at most `piece` of them at a read, and fails at the calls whose
    /// numbers stand in `fails`, counted from 1.
    pub fn new(bytes: OemText, piece: u32, fails: CallList) -> MemSource
        requires { 1 ≤ piece }
        ensures left { result.left ≡ bytes }
        ensures piece { result.piece ≡ piece }
        ensures fails { result.fails ≡ fails }
        ensures calls { result.calls ≡ 0 }
        ensures faults { result.faults ≡ 0 }
    {
        MemSource {
            bytes,
            at: 0,
            piece,
            fails,
            calls: 0,
            faults: 0,
        }
    }
}

impl Source for MemSource {
    ghost left = { λ s. Some s.left };

    ghost faults = { λ s. s.faults };

    #[tactic(auto, using(crate::proofs::CauseLaws::rose))]
    fn read(&mut self, buf: &mut [u8]) -> Result<usize, Failed>
        ensures bound { ReadsAtMost result buf.new }
        ensures bytes { ReadConsumes (Some self.old.left) (Some self.new.left) result buf.new }
        ensures cause { HasCause self.old.faults self.new.faults result }

        ensures fails { IsErr result ↔ Contains self.old.fails (call_after self.old.calls) }
        ensures count { IfOk result
            (λ count. count ≡ min self.old.piece (min (length buf.new) (length self.old.left))) }
        ensures calls { self.new.calls ≡ call_after self.old.calls }
        ensures counted { OnErr result (self.new.faults ≡ call_after self.old.faults) }
        ensures kept { (self.new.piece ≡ self.old.piece) × (self.new.fails ≡ self.old.fails) }
    {
        self.calls = self.calls.saturating_add(1);
        if self.fails.as_slice().contains(&self.calls) {
            self.faults = self.faults.saturating_add(1);
            return Err(Failed);
        }
        let count = give(&self.bytes.as_bytes()[self.at..], self.piece, buf);
        self.at += count;
        Ok(count)
    }
}

/// A source over bytes in memory that never fails.
#[derive(Drop)]
pub struct SureSource {
    bytes: OemText,
    at: usize,
    piece: u32,
}

impl Model for SureSource {
    ghost use Rattle.std.specs.Prelude.{◌≤◌, length, drop};
    ghost use Rattle.lore_ends.specs.MemoryEnds.{SureSourceState};

    ghost Value = { SureSourceState };

    ghost view = { λ s. record { left = drop s.at s.bytes; piece = s.piece } };

    ghost invariant = { λ s. (1 ≤ s.piece) × (s.at ≤ length s.bytes) };
}

impl SureSource {
    /// A source that gives `bytes`, at most `piece` of them at a read.
    pub fn new(bytes: OemText, piece: u32) -> SureSource
        requires { 1 ≤ piece }
        ensures left { result.left ≡ bytes }
        ensures piece { result.piece ≡ piece }
    {
        SureSource {
            bytes,
            at: 0,
            piece,
        }
    }
}

impl Source for SureSource {
    ghost left = { λ s. Some s.left };

    ghost faults = { λ _. 0 };

    fn read(&mut self, buf: &mut [u8]) -> Result<usize, Failed>
        ensures bound { ReadsAtMost result buf.new }
        ensures bytes { ReadConsumes (Some self.old.left) (Some self.new.left) result buf.new }
        ensures cause { HasCause 0 0 result }

        ensures sure { IsOk result }
        ensures count { IfOk result
            (λ count. count ≡ min self.old.piece (min (length buf.new) (length self.old.left))) }
        ensures kept { self.new.piece ≡ self.old.piece }
    {
        let count = give(&self.bytes.as_bytes()[self.at..], self.piece, buf);
        self.at += count;
        Ok(count)
    }
}

// Puts bytes from the front of `left` at the front of `buf`, as many as `piece`, both of them and
// no more allow.
fn give(left: &[u8], piece: u32, buf: &mut [u8]) -> usize
    ensures count { result ≡ min piece (min (length buf.new) (length left.now)) }
    ensures front { take result buf.new ≡ take result left.now }
{
    let count = (piece as usize).min(buf.len().min(left.len()));
    buf[..count].copy_from_slice(&left[..count]);
    count
}

/// A sink into memory, with room for a fixed number of bytes, which fails at chosen calls.
#[derive(Drop)]
pub struct MemSink {
    bytes: RoomyList<u8>,
    room: usize,
    piece: u32,
    fails: CallList,
    calls: u64,
    faults: u64,
}

impl Model for MemSink {
    ghost use Rattle.std.specs.Prelude.{◌≤◌};
    ghost use Rattle.lore_ends.specs.MemoryEnds.{SinkState};

    ghost Value = { SinkState };

    ghost view = { λ s. record {
      written = s.bytes.items;
      room = s.room;
      piece = s.piece;
      fails = s.fails;
      calls = s.calls;
      faults = s.faults;
    } };

    ghost invariant = { λ s. (1 ≤ s.piece) × (s.room ≤ s.bytes.room) };
}

impl MemSink {
    /// A sink that keeps up to `room` bytes, for which it takes the memory at once. A write appends
    /// at most `piece` bytes. It fails where its number, counted from 1, stands in `fails`, and
    /// where the room is used up and its piece isn't empty.
    pub fn new(alloc: Global, room: usize, piece: u32, fails: CallList) -> Result<MemSink, NoMemory>
        requires { 1 ≤ piece }
        ensures written { IfOk result (λ sink. sink.written ≡ []) }
        ensures room { IfOk result (λ sink. sink.room ≡ room) }
        ensures piece { IfOk result (λ sink. sink.piece ≡ piece) }
        ensures fails { IfOk result (λ sink. sink.fails ≡ fails) }
        ensures calls { IfOk result (λ sink. sink.calls ≡ 0) }
        ensures faults { IfOk result (λ sink. sink.faults ≡ 0) }
    {
        Ok(MemSink {
            bytes: RoomyList::with_room(alloc, room)?,
            room,
            piece,
            fails,
            calls: 0,
            faults: 0,
        })
    }

    /// The bytes written so far.
    pub fn bytes(&self) -> &[u8]
        ensures { result.now ≡ self.now.written }
    {
        self.bytes.as_slice()
    }
}

impl Sink for MemSink {
    ghost written = { λ s. Some s.written };

    ghost faults = { λ s. s.faults };

    #[tactic(auto, using(crate::proofs::CauseLaws::rose))]
    fn write(&mut self, piece: &[u8]) -> Result<usize, Failed>
        ensures bound { Accepts result piece.now }
        ensures bytes { WriteAppends
            (Some self.old.written) (Some self.new.written) result piece.now }
        ensures cause { HasCause self.old.faults self.new.faults result }

        ensures fails { IsErr result ↔ (Contains self.old.fails (call_after self.old.calls)
            ⊎ ((self.old.room ≡ 0) × (0 < length piece.now))) }
        ensures count { IfOk result
            (λ count. count ≡ min self.old.piece (min (length piece.now) self.old.room)) }
        ensures room { IfOk result (λ count. self.new.room + count ≡ self.old.room) }
        ensures room_kept { OnErr result (self.new.room ≡ self.old.room) }
        ensures calls { self.new.calls ≡ call_after self.old.calls }
        ensures counted { OnErr result (self.new.faults ≡ call_after self.old.faults) }
        ensures kept { (self.new.piece ≡ self.old.piece) × (self.new.fails ≡ self.old.fails) }
    {
        self.calls = self.calls.saturating_add(1);
        if self.fails.as_slice().contains(&self.calls) || (self.room == 0 && !piece.is_empty()) {
            self.faults = self.faults.saturating_add(1);
            return Err(Failed);
        }
        let count = (self.piece as usize).min(piece.len().min(self.room));
        self.bytes.append_reserved(&piece[..count]);
        self.room -= count;
        Ok(count)
    }
}

/// A sink that never fails. It keeps no byte, and so it doesn't tell what was written.
#[derive(Clone, Copy, Debug)]
pub struct SureSink {
    piece: u32,
    ghost some: { 1 ≤ piece },
}

impl SureSink {
    /// A sink that takes at most `piece` bytes at a write.
    pub fn new(piece: u32) -> SureSink
        requires { 1 ≤ piece }
        ensures { result.piece ≡ piece }
    {
        SureSink { piece }
    }
}

impl Sink for SureSink {
    ghost written = { λ _. None };

    ghost faults = { λ _. 0 };

    fn write(&mut self, piece: &[u8]) -> Result<usize, Failed>
        ensures bound { Accepts result piece.now }
        ensures bytes { WriteAppends None None result piece.now }
        ensures cause { HasCause 0 0 result }

        ensures sure { IsOk result }
        ensures count { IfOk result (λ count. count ≡ min self.old.piece (length piece.now)) }
        ensures kept { self.new.piece ≡ self.old.piece }
    {
        Ok((self.piece as usize).min(piece.len()))
    }
}
