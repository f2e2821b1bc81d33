ghost use Rattle.std.specs.Prelude.{◌≡◌, ◌<◌, ◌≤◌, ◌↔◌, [], ◌++◌, length, take, drop};
ghost use Rattle.std.specs.Prelude.{IsTrue, OnOk, OnErr, IfErr};
ghost use Rattle.std.specs.Io.KnownBytes.{Appends};
ghost use Rattle.lore_base.specs.Outcomes.{HasCause};
ghost use Rattle.reply_texts.specs.inside.Passing.{passing, HandsOn};

use lore_base::{Failed, Out, Sink};
use std::marker::Model;

/// Bytes that the buffer of replies holds at most.
pub(crate) const REPLY_BYTES: usize = 4_096;

/// The buffer that replies go through on their way to the sink, seen by contracts as the bytes
/// that it holds.
#[derive(Drop)]
pub(crate) struct ReplyBuffer {
    bytes: [u8; REPLY_BYTES],
    len: usize,
}

impl Model for ReplyBuffer {
    ghost use Rattle.std.specs.Prelude.{ℕ, ◌≤◌, List, take};
    ghost use Rattle.reply_texts.specs.declared.reply_writer.TheConstants.{REPLY_BYTES};

    ghost Value = { List ℕ };

    ghost view = { λ b. take b.len b.bytes };

    ghost invariant = { λ b. b.len ≤ REPLY_BYTES };
}

impl ReplyBuffer {
    fn new() -> ReplyBuffer
        ensures { result ≡ [] }
    {
        ReplyBuffer {
            bytes: [0; REPLY_BYTES],
            len: 0,
        }
    }

    fn is_full(&self) -> bool
        ensures { IsTrue result ↔ (REPLY_BYTES ≤ length self.now) }
    {
        self.len == REPLY_BYTES
    }

    fn as_slice(&self) -> &[u8]
        ensures { result.now ≡ self.now }
    {
        &self.bytes[..self.len]
    }

    // Takes in as many bytes from the front of `piece` as there is room for, and gives their
    // number.
    fn fill(&mut self, piece: &[u8]) -> usize
        ensures held { self.new ≡ self.old ++ take result piece.now }
        ensures within { result ≤ length piece.now }
        ensures some { length self.old < REPLY_BYTES → 0 < length piece.now → 0 < result }
    {
        let count = piece.len().min(REPLY_BYTES - self.len);
        self.bytes[self.len..self.len + count].copy_from_slice(&piece[..count]);
        self.len += count;
        count
    }

    fn clear(&mut self)
        ensures { self.new ≡ [] }
    {
        self.len = 0;
    }

    fn drop_front(&mut self, count: usize)
        requires { count ≤ length self.old }
        ensures { self.new ≡ drop count self.old }
    {
        self.bytes[..self.len].rotate_left(count);
        self.len -= count;
    }
}

/// The way of one reply to a sink: a buffer of a fixed size, which is handed to the sink each time
/// it is full and more is to come, and at the end of the reply.
#[derive(Drop)]
pub(crate) struct ReplyWriter<'a, K: Sink> {
    sink: &'a mut K,
    buffer: ReplyBuffer,
}

impl<'a, K: Sink> ReplyWriter<'a, K> {
    /// A writer to this sink, which holds nothing.
    pub(crate) fn new(sink: &'a mut K) -> ReplyWriter<'a, K>
        ensures same_sink { result.sink.ghost_name ≡ sink.entry.ghost_name }
        ensures sink { result.sink.now ≡ sink.old }
        ensures empty { result.buffer ≡ [] }
    {
        ReplyWriter {
            sink,
            buffer: ReplyBuffer::new(),
        }
    }

    /// Hands what is held to the sink, and holds nothing then. Where a write fails, what isn't
    /// written is still held.
    pub(crate) fn flush(&mut self) -> Result<(), Failed>
        ensures same_sink { self.new.sink.ghost_name ≡ self.old.sink.ghost_name }
        ensures handed { let old = self.old.sink in let new = self.new.sink in HandsOn
            (passing old.ghost_name (K.written old.now) self.old.buffer (K.faults old.now))
            (passing new.ghost_name (K.written new.now) self.new.buffer (K.faults new.now)) }
        ensures cause { HasCause (K.faults self.old.sink.now) (K.faults self.new.sink.now) result }
        ensures empty { OnOk result (self.new.buffer ≡ []) }
        ensures some { OnErr result (0 < length self.new.buffer) }
    {
        match write_all(self.sink, self.buffer.as_slice()) {
            Ok(()) => {
                self.buffer.clear();
                Ok(())
            }
            Err(stop) => {
                self.buffer.drop_front(stop.done);
                Err(stop.failed)
            }
        }
    }

    // Hands what is held to the sink where the buffer is full.
    fn make_room(&mut self) -> Result<(), Failed>
        ensures same_sink { self.new.sink.ghost_name ≡ self.old.sink.ghost_name }
        ensures handed { let old = self.old.sink in let new = self.new.sink in HandsOn
            (passing old.ghost_name (K.written old.now) self.old.buffer (K.faults old.now))
            (passing new.ghost_name (K.written new.now) self.new.buffer (K.faults new.now)) }
        ensures cause { HasCause (K.faults self.old.sink.now) (K.faults self.new.sink.now) result }
        ensures room { OnOk result (length self.new.buffer < REPLY_BYTES) }
    {
        if self.buffer.is_full() {
            return self.flush();
        }
        Ok(())
    }
}

impl<'a, K: Sink> Out for ReplyWriter<'a, K> {
    type Fault = Failed;

    ghost state = { λ w. let sink = w.sink in
        passing sink.ghost_name (K.written sink.now) w.buffer (K.faults sink.now) };

    ghost is_memory = { λ _. ⊥ };

    fn put(&mut self, piece: &[u8]) -> Result<(), Failed> {
        let mut done = 0;
        'parts: while done < piece.len() {
            self.make_room()?;
            done += self.buffer.fill(&piece[done..]);
        }
        Ok(())
    }
}

/// A write failed behind so many bytes.
#[derive(Clone, Copy)]
struct Stop {
    done: usize,
    failed: Failed,
}

// Writes all of `bytes`; what a write leaves over is handed again.
fn write_all<K: Sink>(sink: &mut K, bytes: &[u8]) -> Result<(), Stop>
    ensures ok { OnOk result (Appends (K.written sink.old) (K.written sink.new) bytes.now) }
    ensures part { IfErr result (λ stop. stop.done < length bytes.now) }
    ensures err { IfErr result
        (λ stop. Appends (K.written sink.old) (K.written sink.new) (take stop.done bytes.now)) }
    ensures cause { HasCause (K.faults sink.old) (K.faults sink.new) result }
{
    let mut done = 0;
    'writes: while done < bytes.len() {
        match sink.write(&bytes[done..]) {
            Ok(count) => done += count,
            Err(failed) => return Err(Stop { done, failed }),
        }
    }
    Ok(())
}
