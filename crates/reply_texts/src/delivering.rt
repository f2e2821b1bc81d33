ghost use Rattle.std.specs.Prelude.{◌≡◌, ◌<◌, ℕ, List, [], length, OnOk, OnErr};
ghost use Rattle.std.specs.Io.KnownBytes.{Appends};
ghost use Rattle.lore_base.specs.Outcomes.{HasCause};
ghost use Rattle.lore_base.specs.Pieces.{Puts};
ghost use Rattle.reply_texts.specs.Deliveries.{AppendsProperFront};

use crate::reply_writer::ReplyWriter;
use lore_base::{Failed, Out, Sink};

/// What has a text.
pub trait ReplyText {
    /// The bytes of the text.
    ghost text: { Self → List ℕ };

    /// Puts the text, piece by piece.
    fn put_to<O: Out>(&self, out: &mut O) -> Result<(), O::Fault>
        ensures { Puts O.is_memory (O.state out.old) (text self.now) (O.state out.new) result };
}

/// Writes the text to the sink, by way of a buffer of 4,096 bytes. Fails where a write fails, and
/// a proper front of the text is written then. Takes no memory.
pub fn write_text<T: ReplyText, K: Sink>(reply: &T, sink: &mut K) -> Result<(), Failed>
    requires some { 0 < length (T.text reply.now) }
    ensures ok { OnOk result (Appends (K.written sink.old) (K.written sink.new) (T.text reply.now)) }
    ensures err { OnErr result
        (AppendsProperFront (K.written sink.old) (K.written sink.new) (T.text reply.now)) }
    ensures cause { HasCause (K.faults sink.old) (K.faults sink.new) result }
{
    deliver(reply, &mut ReplyWriter::new(sink))
}

// Puts the text, and hands all of it to the sink.
fn deliver<T: ReplyText, K: Sink>(reply: &T, out: &mut ReplyWriter<K>) -> Result<(), Failed>
    requires some { 0 < length (T.text reply.now) }
    requires empty { out.old.buffer ≡ [] }
    ensures same_sink { out.new.sink.ghost_name ≡ out.old.sink.ghost_name }
    ensures ok { OnOk result (Appends (K.written out.old.sink.now) (K.written out.new.sink.now)
        (T.text reply.now)) }
    ensures err { OnErr result (AppendsProperFront
        (K.written out.old.sink.now) (K.written out.new.sink.now) (T.text reply.now)) }
    ensures cause { HasCause (K.faults out.old.sink.now) (K.faults out.new.sink.now) result }
{
    reply.put_to(out)?;
    out.flush()
}
