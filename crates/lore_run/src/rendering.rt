ghost use Rattle.std.specs.Prelude.{◌<◌, length, OnOk, OnErr};
ghost use Rattle.std.specs.Io.KnownBytes.{Appends};
ghost use Rattle.lore_base.specs.Outcomes.{HasCause};
ghost use Rattle.lore_base.specs.Pieces.{Puts};
ghost use Rattle.reply_texts.specs.Deliveries.{AppendsProperFront};
ghost use Rattle.lore_run.specs.Replies.{reply_text};

use crate::past_values::PastValues;
use lore_base::{Failed, Out, Sink};
use lore_db::{Db, Reply};
use reply_texts::{ReplyText, put_changed, put_lines, put_plan, put_refused, put_rows, write_text};

/// Writes the lines of a reply to the sink. Fails where a write fails, and a proper front of the
/// lines is written then. Takes no memory.
pub(crate) fn write_reply<K: Sink>(reply: &Reply, db: &Db, sink: &mut K) -> Result<(), Failed>
    requires some { 0 < length (reply_text db.now.state reply.now) }
    ensures ok { OnOk result (Appends (K.written sink.old) (K.written sink.new)
        (reply_text db.now.state reply.now)) }
    ensures err { OnErr result (AppendsProperFront (K.written sink.old) (K.written sink.new)
        (reply_text db.now.state reply.now)) }
    ensures cause { HasCause (K.faults sink.old) (K.faults sink.new) result }
{
    write_text(&ShownReply { reply, db }, sink)
}

// A reply, with the database whose labels and values it shows.
#[derive(Drop)]
struct ShownReply<'a> {
    reply: &'a Reply,
    db: &'a Db,
}

impl<'a> ReplyText for ShownReply<'a> {
    ghost text = { λ s. reply_text s.db.now.state s.reply.now };

    fn put_to<O: Out>(&self, out: &mut O) -> Result<(), O::Fault> {
        put_reply(self.reply, self.db, out)
    }
}

// Puts the lines of a reply.
fn put_reply<O: Out>(reply: &Reply, db: &Db, out: &mut O) -> Result<(), O::Fault>
    ensures { Puts O.is_memory (O.state out.old)
        (reply_text db.now.state reply.now) (O.state out.new) result }
{
    match reply {
        Reply::Changed {
            objects,
            edges,
            nodes,
        } => put_changed(*objects, *edges, *nodes, out),
        Reply::Rows(answer) => {
            let store = db.store();
            put_rows(answer.as_slice(), store.labels(), store.graph(), out)
        }
        Reply::Past { moment, answer } => {
            let values = PastValues::new(db, *moment);
            put_rows(answer.as_slice(), db.store().labels(), &values, out)
        }
        Reply::PlanShown {
            kind,
            candidates,
            found,
        } => put_plan(*kind, *candidates, *found, out),
        Reply::Lines(lines) => put_lines(lines.as_slice(), out),
        Reply::Dump(dump) => out.put(dump.as_bytes()),
        Reply::Refused(refusal) => put_refused(*refusal, out),
    }
}
