ghost use Rattle.std.specs.Prelude.{◌≡◌, [], ◌∷◌, ◌++◌, OnOk, OnErr};
ghost use Rattle.lore_base.specs.Lists.{Extends, ExtendsBy};
ghost use Rattle.link_index.specs.inside.LinkEdges.{edges_of};
ghost use Rattle.link_index.specs.inside.LinkRuns as spec;
ghost use Rattle.link_index.specs.inside.LinkRuns.{ListsRun, with_label};
ghost use Rattle.link_index.specs.inside.Records.{AreAscendingHeads, AreChained};

use crate::chains::next_of;
use crate::heads::Head;
use crate::link::Link;
use crate::records::{LinkRecord, edge_at};
use lore_base::{EdgeBuf, Label, NoMemory, Oid};

// Puts the edges of the child's list behind those of `buf`, with the label where one is given.
pub(crate) fn push_run(
    heads: &[Head],
    records: &[LinkRecord],
    child: Oid,
    given: Option<Label>,
    buf: &mut EdgeBuf,
) -> Result<(), NoMemory>
    requires ascend { AreAscendingHeads heads.now }
    requires chained { AreChained heads.now records.now }
    ensures ok { OnOk result (ExtendsBy (ListsRun records.now child given) buf.old buf.new) }
    ensures err { OnErr result (Extends buf.old buf.new) }
{
    let mut place = None;
    'records: while let Some(next) = next_of(heads, records, child, place) {
        let Some(link) = edge_at(records, next) else {
            return Ok(());
        };
        push_given(buf, &link, given)?;
        place = Some(next);
    }
    Ok(())
}

// Puts the link's edge behind those of `buf`, where it has the label that may be given.
fn push_given(buf: &mut EdgeBuf, link: &Link, given: Option<Label>) -> Result<(), NoMemory>
    ensures ok { OnOk result (buf.new ≡ buf.old ++ edges_of (with_label given (link.now ∷ []))) }
    ensures err { OnErr result (Extends buf.old buf.new) }
{
    if has_label(link, given) {
        buf.push(link.edge())?;
    }
    Ok(())
}

// Whether the link has the label, where one is given.
fn has_label(link: &Link, given: Option<Label>) -> bool
    ensures { result ≡ spec.has_label given link.now }
{
    match given {
        Some(label) => link.label == label,
        None => true,
    }
}
