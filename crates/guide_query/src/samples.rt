ghost use Rattle.std.specs.Prelude.{◌≡◌, ◌≢◌, ℕ, List, ◌++◌, map, codes, decimal, AllPairs};
ghost use Rattle.std.specs.Prelude.{IfOk, OnOk};
ghost use Rattle.lore_base.specs.Printed.{printed};
ghost use Rattle.guide_query.specs.Types.{Oid as TheOid, Edge as TheEdge};
ghost use Rattle.guide_query.specs.GuideLines.{IsLabelledGuide};
ghost use Rattle.guide_query.specs.PathLines.{AreSampleLines};
ghost use Rattle.lore_base.specs.Printed.{value_of, object_text};

use crate::label_writer::put;
use crate::path_nodes::{node_of, set_at};
use dataguide::Guide;
use index_traits::ValueOf;
use itoa::Buffer;
use lore_base::{NoMemory, OemText, Oid, Out, TextList, Value};
use lorel_trees::LabelPath;
use oem_atom::print_value;
use oem_labels::LabelTable;
use std::alloc::Global;

/// The lines that show the first objects of a label path's target set, at most `count`, without
/// line ends: for each `&`, its number, a space and its value; then `sample`, how many these are,
/// `of` and the size of the set.
///
/// A path that leads nowhere has size 0. The guide is that of the database, its labels are distinct,
/// and the values are those of its objects. No edge of the graph is read.
pub fn sample_lines<V: ValueOf>(
    guide: &Guide,
    values: &V,
    path: &LabelPath,
    count: u32,
    labels: &LabelTable,
) -> Result<TextList, NoMemory>
    ensures { IfOk result (λ lines. (names : List (List ℕ × TheOid)) (edges : List TheEdge)
        → IsLabelledGuide guide.now labels.now names edges → AllPairs (λ a b. a ≢ b) labels.now
        → AreSampleLines names (V.objects values.now) edges labels.now
        path.now.start path.now.labels count lines) }
{
    let alloc = guide.allocator();
    let set = set_at(guide, node_of(guide, labels, path));
    let shown = set.len().min(count as usize);
    let mut lines = object_lines(alloc, values, &set[..shown])?;
    lines.push(sample_line(alloc, shown, set.len())?)?;
    Ok(lines)
}

// Puts a value behind the text.
fn put_value(text: &mut OemText, value: &Value) -> Result<(), NoMemory>
    ensures { OnOk result (text.new ≡ text.old ++ printed value.now) }
{
    print_value(value, text)
}

// Puts the value of an object behind the text. One that isn't live is printed as a complex one.
fn put_value_of<V: ValueOf>(text: &mut OemText, values: &V, oid: Oid) -> Result<(), NoMemory>
    ensures { OnOk result
        (text.new ≡ text.old ++ printed (value_of (V.objects values.now) oid)) }
{
    put_value(text, values.value_of(oid).unwrap_or(&Value::Complex))
}

// The line of an object.
fn object_line<V: ValueOf>(alloc: Global, values: &V, oid: Oid) -> Result<OemText, NoMemory>
    ensures { IfOk result (λ line. line ≡ object_text (V.objects values.now) oid) }
{
    let mut line = OemText::from_bytes(alloc, b"&")?;
    line.put(Buffer::new().format(oid.0).as_bytes())?;
    line.put(b" ")?;
    put_value_of(&mut line, values, oid)?;
    Ok(line)
}

// A line for each object.
fn object_lines<V: ValueOf>(alloc: Global, values: &V, oids: &[Oid]) -> Result<TextList, NoMemory>
    ensures { IfOk result (λ lines. lines ≡ map (object_text (V.objects values.now)) oids.now) }
{
    let mut lines = TextList::with_capacity(alloc, oids.len().saturating_add(1))?;
    'oids: for oid in oids {
        lines.push(object_line(alloc, values, *oid)?)?;
    }
    Ok(lines)
}

// The line with the numbers of objects that are shown and that there are.
fn sample_line(alloc: Global, shown: usize, size: usize) -> Result<OemText, NoMemory>
    ensures { IfOk result (λ line.
        line ≡ codes "sample " ++ decimal shown ++ codes " of " ++ decimal size) }
{
    let mut line = Vec::from_slice(alloc, b"sample ")?;
    put(&mut line, Buffer::new().format(shown).as_bytes())?;
    put(&mut line, b" of ")?;
    put(&mut line, Buffer::new().format(size).as_bytes())?;
    OemText::from_vec(alloc, line)
}
