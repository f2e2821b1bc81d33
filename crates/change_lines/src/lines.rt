ghost use Rattle.std.specs.Prelude.{◌≡◌, ◌≢◌, ◌<◌, ◌≤◌, ◌⊎◌, [], ◌∷◌, ◌++◌, List, ℕ, length, map};
ghost use Rattle.std.specs.Prelude.{codes, decimal, AllPairs, slice_get, Some, IsTrue, IfOk, OnOk};
ghost use Rattle.std.specs.Cmp.{IsTotalOrder};
ghost use Rattle.std.specs.declared.cmp.Ordering.{Ordering as TheOrdering};
ghost use Rattle.std.specs.declared.cmp.Ordering.TheVariants as orderings;
ghost use Rattle.lore_base.specs.Walks.{edge_cmp};
ghost use Rattle.lore_base.specs.Printed.{label_text};
ghost use Rattle.lore_base.specs.Deltas.{IsDelta};
ghost use Rattle.dump_text.specs.Dumps.{line_of, oid_text, name_line, object_line, edge_line};
ghost use Rattle.dump_text.specs.Dumps.{spelled_edge, table_text};
ghost use Rattle.doem_history.specs.Facts.{name_order, object_order};
ghost use Rattle.doem_history.specs.inside.FactLaws.{name_total, object_total, edge_total};
ghost use Rattle.doem_history.specs.Moments.{Moment, graph_of};
ghost use Rattle.change_lines.specs.Changes.{Change, change_line, AreChangeLines};
ghost use Rattle.change_lines.specs.inside.Merged.{AreMerged};

use itoa::Buffer;
use lore_base::{Delta, Edge, Label, Names, NoMemory, OemText, Oid, Out, TextList, TryCopy, Value};
use oem_atom::{print_label, print_value};
use oem_labels::LabelTable;
use std::alloc::Global;
use std::cmp::Ordering;

// A name with its object.
type NameFact = (OemText, Oid);

// An object with its value.
type ObjectFact = (Oid, Value);

// A fact whose coming or going has a line.
trait Told: Sized {
    ghost order: { Self → Self → TheOrdering };

    ghost line: { List (List ℕ) → Self → List ℕ };

    // How the two stand in the order of a dump.
    fn compare(&self, other: &Self) -> Ordering
        ensures { result ≡ order self.now other.now };

    // Puts the line that a dump has for it.
    fn put(&self, labels: &LabelTable, out: &mut OemText) -> Result<(), NoMemory>
        ensures { OnOk result (out.new ≡ out.old ++ line labels.now self.now) };

    ghost total: { IsTotalOrder order };
}

/// The lines of what leads from one moment to another: names, objects and edges in the order of a
/// dump, what goes before what comes of one name or object, and how many lines these are.
pub fn change_lines(alloc: Global, delta: &Delta, labels: &LabelTable) -> Result<TextList, NoMemory>
    requires { (before : Moment) × (after : Moment)
        × IsDelta (graph_of before) (graph_of after) delta.now }
    ensures { (before after : Moment) → IsDelta (graph_of before) (graph_of after) delta.now
        → IfOk result (AreChangeLines labels.now before after) }
{
    let mut lines = TextList::new(alloc);
    let gone = name_facts(alloc, &delta.names_gone)?;
    let come = name_facts(alloc, &delta.names_come)?;
    put_changes(alloc, gone.as_slice(), come.as_slice(), labels, &mut lines)?;
    let (gone, come) = (delta.objects_gone.as_slice(), delta.objects_come.as_slice());
    put_changes(alloc, gone, come, labels, &mut lines)?;
    let (gone, come) = (delta.edges_gone.as_slice(), delta.edges_come.as_slice());
    put_changes(alloc, gone, come, labels, &mut lines)?;
    lines.push(count_line(alloc, lines.len())?)?;
    Ok(lines)
}

// The line that tells how many there are.
fn count_line(alloc: Global, count: usize) -> Result<OemText, NoMemory>
    ensures { IfOk result (λ line. line ≡ line_of (codes "changes") (decimal count)) }
{
    let mut line = OemText::from_bytes(alloc, b"changes ")?;
    line.put(Buffer::new().format(count).as_bytes())?;
    Ok(line)
}

// The names with their objects, in the names' order.
fn name_facts(alloc: Global, names: &Names) -> Result<Vec<NameFact>, NoMemory>
    ensures { IfOk result (λ facts. facts.items ≡ names.now) }
{
    let count = names.len();
    let texts = names.texts()?;
    let oids = names.objects()?;
    let mut facts = Vec::with_capacity(alloc, count)?;
    let mut place = 0;
    'texts: for text in texts.as_slice() {
        let copy = text.try_copy(alloc)?;
        facts.push((copy, oids.as_slice()[place]))?;
        place += 1;
    }
    Ok(facts)
}

// Puts a line for each fact that goes or comes, where both lists ascend: in their order, and what
// goes before what comes.
fn put_changes<F: Told>(
    alloc: Global,
    gone: &[F],
    come: &[F],
    labels: &LabelTable,
    lines: &mut TextList,
) -> Result<(), NoMemory>
    requires gone { AllPairs (λ a b. F.order a b ≡ orderings.Less) gone.now }
    requires come { AllPairs (λ a b. F.order a b ≡ orderings.Less) come.now }
    ensures { OnOk result ((changes : List (Change F)) × AreMerged F.order gone.now come.now changes
        × (lines.new ≡ lines.old ++ map (change_line (F.line labels.now)) changes)) }
{
    let (mut gone_before, mut come_before) = (0, 0);
    'changes: while gone_before < gone.len() || come_before < come.len() {
        if goes_next(gone, gone_before, come, come_before) {
            put_change(alloc, b"- ", &gone[gone_before], labels, lines)?;
            gone_before += 1;
        } else {
            put_change(alloc, b"+ ", &come[come_before], labels, lines)?;
            come_before += 1;
        }
    }
    Ok(())
}

// Whether the next line is that of a fact that goes, where so many of each list have theirs.
fn goes_next<F: Told>(gone: &[F], gone_before: usize, come: &[F], come_before: usize) -> bool
    requires gone { gone_before ≤ length gone.now }
    requires come { come_before ≤ length come.now }
    requires some { (gone_before < length gone.now) ⊎ (come_before < length come.now) }
    ensures goes { IsTrue result → (gone_before < length gone.now) × ((fact : F)
        → slice_get come.now come_before ≡ Some fact → (other : F)
        → slice_get gone.now gone_before ≡ Some other
        → F.order other fact ≢ orderings.Greater) }
    ensures comes { ¬ IsTrue result → (come_before < length come.now) × ((fact : F)
        → slice_get come.now come_before ≡ Some fact → (other : F)
        → slice_get gone.now gone_before ≡ Some other
        → F.order other fact ≡ orderings.Greater) }
{
    let (Some(goes), Some(comes)) = (gone.get(gone_before), come.get(come_before)) else {
        return gone_before < gone.len();
    };
    !matches!(goes.compare(comes), Ordering::Greater)
}

// Puts the line of a fact, behind a mark.
fn put_change<F: Told>(
    alloc: Global,
    mark: &[u8],
    fact: &F,
    labels: &LabelTable,
    lines: &mut TextList,
) -> Result<(), NoMemory>
    ensures { let line = mark.now ++ F.line labels.now fact.now in
        OnOk result (lines.new ≡ lines.old ++ line ∷ []) }
{
    let mut text = OemText::from_bytes(alloc, mark)?;
    fact.put(labels, &mut text)?;
    lines.push(text)
}

// Puts the number of an object behind `&`.
fn put_oid(oid: Oid, out: &mut OemText) -> Result<(), NoMemory>
    ensures { OnOk result (out.new ≡ out.old ++ oid_text oid) }
{
    out.put(b"&")?;
    out.put(Buffer::new().format(oid.0).as_bytes())
}

// Puts a label; one that isn't in the table has the empty text.
fn put_label(label: Label, labels: &LabelTable, out: &mut OemText) -> Result<(), NoMemory>
    ensures { OnOk result (out.new ≡ out.old ++ label_text (table_text labels.now label)) }
{
    match labels.text(label) {
        Some(text) => print_label(text.as_bytes(), out),
        None => print_label(b"", out),
    }
}

impl Told for NameFact {
    ghost order = { name_order };

    ghost line = { λ labels name. name_line name };

    ghost total = { name_total };

    fn compare(&self, other: &Self) -> Ordering {
        self.0.cmp(&other.0)
    }

    fn put(&self, _labels: &LabelTable, out: &mut OemText) -> Result<(), NoMemory> {
        out.put(b"name ")?;
        out.put(self.0.as_bytes())?;
        out.put(b" ")?;
        put_oid(self.1, out)
    }
}

impl Told for ObjectFact {
    ghost order = { object_order };

    ghost line = { λ labels object. object_line object };

    ghost total = { object_total };

    fn compare(&self, other: &Self) -> Ordering {
        self.0.0.cmp(&other.0.0)
    }

    fn put(&self, _labels: &LabelTable, out: &mut OemText) -> Result<(), NoMemory> {
        out.put(b"object ")?;
        put_oid(self.0, out)?;
        out.put(b" ")?;
        print_value(&self.1, out)
    }
}

impl Told for Edge {
    ghost order = { edge_cmp };

    ghost line = { λ labels edge. edge_line (spelled_edge labels edge) };

    ghost total = { edge_total };

    fn compare(&self, other: &Self) -> Ordering {
        self.cmp(other)
    }

    fn put(&self, labels: &LabelTable, out: &mut OemText) -> Result<(), NoMemory> {
        out.put(b"edge ")?;
        put_oid(self.parent, out)?;
        out.put(b" ")?;
        put_label(self.label, labels, out)?;
        out.put(b" ")?;
        put_oid(self.child, out)
    }
}
