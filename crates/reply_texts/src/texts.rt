ghost use Rattle.std.specs.Prelude.{◌≡◌, ◌≤◌, ◌-◌, [], ◌++◌, drop, codes, decimal};
ghost use Rattle.std.specs.Prelude.{unwrap_or, slice_get};
ghost use Rattle.std.specs.List.{flat_map, join_by};
ghost use Rattle.lore_base.specs.Pieces.{Puts};
ghost use Rattle.lore_base.specs.Printed.{printed, value_of, object_text};
ghost use Rattle.reply_texts.specs.Texts.{step_text, word_text, cell_text, row_line, rows_text};
ghost use Rattle.reply_texts.specs.Texts.{kind_text, given_text, changed_line, plan_line, lines_text};
ghost use Rattle.reply_texts.specs.Texts.{refused_line};
ghost use Rattle.reply_texts.specs.declared.texts.TheConstants.{OID_BYTES};

use index_traits::ValueOf;
use itoa::{Buffer, Integer, write_digits};
use lore_base::{Label, OemText, Oid, Out, Refusal, Value};
use lorel_bound::{AnswerRow, Cell, PlanKind};
use oem_atom::{print_label, print_value};
use oem_labels::LabelTable;

// The bytes of the longest number of an object, with `&` and a space.
const OID_BYTES: usize = 12;

/// Puts the line of a change: how many objects and edges there are now, and nodes of the guide.
pub fn put_changed<O: Out>(
    objects: u32,
    edges: u32,
    nodes: u32,
    out: &mut O,
) -> Result<(), O::Fault>
    ensures { Puts O.is_memory (O.state out.old)
        (changed_line objects edges nodes) (O.state out.new) result }
{
    put_count(b"ok objects ", objects, out)?;
    put_count(b" edges ", edges, out)?;
    put_count(b" nodes ", nodes, out)?;
    out.put(b"\n")
}

/// Puts the line of a plan: its kind, and what was counted for it.
pub fn put_plan<O: Out>(
    kind: PlanKind,
    candidates: Option<u32>,
    found: Option<u32>,
    out: &mut O,
) -> Result<(), O::Fault>
    ensures { Puts O.is_memory (O.state out.old)
        (plan_line kind candidates found) (O.state out.new) result }
{
    out.put(b"plan ")?;
    out.put(text_of(kind).as_bytes())?;
    put_given(candidates, out)?;
    put_given(found, out)?;
    out.put(b"\n")
}

/// The word for a kind of plan.
fn text_of(kind: PlanKind) -> &'static str
    ensures { result.now ≡ kind_text kind }
{
    match kind {
        PlanKind::Top => "top",
        PlanKind::Bottom => "bottom",
        PlanKind::Guided => "guide",
    }
}

/// Puts a space and a number, or `-` where there is none.
fn put_given<O: Out>(number: Option<u32>, out: &mut O) -> Result<(), O::Fault>
    ensures { Puts O.is_memory (O.state out.old) (given_text number) (O.state out.new) result }
{
    match number {
        Some(number) => put_count(b" ", number, out),
        None => out.put(b" -"),
    }
}

/// Puts each line, with its end.
pub fn put_lines<O: Out>(lines: &[OemText], out: &mut O) -> Result<(), O::Fault>
    ensures { Puts O.is_memory (O.state out.old)
        (lines_text lines.now) (O.state out.new) result }
{
    'lines: for line in lines {
        out.put(line.as_bytes())?;
        out.put(b"\n")?;
    }
    Ok(())
}

/// Puts the line of a refusal: its number and its name.
pub fn put_refused<O: Out>(refusal: Refusal, out: &mut O) -> Result<(), O::Fault>
    ensures { Puts O.is_memory (O.state out.old)
        (refused_line refusal) (O.state out.new) result }
{
    put_count(b"refused ", refusal.number(), out)?;
    out.put(b" ")?;
    out.put(refusal.text().as_bytes())?;
    out.put(b"\n")
}

/// Puts a line for each row, and a line with their number. An object that isn't live is printed as
/// a complex one.
pub fn put_rows<V: ValueOf, O: Out>(
    rows: &[AnswerRow],
    labels: &LabelTable,
    values: &V,
    out: &mut O,
) -> Result<(), O::Fault>
    ensures { Puts O.is_memory (O.state out.old)
        (rows_text labels.now (V.objects values.now) rows.now) (O.state out.new) result }
{
    put_row_lines(rows, labels, values, out)?;
    put_count(b"rows ", rows.len(), out)?;
    out.put(b"\n")
}

/// Puts a line for each row.
fn put_row_lines<V: ValueOf, O: Out>(
    rows: &[AnswerRow],
    labels: &LabelTable,
    values: &V,
    out: &mut O,
) -> Result<(), O::Fault>
    ensures { Puts O.is_memory (O.state out.old)
        (flat_map (row_line labels.now (V.objects values.now)) rows.now) (O.state out.new) result }
{
    'rows: for row in rows {
        put_row(row.as_slice(), labels, values, out)?;
    }
    Ok(())
}

/// Puts the line of one row.
fn put_row<V: ValueOf, O: Out>(
    cells: &[Cell],
    labels: &LabelTable,
    values: &V,
    out: &mut O,
) -> Result<(), O::Fault>
    ensures { Puts O.is_memory (O.state out.old)
        (row_line labels.now (V.objects values.now) cells.now) (O.state out.new) result }
{
    put_cells(cells, labels, values, out)?;
    out.put(b"\n")
}

/// Puts the cells of a row, a bar between two.
fn put_cells<V: ValueOf, O: Out>(
    cells: &[Cell],
    labels: &LabelTable,
    values: &V,
    out: &mut O,
) -> Result<(), O::Fault>
    ensures { let cell = cell_text labels.now (V.objects values.now) in
        Puts O.is_memory (O.state out.old)
        (join_by cell (codes " | ") cells.now) (O.state out.new) result }
{
    let Some((first, others)) = cells.split_first() else {
        return Ok(());
    };
    put_cell(first, labels, values, out)?;
    put_other_cells(others, labels, values, out)
}

/// Puts a bar and a cell, for each cell.
fn put_other_cells<V: ValueOf, O: Out>(
    cells: &[Cell],
    labels: &LabelTable,
    values: &V,
    out: &mut O,
) -> Result<(), O::Fault>
    ensures { let cell = cell_text labels.now (V.objects values.now) in
        Puts O.is_memory (O.state out.old)
        (flat_map (λ other. codes " | " ++ cell other) cells.now) (O.state out.new) result }
{
    'cells: for cell in cells {
        out.put(b" | ")?;
        put_cell(cell, labels, values, out)?;
    }
    Ok(())
}

/// Puts what a cell shows.
fn put_cell<V: ValueOf, O: Out>(
    cell: &Cell,
    labels: &LabelTable,
    values: &V,
    out: &mut O,
) -> Result<(), O::Fault>
    ensures { Puts O.is_memory (O.state out.old)
        (cell_text labels.now (V.objects values.now) cell.now) (O.state out.new) result }
{
    match cell {
        Cell::Object(oid) => put_object(*oid, values, out),
        Cell::Path(word) => put_word(word.as_slice(), labels, out),
    }
}

/// Puts the number of an object and its value.
fn put_object<V: ValueOf, O: Out>(oid: Oid, values: &V, out: &mut O) -> Result<(), O::Fault>
    ensures { Puts O.is_memory (O.state out.old)
        (object_text (V.objects values.now) oid) (O.state out.new) result }
{
    put_oid(oid, out)?;
    put_value_of(oid, values, out)
}

/// Puts `&`, the number of an object and a space: in one piece, since most cells have them.
fn put_oid<O: Out>(oid: Oid, out: &mut O) -> Result<(), O::Fault>
    ensures { Puts O.is_memory (O.state out.old)
        (codes "&" ++ decimal oid.0 ++ codes " ") (O.state out.new) result }
{
    let mut bytes = [b' '; OID_BYTES];
    let start = write_oid(oid.0, &mut bytes);
    out.put(&bytes[start..])
}

/// Writes a number that ends before the last byte, and `&` before it. Answers where that is.
fn write_oid(number: u32, bytes: &mut [u8; OID_BYTES]) -> usize
    ensures within { result ≤ OID_BYTES }
    ensures written { drop result bytes.new
        ≡ codes "&" ++ decimal number ++ drop (OID_BYTES - 1) bytes.old }
{
    let digits = write_digits(u64::from(number), bytes, OID_BYTES - 1);
    bytes[digits - 1] = b'&';
    digits - 1
}

/// Puts a word: each label behind a dot, and one dot for the word of no label.
fn put_word<O: Out>(word: &[Label], labels: &LabelTable, out: &mut O) -> Result<(), O::Fault>
    ensures { Puts O.is_memory (O.state out.old)
        (word_text labels.now word.now) (O.state out.new) result }
{
    if word.is_empty() {
        return out.put(b".");
    }
    put_steps(word, labels, out)
}

/// Puts each label behind a dot.
fn put_steps<O: Out>(word: &[Label], labels: &LabelTable, out: &mut O) -> Result<(), O::Fault>
    ensures { Puts O.is_memory (O.state out.old)
        (flat_map (step_text labels.now) word.now) (O.state out.new) result }
{
    'steps: for label in word {
        put_step(*label, labels, out)?;
    }
    Ok(())
}

/// Puts a dot and a label.
fn put_step<O: Out>(label: Label, labels: &LabelTable, out: &mut O) -> Result<(), O::Fault>
    ensures { Puts O.is_memory (O.state out.old)
        (step_text labels.now label) (O.state out.new) result }
{
    out.put(b".")?;
    print_label(text_of_label(label, labels), out)
}

/// The text of a label. One that isn't in the table has the empty text.
fn text_of_label<'a>(label: Label, labels: &'a LabelTable) -> &'a [u8]
    ensures { result.now ≡ unwrap_or (slice_get labels.now label.0) [] }
{
    match labels.text(label) {
        Some(text) => text.as_bytes(),
        None => b"",
    }
}

/// Puts the value of an object. One that isn't live is printed as a complex one.
fn put_value_of<V: ValueOf, O: Out>(oid: Oid, values: &V, out: &mut O) -> Result<(), O::Fault>
    ensures { Puts O.is_memory (O.state out.old)
        (printed (value_of (V.objects values.now) oid)) (O.state out.new) result }
{
    print_value(values.value_of(oid).unwrap_or(&Value::Complex), out)
}

/// Puts some words and the decimal digits of a number behind them.
fn put_count<I: Integer, O: Out>(words: &[u8], number: I, out: &mut O) -> Result<(), O::Fault>
    ensures { Puts O.is_memory (O.state out.old)
        (words.now ++ I.text number) (O.state out.new) result }
{
    out.put(words)?;
    put_number(number, out)
}

/// Puts the decimal digits of a number.
fn put_number<I: Integer, O: Out>(number: I, out: &mut O) -> Result<(), O::Fault>
    ensures { Puts O.is_memory (O.state out.old) (I.text number) (O.state out.new) result }
{
    out.put(Buffer::new().format(number).as_bytes())
}
