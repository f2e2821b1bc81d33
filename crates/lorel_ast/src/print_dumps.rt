ghost use Rattle.std.specs.Prelude.{OnOk, ◌∷◌, codes};
ghost use Rattle.lorel_tokens.specs.declared.token_types.Kind.TheVariants as k;
ghost use Rattle.lorel_trees.specs.Statements.{spell_mode, spell_oid, spell_dump_objects};
ghost use Rattle.lorel_ast.specs.Printing.{print_dump_labels, print_dump_names, print_dump_edge};
ghost use Rattle.lorel_ast.specs.Printing.{print_dump_edges, print_dump};
ghost use Rattle.lorel_ast.specs.inside.Puts.{Puts, print_limits, print_numbers, print_graph};
ghost use Rattle.lorel_ast.specs.inside.Puts.{print_lists};

use crate::print_literals::put_value;
use crate::token_writer::TokenWriter;
use lore_base::{Mode, NoMemory, OemText, Oid, Value};
use lorel_trees::DumpTree;

/// How plans are chosen.
pub(crate) fn put_mode(mode: Mode, out: &mut TokenWriter) -> Result<(), NoMemory>
    ensures { OnOk result (Puts (spell_mode mode) out.old out.new) }
{
    match mode {
        Mode::Auto => out.word(b"auto"),
        Mode::Top => out.word(b"top"),
        Mode::Bottom => out.word(b"bottom"),
        Mode::Guided => out.word(b"guide"),
    }
}

fn put_oid(oid: Oid, out: &mut TokenWriter) -> Result<(), NoMemory>
    ensures { OnOk result (Puts (spell_oid oid) out.old out.new) }
{
    out.local(oid.0)?;
    Ok(())
}

fn put_dump_labels(labels: &[OemText], out: &mut TokenWriter) -> Result<(), NoMemory>
    ensures { OnOk result (Puts (print_dump_labels labels.now) out.old out.new) }
{
    'labels: for label in labels {
        out.word(b"label")?;
        out.label(label.as_bytes())?;
    }
    Ok(())
}

fn put_dump_names(names: &[(OemText, Oid)], out: &mut TokenWriter) -> Result<(), NoMemory>
    ensures { OnOk result (Puts (print_dump_names names.now) out.old out.new) }
{
    'names: for entry in names {
        out.word(b"name")?;
        out.word(entry.0.as_bytes())?;
        put_oid(entry.1, out)?;
    }
    Ok(())
}

fn put_dump_objects(objects: &[(Oid, Value)], out: &mut TokenWriter) -> Result<(), NoMemory>
    ensures { OnOk result (Puts (spell_dump_objects objects.now) out.old out.new) }
{
    'objects: for entry in objects {
        out.word(b"object")?;
        put_oid(entry.0, out)?;
        put_value(&entry.1, out)?;
    }
    Ok(())
}

// The parent, the label and the child of an edge.
fn put_dump_edge(entry: &(Oid, OemText, Oid), out: &mut TokenWriter) -> Result<(), NoMemory>
    ensures { OnOk result (Puts (print_dump_edge entry.now) out.old out.new) }
{
    put_oid(entry.0, out)?;
    out.label(entry.1.as_bytes())?;
    put_oid(entry.2, out)?;
    Ok(())
}

fn put_dump_edges(edges: &[(Oid, OemText, Oid)], out: &mut TokenWriter) -> Result<(), NoMemory>
    ensures { OnOk result (Puts (print_dump_edges edges.now) out.old out.new) }
{
    'edges: for entry in edges {
        out.word(b"edge")?;
        put_dump_edge(entry, out)?;
    }
    Ok(())
}

// A word and the number behind it.
fn put_number(word: &[u8], number: i64, out: &mut TokenWriter) -> Result<(), NoMemory>
    ensures { OnOk result (Puts (λ rest. k.Word word.now ∷ k.Number number ∷ rest)
        out.old out.new) }
{
    out.word(word)?;
    out.number(number)?;
    Ok(())
}

fn put_limits(text: &DumpTree, out: &mut TokenWriter) -> Result<(), NoMemory>
    ensures { OnOk result (Puts (print_limits text.now) out.old out.new) }
{
    put_number(b"next", text.next, out)?;
    put_number(b"nodes", text.nodes, out)?;
    Ok(())
}

fn put_numbers(text: &DumpTree, out: &mut TokenWriter) -> Result<(), NoMemory>
    ensures { OnOk result (Puts (print_numbers text.now) out.old out.new) }
{
    put_number(b"oem", text.version, out)?;
    put_limits(text, out)?;
    Ok(())
}

fn put_plan(mode: Mode, out: &mut TokenWriter) -> Result<(), NoMemory>
    ensures { OnOk result (Puts (λ rest. k.Word (codes "plan") ∷ spell_mode mode rest)
        out.old out.new) }
{
    out.word(b"plan")?;
    put_mode(mode, out)?;
    Ok(())
}

// The objects and edges, and `end`.
fn put_graph(text: &DumpTree, out: &mut TokenWriter) -> Result<(), NoMemory>
    ensures { OnOk result (Puts (print_graph text.now) out.old out.new) }
{
    put_dump_objects(text.objects.as_slice(), out)?;
    put_dump_edges(text.edges.as_slice(), out)?;
    out.word(b"end")?;
    Ok(())
}

// The labels and names, and what is behind them.
fn put_lists(text: &DumpTree, out: &mut TokenWriter) -> Result<(), NoMemory>
    ensures { OnOk result (Puts (print_lists text.now) out.old out.new) }
{
    put_dump_labels(text.labels.as_slice(), out)?;
    put_dump_names(text.names.as_slice(), out)?;
    put_graph(text, out)?;
    Ok(())
}

/// The text of a whole database.
pub(crate) fn put_dump(text: &DumpTree, out: &mut TokenWriter) -> Result<(), NoMemory>
    ensures { OnOk result (Puts (print_dump text.now) out.old out.new) }
{
    put_numbers(text, out)?;
    put_plan(text.mode, out)?;
    put_lists(text, out)?;
    Ok(())
}
