ghost use Rattle.std.specs.Prelude.{◌≡◌, ◌<◌, ◌^◌, pos, ◌++◌, length, map};
ghost use Rattle.std.specs.Prelude.{All, IfOk, OnOk};
ghost use Rattle.dump_text.specs.Dumps as spec;
ghost use Rattle.dump_text.specs.Dumps.{spelled_edge, head_lines, ended_lines, printed_dump};

use crate::lines::{
    put_edge_line, put_label_line, put_mode_line, put_name_line, put_number_line, put_object_line,
};
use crate::printed::PrintedDump;
use lore_base::{Edge, EdgeBuf, Label, Mode, Names, NoMemory, OemText, Out};
use oem_graph::{Graph, live_value, oid_at};
use oem_labels::LabelTable;
use std::alloc::Global;

/// The dump of a database as one text, of lines that each have their end: its version, numbers and
/// mode, labels by their numbers, names by bytes, objects by their numbers, edges by parent, label
/// and child, and `end`. Labels that no edge has any more are among them.
///
/// `edges` are all edges of the graph, and `labels` has their labels.
pub fn dump(
    alloc: Global,
    graph: &Graph,
    edges: &EdgeBuf,
    labels: &LabelTable,
    nodes: u32,
    mode: Mode,
) -> Result<PrintedDump, NoMemory>
    requires edges { edges.now ≡ graph.now.graph.edges }
    requires labelled { All (λ edge. edge.label.0 < length labels.now) edges.now }
    ensures { IfOk result (λ dump. dump ≡ printed_dump record {
      labels = labels.now;
      graph = graph.now.graph;
      nodes = nodes;
      mode = mode;
    }) }
{
    let mut dump = PrintedDump::new(alloc);
    put_head(graph.next(), nodes, mode, &mut dump)?;
    put_labels(labels, &mut dump)?;
    put_names(graph.names(), &mut dump)?;
    put_objects(graph, &mut dump)?;
    put_edges(edges.as_slice(), labels, &mut dump)?;
    dump.put(b"end\n")?;
    Ok(dump)
}

// Puts the lines of the version, the next number, the node limit and the plan mode.
fn put_head(next: u64, nodes: u32, mode: Mode, dump: &mut PrintedDump) -> Result<(), NoMemory>
    requires { next < 2 ^ 63 }
    ensures { OnOk result (dump.new
        ≡ dump.old ++ ended_lines (head_lines (pos 2) (pos next) (pos nodes) mode)) }
{
    put_number_line(dump, b"oem", 2)?;
    put_number_line(dump, b"next", next as i64)?;
    put_number_line(dump, b"nodes", i64::from(nodes))?;
    put_mode_line(dump, mode)
}

// The text of the label.
fn text_in(labels: &LabelTable, label: Label) -> &OemText
    requires { label.0 < length labels.now }
    ensures { result.now ≡ spec.table_text labels.now label }
{
    match labels.text(label) {
        Some(text) => text,
        None => unreachable!(),
    }
}

fn put_labels(labels: &LabelTable, dump: &mut PrintedDump) -> Result<(), NoMemory>
    ensures { OnOk result
        (dump.new ≡ dump.old ++ ended_lines (map spec.label_line labels.now)) }
{
    'labels: for place in 0..labels.len() {
        put_label_line(dump, text_in(labels, Label(place)))?;
    }
    Ok(())
}

fn put_names(names: &Names, dump: &mut PrintedDump) -> Result<(), NoMemory>
    ensures { OnOk result (dump.new ≡ dump.old ++ ended_lines (map spec.name_line names.now)) }
{
    let oids = names.objects()?;
    let texts = names.texts()?;
    'names: for (place, name) in texts.as_slice().iter().enumerate() {
        put_name_line(dump, name, oids.as_slice()[place])?;
    }
    Ok(())
}

fn put_objects(graph: &Graph, dump: &mut PrintedDump) -> Result<(), NoMemory>
    ensures { OnOk result (dump.new
        ≡ dump.old ++ ended_lines (map spec.object_line graph.now.graph.objects)) }
{
    'places: for place in 0..graph.objects() {
        let oid = oid_at(graph, place);
        put_object_line(dump, oid, live_value(graph, oid))?;
    }
    Ok(())
}

fn put_edges(edges: &[Edge], labels: &LabelTable, dump: &mut PrintedDump) -> Result<(), NoMemory>
    requires { All (λ edge. edge.label.0 < length labels.now) edges.now }
    ensures { OnOk result (dump.new ≡ dump.old
        ++ ended_lines (map (λ edge. spec.edge_line (spelled_edge labels.now edge)) edges.now)) }
{
    'edges: for edge in edges {
        let label = text_in(labels, edge.label);
        put_edge_line(dump, edge.parent, label, edge.child)?;
    }
    Ok(())
}
