ghost use Rattle.std.specs.Prelude.{◌≡◌, ◌↔◌, pos, IsTrue, IfOk, OnOk, IfErr, IfSome, IfNone};
ghost use Rattle.dump_text.specs.Dumps.{IsVersion};
ghost use Rattle.dump_text.specs.Restores.{IsBad, IsRestored};
ghost use Rattle.lore_base.specs.Names.{IsNameTable};
ghost use Rattle.dump_text.specs.Rules.{KeepsRules, AreFew, numbered_edges};
ghost use Rattle.dump_text.specs.inside.RuleParts.{IsHead, KeepsHead, KeepsLists, KeepsOrder};
ghost use Rattle.dump_text.specs.inside.RuleParts.{KeepsEdges, IsGraph, AreChanges};
ghost use Rattle.dump_text.specs.declared.faults.DumpFault.TheVariants as dump;

use crate::edges::{label_table, numbered_edges};
use crate::faults::DumpFault;
use crate::reach::are_reached;
use crate::rules::{
    are_ascending_edges, are_ascending_names, are_few, are_formed, are_linked, are_named,
    are_numbered, have_no_flags, next_of, nodes_of,
};
use lore_base::{Changes, Edge, EdgeBuf, Names, NoMemory, OemText, Oid, Restored, TryCopy};
use lorel_trees::DumpTree;
use std::alloc::Global;

/// The database that a dump text stands for, as changes of the new one. `Bad` exactly where the
/// text stands for no valid database, the number of its target sets left aside: where it breaks one
/// of the rules of dump texts.
///
/// A text that was parsed keeps the forms of labels, names and values; they are tested all the
/// same.
pub fn read_dump(alloc: Global, tree: &DumpTree) -> Result<Restored, DumpFault>
    ensures restored { IfOk result (IsRestored tree.now) }
    ensures kept { OnOk result (KeepsRules tree.now) }
    ensures bad { IfErr result (λ fault. fault ≡ dump.Bad → IsBad tree.now) }
    ensures rules { IfErr result (λ fault. fault ≡ dump.Bad → ¬ KeepsRules tree.now) }
{
    let Some((next, nodes)) = head_of(tree) else {
        return Err(DumpFault::Bad);
    };
    if !are_kept(tree, next) {
        return Err(DumpFault::Bad);
    }
    let Some(added) = edges_of(alloc, tree)? else {
        return Err(DumpFault::Bad);
    };
    let changes = changes_of(alloc, tree, added)?;
    Ok(Restored {
        changes,
        next,
        nodes,
        mode: tree.mode,
    })
}

// The next number and the node limit; None exactly where one of them isn't in its range, or the
// version isn't read.
fn head_of(tree: &DumpTree) -> Option<(u64, u32)>
    ensures some { IfSome result (λ head. IsHead tree.now head.0 head.1) }
    ensures none { IfNone result (¬ KeepsHead tree.now) }
{
    if !is_version(tree) {
        return None;
    }
    let next = next_of(tree)?;
    let nodes = nodes_of(tree)?;
    Some((next, nodes))
}

// Whether the version is 2, or 1 and no object has a flag.
fn is_version(tree: &DumpTree) -> bool
    ensures { IsTrue result ↔ IsVersion tree.now }
{
    match tree.version {
        2 => true,
        1 => have_no_flags(tree.objects.as_slice()),
        _ => false,
    }
}

// Whether limits and forms are kept, and the order of names and objects.
fn are_kept(tree: &DumpTree, next: u64) -> bool
    requires { tree.now.next ≡ pos next }
    ensures { IsTrue result ↔ KeepsLists tree.now }
{
    are_few(tree) && are_formed(tree) && are_ordered(tree, next)
}

// Whether names and objects ascend, objects have numbers below the next one, and names lead to
// objects.
fn are_ordered(tree: &DumpTree, next: u64) -> bool
    requires { tree.now.next ≡ pos next }
    ensures { IsTrue result ↔ KeepsOrder tree.now }
{
    let names = tree.names.as_slice();
    let objects = tree.objects.as_slice();
    if !are_ascending_names(names) {
        return false;
    }
    if !are_numbered(objects, next) {
        return false;
    }
    are_named(objects, names)
}

// The edges with the numbers of their labels; None exactly where a label stands twice or isn't
// there, edges don't ascend or don't join objects, or some object isn't reached over them.
fn edges_of(alloc: Global, tree: &DumpTree) -> Result<Option<EdgeBuf>, NoMemory>
    requires few { AreFew tree.now }
    requires ordered { KeepsOrder tree.now }
    ensures edges { IfOk result (λ found. IfSome found (λ edges. edges ≡ numbered_edges tree.now)) }
    ensures some { IfOk result (λ found. IfSome found (λ _. KeepsEdges tree.now)) }
    ensures none { IfOk result (λ found. IfNone found (¬ KeepsEdges tree.now)) }
{
    let Some(labels) = label_table(alloc, tree.labels.as_slice())? else {
        return Ok(None);
    };
    let Some(edges) = numbered_edges(alloc, &labels, tree.edges.as_slice())? else {
        return Ok(None);
    };
    if are_graph(alloc, tree, edges.as_slice())? {
        Ok(Some(edges))
    } else {
        Ok(None)
    }
}

// Whether the edges ascend and join objects, and each object is reached over them.
fn are_graph(alloc: Global, tree: &DumpTree, edges: &[Edge]) -> Result<bool, NoMemory>
    requires ordered { KeepsOrder tree.now }
    requires edges { edges.now ≡ numbered_edges tree.now }
    ensures { IfOk result (λ good. IsTrue good ↔ IsGraph tree.now) }
{
    let names = tree.names.as_slice();
    let objects = tree.objects.as_slice();
    if !are_ascending_edges(edges) {
        return Ok(false);
    }
    if !are_linked(objects, edges) {
        return Ok(false);
    }
    are_reached(alloc, names, objects, edges)
}

// The whole database as changes of the new one.
fn changes_of(alloc: Global, tree: &DumpTree, added: EdgeBuf) -> Result<Changes, NoMemory>
    requires { IsNameTable tree.now.names }
    ensures { IfOk result (λ changes. AreChanges tree.now added changes) }
{
    let made = tree.objects.try_copy(alloc)?;
    let named = names_of(alloc, tree.names.as_slice())?;
    let labels = tree.labels.try_copy(alloc)?;
    let mut changes = Changes::new(alloc);
    changes.made = made;
    changes.added = added;
    changes.named = named;
    changes.labels = labels;
    Ok(changes)
}

// The table of ascending names.
fn names_of(alloc: Global, entries: &[(OemText, Oid)]) -> Result<Names, NoMemory>
    requires { IsNameTable entries.now }
    ensures { IfOk result (λ names. names ≡ entries.now) }
{
    let mut names = Names::new(alloc);
    'entries: for (name, oid) in entries {
        names.put(name.try_copy(alloc)?, *oid)?;
    }
    Ok(names)
}
