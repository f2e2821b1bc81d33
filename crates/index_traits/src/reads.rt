ghost use Rattle.std.specs.Prelude.{◌≡◌, ◌≢◌, ◌+◌, ◌-◌, ◌≤◌, List, ◌++◌, length, Some, Contains};
ghost use Rattle.std.specs.Prelude.{IfOk, IfSome, IfNone, OnOk, OnErr};
ghost use Rattle.std.specs.Option.{option_copied};
ghost use Rattle.index_traits.specs.Types.{Oid as TheOid, Edge as TheEdge, Value as TheValue, LEAVES};
ghost use Rattle.index_traits.specs.Types.{ValueEntry, Complex};
ghost use Rattle.index_traits.specs.Entries.{IsProbed, IsFound};
ghost use Rattle.index_traits.specs.Counts.{IsCount};
ghost use Rattle.lore_base.specs.Lists.{Extends, ExtendsBy};
ghost use Rattle.lore_base.specs.Walks.{out_of, ListsEntering};
ghost use Rattle.lore_base.specs.Paths.{PathTree, path_tree, leaves};
ghost use Rattle.lore_base.specs.TargetSets.{ListsInOrder};
ghost use Rattle.lore_base.specs.Databases.{IsLive, AreAscendingEdges};

use lore_base::{EdgeBuf, Label, NoMemory, Oid, OidBuf, Op, Path, Steps, Value};
use std::alloc::Global;
use std::sync::ledger::Ledger;

/// Edges by their parents.
pub trait Adjacent {
    /// The edges of the graph.
    ghost edges: { Self → List TheEdge };

    /// Appends the edges that leave the object to `buf`, ascending by label and child. Counts one
    /// step, and one more for each edge. A number that isn't live has no edges. Where memory is
    /// refused, `buf` holds what was there and perhaps more behind it, and no step is counted.
    fn out_edges<L: Ledger>(
        &self,
        oid: Oid,
        buf: &mut EdgeBuf,
        steps: &mut Steps<L>,
    ) -> Result<(), NoMemory>
        ensures edges { OnOk result (buf.new ≡ buf.old ++ out_of oid (edges self.now)) }
        ensures ascending { OnOk result (AreAscendingEdges (out_of oid (edges self.now))) }
        ensures steps { OnOk result
            (steps.new ≡ steps.old + 1 + length (out_of oid (edges self.now))) }
        ensures err { OnErr result (Extends buf.old buf.new) }
        ensures unticked { OnErr result (steps.new ≡ steps.old) };
}

/// Edges by their children.
pub trait Links {
    /// The edges of the graph.
    ghost edges: { Self → List TheEdge };

    /// Appends the edges that enter the object to `buf`, with the label where one is given,
    /// ascending by label and parent. Counts one step, and one more for each edge. A number that
    /// isn't live has no edges. Where memory is refused, `buf` holds what was there and perhaps more
    /// behind it, and no step is counted.
    fn parents<L: Ledger>(
        &self,
        oid: Oid,
        label: Option<Label>,
        buf: &mut EdgeBuf,
        steps: &mut Steps<L>,
    ) -> Result<(), NoMemory>
        ensures edges { OnOk result
            (ExtendsBy (ListsEntering (edges self.now) oid label) buf.old buf.new) }
        ensures steps { OnOk result
            (steps.new ≡ steps.old + 1 + (length buf.new - length buf.old)) }
        ensures err { OnErr result (Extends buf.old buf.new) }
        ensures unticked { OnErr result (steps.new ≡ steps.old) };
}

/// The objects that paths reach from the named objects of a database.
pub trait Paths {
    /// Which objects a path reaches from another. From a named object it is what the path reaches
    /// in the database.
    ghost reaches: { Self → PathTree → TheOid → TheOid → Type 0 };

    /// Appends the objects that the path reaches from the named object to `buf`, ascending, each
    /// once. The path has at most 64 leaves. Where memory is refused, `buf` holds what was there and
    /// perhaps more behind it.
    fn select(
        &self,
        alloc: Global,
        path: &Path,
        named: Oid,
        buf: &mut OidBuf,
    ) -> Result<(), NoMemory>
        requires leaves { leaves (path_tree path.now) ≤ LEAVES }
        ensures objects { OnOk result (ExtendsBy (ListsInOrder
            (reaches self.now (path_tree path.now) named)) buf.old buf.new) }
        ensures err { OnErr result (Extends buf.old buf.new) };

    /// How many objects `select` appends. The path has at most 64 leaves.
    fn count(&self, alloc: Global, path: &Path, named: Oid) -> Result<usize, NoMemory>
        requires leaves { leaves (path_tree path.now) ≤ LEAVES }
        ensures { IfOk result (IsCount (reaches self.now (path_tree path.now) named)) }
    {
        let mut oids = OidBuf::new(alloc);
        self.select(alloc, path, named, &mut oids)?;
        Ok(oids.len())
    }
}

/// The values of objects.
pub trait ValueOf {
    /// The live objects with their values.
    ghost objects: { Self → List (TheOid × TheValue) };

    /// The object's value; None exactly where the object isn't live. Takes no memory.
    fn value_of(&self, oid: Oid) -> Option<&Value>
        ensures found { IfSome result (λ value. Contains (objects self.now) (oid, value.now)) }
        ensures none { IfNone result (¬ IsLive (objects self.now) oid) }
        ensures only { (value : TheValue) → Contains (objects self.now) (oid, value)
            → option_copied result ≡ Some value };
}

/// The atomic values of objects, by the labels of the edges that enter them.
pub trait Values {
    /// The entries: a label, the value of an object and that object.
    ghost entries: { Self → List ValueEntry };

    /// Appends the objects to `buf` that have an entry of the label whose value compares so,
    /// ascending, each once. The operator is `=`, `<`, `<=`, `>` or `>=`, and the value is atomic.
    /// Where memory is refused, `buf` holds what was there and perhaps more behind it.
    fn probe(&self, label: Label, op: Op, value: &Value, buf: &mut OidBuf) -> Result<(), NoMemory>
        requires op { IsProbed op }
        requires value { value.now ≢ Complex }
        ensures objects { OnOk result (ExtendsBy (ListsInOrder
            (IsFound (entries self.now) label op value.now)) buf.old buf.new) }
        ensures err { OnErr result (Extends buf.old buf.new) };

    /// How many objects `probe` appends. Takes no memory and lists none.
    fn probe_count(&self, label: Label, op: Op, value: &Value) -> u32
        requires op { IsProbed op }
        requires value { value.now ≢ Complex }
        ensures { (oids : List TheOid) → ListsInOrder
            (IsFound (entries self.now) label op value.now) oids → result ≡ length oids };
}
