ghost use Rattle.std.specs.Prelude.{◌≡◌, IfOk};
ghost use Rattle.lorel_trees.specs.declared.dump_trees.DumpTree.{DumpTree as TheDumpTree};

use lore_base::{Listing, Mode, NoMemory, ObjectList, OemText, Oid, TextList, TryCopy};
use std::alloc::Global;

/// Names with their objects, in text order.
pub type NamedList = Listing<(OemText, Oid)>;

/// Edges as parent, label and child, in text order.
pub type DumpEdges = Listing<(Oid, OemText, Oid)>;

/// The text of a whole database.
#[derive(Drop)]
pub struct DumpTree {
    pub version: i64,
    pub next: i64,
    pub nodes: i64,
    pub mode: Mode,
    pub labels: TextList,
    pub names: NamedList,
    pub objects: ObjectList,
    pub edges: DumpEdges,
}

impl TryCopy for DumpTree {
    ghost Seen = { TheDumpTree };

    ghost seen = { λ text. text };

    fn try_copy(&self, alloc: Global) -> Result<Self, NoMemory> {
        let labels = self.labels.try_copy(alloc)?;
        let names = self.names.try_copy(alloc)?;
        let objects = self.objects.try_copy(alloc)?;
        let edges = self.edges.try_copy(alloc)?;
        Ok(DumpTree {
            version: self.version,
            next: self.next,
            nodes: self.nodes,
            mode: self.mode,
            labels,
            names,
            objects,
            edges,
        })
    }
}
