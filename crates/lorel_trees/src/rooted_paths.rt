ghost use Rattle.std.specs.Prelude.{◌≡◌, IfOk};
ghost use Rattle.lorel_trees.specs.declared.rooted_paths.LabelPath.{LabelPath as TheLabelPath};
ghost use Rattle.lorel_trees.specs.Trees.{RootedTree, rooted_tree};

use lore_base::{NoMemory, OemText, PathList, TextList, TryCopy};
use std::alloc::Global;

/// A path with its start, a name or a variable.
#[derive(Drop)]
pub struct Rooted {
    pub start: OemText,
    pub parts: PathList,
}

/// A name and the labels that are walked from its object, one after another (Goldman and Widom
/// 1997, label paths).
#[derive(Drop)]
pub struct LabelPath {
    pub start: OemText,
    pub labels: TextList,
}

impl TryCopy for Rooted {
    ghost Seen = { RootedTree };

    ghost seen = { rooted_tree };

    fn try_copy(&self, alloc: Global) -> Result<Self, NoMemory> {
        let start = self.start.try_copy(alloc)?;
        let parts = self.parts.try_copy(alloc)?;
        Ok(Rooted { start, parts })
    }
}

impl TryCopy for LabelPath {
    ghost Seen = { TheLabelPath };

    ghost seen = { λ path. path };

    #[tactic(auto, using(crate::proofs::CopyLaws::copied_same))]
    fn try_copy(&self, alloc: Global) -> Result<Self, NoMemory> {
        let start = self.start.try_copy(alloc)?;
        let labels = self.labels.try_copy(alloc)?;
        Ok(LabelPath { start, labels })
    }
}
