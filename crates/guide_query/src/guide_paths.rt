ghost use Rattle.std.specs.Prelude.{◌≡◌, List, IfOk};
ghost use Rattle.dataguide.specs.Guides.{StandsFor};
ghost use Rattle.guide_query.specs.Types.{Edge as TheEdge};
ghost use Rattle.guide_query.specs.GuideReaches.{TellsOf, TellsReached};
ghost use Rattle.guide_query.specs.inside.GuideSets.{IsStart};

use crate::guide_sets::{GuideSets, set_of_one};
use dataguide::{Guide, Node};
use index_traits::Paths;
use lore_base::{Names, NoMemory, Oid, OidBuf, Path};
use oem_labels::LabelTable;
use set_walk::{count_by_sets, select_by_sets};
use std::alloc::Global;
use std::marker::Model;

/// Paths from named objects, told by the guide: it is walked in place of the graph, so that no
/// edge is read (Goldman and Widom 1997, path queries). Contracts see the guide and the label
/// texts.
#[derive(Drop)]
pub struct GuidePaths<'a> {
    guide: &'a Guide,
    labels: &'a LabelTable,
}

impl<'a> Model for GuidePaths<'a> {
    ghost use Rattle.guide_query.specs.GuideReaches.{GuideOver};

    ghost Value = { GuideOver };

    ghost view = { λ paths. record { guide = paths.guide.now; labels = paths.labels.now } };
}

impl<'a> GuidePaths<'a> {
    /// The paths that this guide tells, which is that of the names. What a path reaches from a
    /// named object is then what it reaches along the edges of the graph that the guide stands
    /// for. Takes no memory.
    pub fn new(guide: &'a Guide, names: &'a Names, labels: &'a LabelTable) -> GuidePaths<'a>
        ensures guide { result.guide ≡ guide.now }
        ensures labels { result.labels ≡ labels.now }
        ensures tells { (edges : List TheEdge) → StandsFor guide.now names.now edges
            → TellsOf result names.now edges }
    {
        let _ = names;
        GuidePaths { guide, labels }
    }

    // The node from which the guide is walked for paths from the named object: that of its set
    // alone, if there is one.
    fn start_at(&self, alloc: Global, named: Oid) -> Result<Option<Node>, NoMemory>
        ensures { IfOk result (IsStart self.now named) }
    {
        let alone = set_of_one(alloc, named)?;
        Ok(self.guide.find_set(&alone))
    }
}

impl<'a> Paths for GuidePaths<'a> {
    ghost reaches = { TellsReached };

    fn select(
        &self,
        alloc: Global,
        path: &Path,
        named: Oid,
        buf: &mut OidBuf,
    ) -> Result<(), NoMemory> {
        let sets = GuideSets { guide: self.guide };
        let start = self.start_at(alloc, named)?;
        select_by_sets(alloc, &sets, self.labels, path, start, buf)
    }

    fn count(&self, alloc: Global, path: &Path, named: Oid) -> Result<usize, NoMemory> {
        let sets = GuideSets { guide: self.guide };
        let start = self.start_at(alloc, named)?;
        count_by_sets(alloc, &sets, self.labels, path, start)
    }
}
