ghost use Rattle.std.specs.Prelude.{◌↔◌, ◌++◌, IsTrue, IfOk};
ghost use Rattle.lore_base.specs.Databases.{AreAscendingObjects};
ghost use Rattle.live_views.specs.Types.{Edge as TheEdge};
ghost use Rattle.live_views.specs.Concerns.{IsTurned};
ghost use Rattle.live_views.specs.inside.Touched.{TellsTouched};

use crate::labels::label_texts;
use crate::shared::share_object;
use lore_base::{Delta, NoMemory, OemText, TextList};
use oem_labels::LabelTable;
use std::alloc::Global;

// What a change touches, noted once for all views: what goes and comes, the texts of the labels of
// edges that do, whether one does, and whether an object gets another value.
#[derive(Drop)]
pub(crate) struct Touched<'a> {
    pub delta: &'a Delta,
    pub texts: Vec<&'a OemText>,
    pub edges: bool,
    pub values: bool,
}

impl<'a> Touched<'a> {
    // What is touched by the change with this delta and these new labels.
    pub(crate) fn by(
        alloc: Global,
        delta: &'a Delta,
        labels: &'a LabelTable,
        new_labels: &'a TextList,
    ) -> Result<Touched<'a>, NoMemory>
        requires gone { AreAscendingObjects delta.now.objects_gone }
        requires come { AreAscendingObjects delta.now.objects_come }
        ensures { IfOk result (TellsTouched (labels.now ++ new_labels.now) delta.now) }
    {
        Ok(Touched {
            delta,
            texts: label_texts(alloc, delta, labels, new_labels)?,
            edges: turns_edges(delta),
            values: share_object(delta.objects_gone.as_slice(), delta.objects_come.as_slice()),
        })
    }
}

// Whether an edge goes or comes.
fn turns_edges(delta: &Delta) -> bool
    ensures { IsTrue result ↔ ((edge : TheEdge) × IsTurned delta.now edge) }
{
    !delta.edges_gone.is_empty() || !delta.edges_come.is_empty()
}
