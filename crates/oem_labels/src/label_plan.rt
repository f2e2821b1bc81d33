use crate::label_table::LabelTable;
use std::marker::Model;

/// The label texts that come with a change, worked out by `LabelTable::plan_new` and put in place
/// by `LabelTable::commit_new`. Where there is one it holds the whole table that is then.
#[derive(Drop)]
pub struct LabelPlan {
    pub(crate) whole: Option<LabelTable>,
    pub(crate) known: usize,
}

impl Model for LabelPlan {
    ghost use Rattle.std.specs.Prelude.{◌<◌, length, IfSome};
    ghost use Rattle.oem_labels.specs.Labels.{PlannedLabels};
    ghost use Rattle.oem_labels.specs.inside.Plans.{planned};

    ghost Value = { PlannedLabels };

    ghost view = { λ p. planned p.whole p.known };

    ghost invariant = { λ p. IfSome p.whole (λ texts. p.known < length texts) };
}
