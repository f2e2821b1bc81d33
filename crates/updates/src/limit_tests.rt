ghost use Rattle.std.specs.Prelude.{◌+◌, ◌*◌, ◌-◌, ◌^◌, ◌<◌, ◌↔◌, length, IsTrue};
ghost use Rattle.updates.specs.Types.{LABELS as THE_LABELS};

use lore_base::limits::LABELS;
use oem_labels::LabelTable;

/// Whether the table has more labels than it may.
pub(crate) fn has_too_many(labels: &LabelTable) -> bool
    ensures { IsTrue result ↔ (THE_LABELS < length labels.now) }
{
    labels.len() as usize > LABELS
}

/// Whether there are more than the limit once each of so many copies brings so many.
pub(crate) fn outgrow(limit: u64, before: u64, copies: u64, each: u64) -> bool
    requires { limit < 2 ^ 64 - 1 }
    ensures { IsTrue result ↔ (limit < before + copies * each) }
{
    before.saturating_add(copies.saturating_mul(each)) > limit
}
