ghost use Rattle.std.specs.Prelude.{◌↔◌, map, IsTrue};
ghost use Rattle.lorel_trees.specs.Trees.{cond_tree, conds_from, select_tree};
ghost use Rattle.live_views.specs.Concerns.{HasComparison, SomeHasComparison, ComparesValues};

use lorel_trees::{Cond, Select};

// Whether the select compares values by an operator.
pub(crate) fn compares_values(select: &Select) -> bool
    ensures { IsTrue result ↔ ComparesValues (select_tree select.now) }
{
    match &select.tail.cond {
        Some(cond) => has_comparison(cond),
        None => false,
    }
}

#[cycle(compares)]
fn has_comparison(cond: &Cond) -> bool
    ensures { IsTrue result ↔ HasComparison (cond_tree cond.now) }
{
    match cond {
        Cond::Or(members) => some_has_comparison(members.as_slice()),
        Cond::And(members) => some_has_comparison(members.as_slice()),
        Cond::Not(body) => has_comparison(body),
        Cond::Exists { body, .. } => has_comparison(body),
        Cond::ForAll { body, .. } => has_comparison(body),
        Cond::Compare { .. } => true,
        Cond::Same { .. } => false,
    }
}

#[cycle(compares)]
fn some_has_comparison(conds: &[Cond]) -> bool
    ensures { IsTrue result ↔ SomeHasComparison (conds_from (map cond_tree conds.now)) }
{
    'conds: for cond in conds {
        if has_comparison(cond) {
            return true;
        }
    }
    false
}
