ghost use Rattle.std.specs.Prelude.{◌≡◌, IfOk};
ghost use Rattle.path_expr.specs.Types.{Leaf as TheLeaf};

use lore_base::{NoMemory, Pattern, TryCopy};
use std::alloc::Global;

/// What an automaton reads in one of its states.
#[derive(Debug, Drop)]
pub enum Leaf {
    /// A label that fits the pattern.
    One(Pattern),
    /// Any label.
    AnyLabel,
}

impl TryCopy for Leaf {
    ghost Seen = { TheLeaf };

    ghost seen = { λ leaf. leaf };

    fn try_copy(&self, alloc: Global) -> Result<Self, NoMemory> {
        match self {
            Leaf::One(pattern) => Ok(Leaf::One(pattern.try_copy(alloc)?)),
            Leaf::AnyLabel => Ok(Leaf::AnyLabel),
        }
    }
}

// A copy of each leaf, in order.
pub(crate) fn copy_leaves(alloc: Global, leaves: &[Leaf]) -> Result<Vec<Leaf>, NoMemory>
    ensures { IfOk result (λ copy. copy.items ≡ leaves.now) }
{
    let mut copy = Vec::with_capacity(alloc, leaves.len())?;
    'leaves: for leaf in leaves {
        copy.push(leaf.try_copy(alloc)?)?;
    }
    Ok(copy)
}
