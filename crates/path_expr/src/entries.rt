ghost use Rattle.std.specs.Prelude.{◌≡◌, ◌+◌, ◌≤◌};
ghost use Rattle.lore_base.specs.Paths.{path_tree, path_trees, trees_of, leaves, leaves_of};
ghost use Rattle.path_expr.specs.Machines.{IsIn, UpToEnd};
ghost use Rattle.path_expr.specs.inside.Compiled.{Begins, BeginsInTurn, BeginsSome, IsSet};

use crate::last_parts::last_part;
use crate::state_sets::States;
use lore_base::{Path, PathList};

// Where a path begins, and the first place behind its leaves.
#[derive(Clone, Copy)]
pub(crate) struct Beginning {
    pub(crate) states: States,
    pub(crate) next: u8,
}

// The states in which whoever reads the path, and then what begins in `then`, may begin. The leaves
// of the path stand from `base` on, the last one first.
#[cycle(entries)]
pub(crate) fn entry(path: &Path, base: u8, then: States) -> Beginning
    requires room { base + leaves (path_tree path.now) ≤ 64 }
    requires within { UpToEnd then }
    ensures within { UpToEnd result.states }
    ensures states { IsSet result.states (Begins (path_tree path.now) base (IsIn then)) }
    ensures next { result.next ≡ base + leaves (path_tree path.now) }
{
    match path {
        Path::Step(_) => Beginning {
            states: States::one(base),
            next: base + 1,
        },
        Path::Any => Beginning {
            states: States::one(base).join(then),
            next: base + 1,
        },
        Path::Seq(parts) => entry_in_turn(parts, base, then),
        Path::Alt(parts) => entry_of_some(parts, base, then),
        Path::Opt(part) | Path::Star(part) => {
            let inner = entry(part, base, then);
            Beginning {
                states: inner.states.join(then),
                next: inner.next,
            }
        }
        Path::Plus(part) => entry(part, base, then),
    }
}

// The same of parts that are read one after another.
#[cycle(entries)]
fn entry_in_turn(parts: &PathList, base: u8, then: States) -> Beginning
    requires room { base + leaves_of (trees_of (path_trees parts.now)) ≤ 64 }
    requires within { UpToEnd then }
    ensures within { UpToEnd result.states }
    ensures states { IsSet result.states
        (BeginsInTurn (trees_of (path_trees parts.now)) base (IsIn then)) }
    ensures next { result.next ≡ base + leaves_of (trees_of (path_trees parts.now)) }
{
    let parts = parts.as_slice();
    let mut reached = Beginning {
        states: then,
        next: base,
    };
    let mut left = parts.len();
    'parts: while left > 0 {
        reached = entry(last_part(parts, left), reached.next, reached.states);
        left -= 1;
    }
    reached
}

// The same of parts of which one is read.
#[cycle(entries)]
fn entry_of_some(parts: &PathList, base: u8, then: States) -> Beginning
    requires room { base + leaves_of (trees_of (path_trees parts.now)) ≤ 64 }
    requires within { UpToEnd then }
    ensures within { UpToEnd result.states }
    ensures states { IsSet result.states
        (BeginsSome (trees_of (path_trees parts.now)) base (IsIn then)) }
    ensures next { result.next ≡ base + leaves_of (trees_of (path_trees parts.now)) }
{
    let parts = parts.as_slice();
    let mut states = States::none();
    let mut next = base;
    let mut left = parts.len();
    'parts: while left > 0 {
        let part = entry(last_part(parts, left), next, then);
        states = states.join(part.states);
        next = part.next;
        left -= 1;
    }
    Beginning { states, next }
}
