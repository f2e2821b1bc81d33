ghost use Rattle.std.specs.Prelude.{◌+◌, ◌≤◌, length, IfOk};
ghost use Rattle.lore_base.specs.Paths.{path_tree, path_trees, trees_of, leaves, leaves_of};
ghost use Rattle.path_expr.specs.Machines.{UpToEnd};
ghost use Rattle.path_expr.specs.inside.Compiled.{LaysPath, LaysInTurn, LaysEach};

use crate::automata::Automaton;
use crate::entries::entry;
use crate::last_parts::last_part;
use crate::leaves::Leaf;
use crate::state_sets::States;
use lore_base::{NoMemory, Path, PathList, TryCopy};
use std::alloc::Global;

// Lays the leaves of the path behind those of the automaton, its last leaf first, where what begins
// in `then` comes after the path. Returns the states in which the path and what comes after it
// begin. A part is gone through once more for each `*` and `+` that encloses it.
#[cycle(compile)]
pub(crate) fn compile(
    alloc: Global,
    path: &Path,
    then: States,
    automaton: &mut Automaton,
) -> Result<States, NoMemory>
    requires room { length automaton.old.leaves + leaves (path_tree path.now) ≤ 64 }
    requires within { UpToEnd then }
    ensures { IfOk result
        (λ states. LaysPath (path_tree path.now) then states automaton.old automaton.new) }
{
    let base = automaton.leaf_count();
    match path {
        Path::Step(pattern) => {
            automaton.push(Leaf::One(pattern.try_copy(alloc)?), then)?;
            Ok(States::one(base))
        }
        Path::Any => {
            let states = States::one(base).join(then);
            automaton.push(Leaf::AnyLabel, states)?;
            Ok(states)
        }
        Path::Seq(parts) => compile_in_turn(alloc, parts, then, automaton),
        Path::Alt(parts) => compile_each(alloc, parts, then, automaton),
        Path::Opt(part) => {
            let states = compile(alloc, part, then, automaton)?;
            Ok(states.join(then))
        }
        Path::Star(part) => {
            let again = entry(part, base, then).states.join(then);
            compile(alloc, part, again, automaton)?;
            Ok(again)
        }
        Path::Plus(part) => {
            let first = entry(part, base, then).states;
            compile(alloc, part, first.join(then), automaton)?;
            Ok(first)
        }
    }
}

// The same of parts that are read one after another.
#[cycle(compile)]
pub(crate) fn compile_in_turn(
    alloc: Global,
    parts: &PathList,
    then: States,
    automaton: &mut Automaton,
) -> Result<States, NoMemory>
    requires room { length automaton.old.leaves + leaves_of (trees_of (path_trees parts.now)) ≤ 64 }
    requires within { UpToEnd then }
    ensures { IfOk result (λ states.
        LaysInTurn (trees_of (path_trees parts.now)) then states automaton.old automaton.new) }
{
    let parts = parts.as_slice();
    let mut states = then;
    let mut left = parts.len();
    'parts: while left > 0 {
        states = compile(alloc, last_part(parts, left), states, automaton)?;
        left -= 1;
    }
    Ok(states)
}

// The same of parts of which one is read.
#[cycle(compile)]
fn compile_each(
    alloc: Global,
    parts: &PathList,
    then: States,
    automaton: &mut Automaton,
) -> Result<States, NoMemory>
    requires room { length automaton.old.leaves + leaves_of (trees_of (path_trees parts.now)) ≤ 64 }
    requires within { UpToEnd then }
    ensures { IfOk result (λ states.
        LaysEach (trees_of (path_trees parts.now)) then states automaton.old automaton.new) }
{
    let parts = parts.as_slice();
    let mut states = States::none();
    let mut left = parts.len();
    'parts: while left > 0 {
        let first = compile(alloc, last_part(parts, left), then, automaton)?;
        states = states.join(first);
        left -= 1;
    }
    Ok(states)
}
