ghost use Rattle.std.specs.Prelude.{◌≡◌, ◌≤◌, IfOk, OnOk, OnErr};
ghost use Rattle.lore_base.specs.Lists.{Extends, ExtendsBy};
ghost use Rattle.lore_base.specs.Paths.{path_tree, leaves};
ghost use Rattle.lore_base.specs.TargetSets.{ListsInOrder};
ghost use Rattle.product_walk.specs.Types.{LEAVES};
ghost use Rattle.product_walk.specs.ProductWalks.{ReachesInto, WalksInto, TakesReads, reads_in};
ghost use Rattle.product_walk.specs.inside.Ways.{IsTurned};

use crate::direction::Against;
use crate::label_paths::reaching_in_turn;
use crate::label_step::LabelStep;
use crate::routes::{Way, short_way};
use crate::searches::turned_back;
use index_traits::Links;
use lore_base::{LabelTest, NoMemory, OidBuf, Path, Pattern, Steps};
use path_expr::Automaton;
use std::alloc::Global;
use std::marker::Model;
use std::sync::ledger::Ledger;

/// A path that is made ready once and then walked against the edges, from many lists of objects.
/// Contracts see it as that path.
#[derive(Drop)]
pub struct WayBack<'a> {
    path: &'a Path,
    turned: Turned<'a>,
}

// How a path is walked against the edges.
#[derive(Drop)]
enum Turned<'a> {
    // One label: it is reached from the parents by that label.
    Parent(&'a Pattern),
    // Labels one after another, or none: it is reached from parents of parents.
    InTurn(&'a [Path]),
    // Any words: the automaton, which reads them backwards, finds from where.
    Search(Automaton),
}

impl<'a> Model for WayBack<'a> {
    ghost use Rattle.std.specs.Coded.{codes};
    ghost use Rattle.lore_base.specs.contracts.paths.Path as path_contract;
    ghost use Rattle.lore_base.specs.declared.paths.Path.{Path};
    ghost use Rattle.lore_base.specs.Paths.{path_tree};

    ghost Value = { Path };

    ghost coded = { Prim.hlevel (codes, path_contract.the_row.coded) };

    ghost use Rattle.product_walk.specs.inside.Ways.{IsTurned};

    ghost view = { λ way. way.path.now };

    ghost invariant = { λ way. IsTurned (path_tree way.path.now) way.turned };
}

impl<'a> WayBack<'a> {
    /// Makes the path ready. It has at most 64 leaves.
    pub fn new(alloc: Global, path: &'a Path) -> Result<WayBack<'a>, NoMemory>
        requires { leaves (path_tree path.now) ≤ LEAVES }
        ensures { IfOk result (λ way. way ≡ path.now) }
    {
        let turned = turn(alloc, path)?;
        Ok(WayBack { path, turned })
    }

    /// Appends to `buf`, ascending, each once, the objects from which the path reaches some object of
    /// `to`.
    ///
    /// The steps grow by at most 65 times the reads of each object from which a member of `to` is
    /// walked to: one, and one more for each edge that enters it. Where memory is refused, nothing is
    /// promised of `steps`.
    pub fn reach_back<K: Links, T: LabelTest, L: Ledger>(
        &self,
        alloc: Global,
        links: &K,
        labels: &T,
        to: &OidBuf,
        buf: &mut OidBuf,
        steps: &mut Steps<L>,
    ) -> Result<(), NoMemory>
        ensures objects { OnOk result (ExtendsBy (ListsInOrder (ReachesInto
            (T.texts labels.now) (K.edges links.now) (path_tree self.now) to.now))
            buf.old buf.new) }
        ensures steps { OnOk result (TakesReads (reads_in (K.edges links.now))
            (WalksInto (K.edges links.now) to.now) steps.old steps.new) }
        ensures err { OnErr result (Extends buf.old buf.new) }
    {
        match &self.turned {
            Turned::Parent(pattern) => {
                let step = LabelStep {
                    direction: Against { links },
                    labels,
                    pattern,
                };
                step.append_ends_of(alloc, to.as_slice(), buf, steps)
            }
            Turned::InTurn(parts) => {
                let found = reaching_in_turn(alloc, links, labels, parts, to.as_slice(), steps)?;
                buf.append(found.as_slice())
            }
            Turned::Search(turned) => turned_back(alloc, links, to, turned, labels, buf, steps),
        }
    }
}

// The way to walk the path against the edges.
fn turn(alloc: Global, path: &Path) -> Result<Turned<'_>, NoMemory>
    requires { leaves (path_tree path.now) ≤ LEAVES }
    ensures { IfOk result (IsTurned (path_tree path.now)) }
{
    match short_way(path) {
        Some(Way::Stay) => Ok(Turned::InTurn(&[])),
        Some(Way::Child(pattern)) => Ok(Turned::Parent(pattern)),
        Some(Way::InTurn(parts)) => Ok(Turned::InTurn(parts)),
        _ => turn_automaton(alloc, path),
    }
}

// The same by an automaton.
fn turn_automaton(alloc: Global, path: &Path) -> Result<Turned<'_>, NoMemory>
    requires { leaves (path_tree path.now) ≤ LEAVES }
    ensures { IfOk result (IsTurned (path_tree path.now)) }
{
    let automaton = Automaton::build(alloc, path)?;
    let turned = automaton.reversed(alloc)?;
    Ok(Turned::Search(turned))
}
