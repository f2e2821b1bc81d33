ghost use Rattle.std.specs.Prelude.{◌≡◌, [], ◌∷◌, ◌++◌, map, OnOk};
ghost use Rattle.lorel_eval.specs.inside.Ready.{ready_tree, ready_trees, ready_conds_of};

use crate::ready_routes::ReadyRoute;
use lore_base::{NoMemory, Op, Value};
use lorel_bound::BoundStart;
use std::alloc::Global;

// A path of a condition, made ready for walks from many objects.
#[derive(Drop)]
pub(crate) struct ReadyPath<'a> {
    pub(crate) start: BoundStart,
    pub(crate) route: ReadyRoute<'a>,
}

// What a comparison compares: a value, or each object that the path reaches.
#[derive(Drop)]
pub(crate) enum ReadyOperand<'a> {
    Atom(&'a Value),
    At(ReadyPath<'a>),
}

// A condition, form by form, whose paths are made ready.
#[cycle(ready)]
#[derive(Drop)]
pub(crate) enum ReadyCond<'a> {
    Or(ReadyCondList<'a>),
    And(ReadyCondList<'a>),
    Not(Box<ReadyCond<'a>>),
    Exists {
        path: ReadyPath<'a>,
        body: Box<ReadyCond<'a>>,
    },
    ForAll {
        path: ReadyPath<'a>,
        body: Box<ReadyCond<'a>>,
    },
    Compare {
        left: ReadyOperand<'a>,
        op: Op,
        right: ReadyOperand<'a>,
    },
    Same {
        left: ReadyPath<'a>,
        right: ReadyPath<'a>,
    },
}

// The members of an `or` or `and`, in text order.
#[cycle(ready)]
#[derive(Drop)]
pub(crate) struct ReadyCondList<'a> {
    items: Vec<ReadyCond<'a>>,
}

impl<'a> ReadyCondList<'a> {
    pub(crate) fn new(alloc: Global) -> ReadyCondList<'a>
        ensures { ready_trees result ≡ [] }
    {
        ReadyCondList {
            items: Vec::new(alloc),
        }
    }

    pub(crate) fn as_slice(&self) -> &[ReadyCond<'a>]
        ensures conds { result.now ≡ ready_conds_of self.now }
        ensures trees { map ready_tree result.now ≡ ready_trees self.now }
    {
        self.items.as_slice()
    }

    pub(crate) fn push(&mut self, item: ReadyCond<'a>) -> Result<(), NoMemory>
        ensures { OnOk result
            (ready_trees self.new ≡ ready_trees self.old ++ ready_tree item.entry ∷ []) }
    {
        self.items.push(item)?;
        Ok(())
    }
}
