ghost use Rattle.std.specs.Prelude.{◌≡◌, List, [], ◌∷◌, ◌++◌, length, map, slice_get};
ghost use Rattle.std.specs.Prelude.{IfOk, OnOk, OnErr};
ghost use Rattle.std.specs.Option.{option_copied};
ghost use Rattle.lorel_trees.specs.Trees.{OperandTree, CondTree, compare, same};
ghost use Rattle.lorel_trees.specs.Trees.{operand_tree, rooted_tree, cond_tree, cond_trees, conds_of};

use crate::rooted_paths::Rooted;
use lore_base::{NoMemory, OemText, Op, TryCopy, Value};
use std::alloc::Global;

/// What a comparison compares.
#[derive(Drop)]
pub enum Operand {
    /// A whole number, a text or a flag.
    Atom(Value),
    /// Each object that the path reaches.
    At(Rooted),
}

/// A condition of a select or an update.
#[cycle(cond)]
#[derive(Drop)]
pub enum Cond {
    /// One of them holds.
    Or(CondList),
    /// All of them hold.
    And(CondList),
    /// The body doesn't hold.
    Not(Box<Cond>),
    /// Some object that the path reaches makes the body hold.
    Exists {
        variable: OemText,
        path: Rooted,
        body: Box<Cond>,
    },
    /// Every object that the path reaches makes the body hold.
    ForAll {
        variable: OemText,
        path: Rooted,
        body: Box<Cond>,
    },
    /// Some object of the left side and some of the right compare so.
    Compare {
        left: Operand,
        op: Op,
        right: Operand,
    },
    /// Some object is reached by both paths.
    Same {
        left: Rooted,
        right: Rooted,
    },
}

/// The members of an `or` or `and`, in text order.
#[cycle(cond)]
#[derive(Drop)]
pub struct CondList {
    items: Vec<Cond>,
}

impl TryCopy for Operand {
    ghost Seen = { OperandTree };

    ghost seen = { operand_tree };

    fn try_copy(&self, alloc: Global) -> Result<Self, NoMemory> {
        match self {
            Operand::Atom(value) => Ok(Operand::Atom(value.try_copy(alloc)?)),
            Operand::At(path) => Ok(Operand::At(path.try_copy(alloc)?)),
        }
    }
}

impl TryCopy for Cond {
    ghost Seen = { CondTree };

    ghost seen = { cond_tree };

    fn try_copy(&self, alloc: Global) -> Result<Self, NoMemory> {
        copy_cond(alloc, self)
    }
}

impl TryCopy for CondList {
    ghost Seen = { List CondTree };

    ghost seen = { cond_trees };

    fn try_copy(&self, alloc: Global) -> Result<Self, NoMemory> {
        copy_conds(alloc, self)
    }
}

impl CondList {
    /// The list of no condition. Takes no memory.
    pub fn new(alloc: Global) -> CondList
        ensures conds { conds_of result ≡ [] }
        ensures trees { cond_trees result ≡ [] }
    {
        CondList {
            items: Vec::new(alloc),
        }
    }

    /// The number of conditions.
    pub fn len(&self) -> usize
        ensures conds { result ≡ length (conds_of self.now) }
        ensures trees { result ≡ length (cond_trees self.now) }
    {
        self.items.len()
    }

    /// The condition at place `i`, counted from 0; None exactly where there are not so many.
    pub fn get(&self, i: usize) -> Option<&Cond>
        ensures { option_copied result ≡ slice_get (conds_of self.now) i }
    {
        self.items.get(i)
    }

    /// The conditions as a slice.
    pub fn as_slice(&self) -> &[Cond]
        ensures conds { result.now ≡ conds_of self.now }
        ensures trees { map cond_tree result.now ≡ cond_trees self.now }
    {
        self.items.as_slice()
    }

    /// Puts a condition behind those that are there. Where memory is refused the list stays as it
    /// is.
    pub fn push(&mut self, item: Cond) -> Result<(), NoMemory>
        ensures ok { OnOk result (conds_of self.new ≡ conds_of self.old ++ item ∷ []) }
        ensures trees { OnOk result
            (cond_trees self.new ≡ cond_trees self.old ++ cond_tree item ∷ []) }
        ensures err { OnErr result (conds_of self.new ≡ conds_of self.old) }
    {
        self.items.push(item)?;
        Ok(())
    }
}

#[cycle(copy)]
fn copy_cond(alloc: Global, cond: &Cond) -> Result<Cond, NoMemory>
    ensures { IfOk result (λ copy. cond_tree copy ≡ cond_tree cond.now) }
{
    match cond {
        Cond::Or(conds) => Ok(Cond::Or(copy_conds(alloc, conds)?)),
        Cond::And(conds) => Ok(Cond::And(copy_conds(alloc, conds)?)),
        Cond::Not(body) => Ok(Cond::Not(Box::new(alloc, copy_cond(alloc, body)?)?)),
        Cond::Exists {
            variable,
            path,
            body,
        } => {
            let variable = variable.try_copy(alloc)?;
            let path = path.try_copy(alloc)?;
            let body = Box::new(alloc, copy_cond(alloc, body)?)?;
            Ok(Cond::Exists {
                variable,
                path,
                body,
            })
        }
        Cond::ForAll {
            variable,
            path,
            body,
        } => {
            let variable = variable.try_copy(alloc)?;
            let path = path.try_copy(alloc)?;
            let body = Box::new(alloc, copy_cond(alloc, body)?)?;
            Ok(Cond::ForAll {
                variable,
                path,
                body,
            })
        }
        Cond::Compare { left, op, right } => copy_comparison(alloc, left, *op, right),
        Cond::Same { left, right } => copy_sameness(alloc, left, right),
    }
}

#[cycle(copy)]
fn copy_conds(alloc: Global, conds: &CondList) -> Result<CondList, NoMemory>
    ensures { IfOk result (λ copy. cond_trees copy ≡ cond_trees conds.now) }
{
    let mut items = Vec::with_capacity(alloc, conds.items.len())?;
    'conds: for cond in &conds.items {
        items.push(copy_cond(alloc, cond)?)?;
    }
    Ok(CondList { items })
}

fn copy_comparison(alloc: Global, left: &Operand, op: Op, right: &Operand) -> Result<Cond, NoMemory>
    ensures { IfOk result (λ copy.
        cond_tree copy ≡ compare (operand_tree left.now) op (operand_tree right.now)) }
{
    let left = left.try_copy(alloc)?;
    let right = right.try_copy(alloc)?;
    Ok(Cond::Compare { left, op, right })
}

fn copy_sameness(alloc: Global, left: &Rooted, right: &Rooted) -> Result<Cond, NoMemory>
    ensures { IfOk result (λ copy.
        cond_tree copy ≡ same (rooted_tree left.now) (rooted_tree right.now)) }
{
    let left = left.try_copy(alloc)?;
    let right = right.try_copy(alloc)?;
    Ok(Cond::Same { left, right })
}
