ghost use Rattle.std.specs.Prelude.{◌≡◌, List, [], ◌∷◌, ◌++◌, length, map, slice_get};
ghost use Rattle.std.specs.Prelude.{IfOk, OnOk, OnErr};
ghost use Rattle.std.specs.Option.{option_copied};
ghost use Rattle.lorel_bound.specs.Conditions.{OperandOf, CondOf, compare, same};
ghost use Rattle.lorel_bound.specs.Bound.{BoundPathTree, bound_path, bound_operand};
ghost use Rattle.lorel_bound.specs.Bound.{bound_cond, bound_conds, conds_of};

use lore_base::{NoMemory, Oid, Op, Path, TryCopy, Value};
use std::alloc::Global;

/// What a path of a condition starts at.
#[derive(Clone, Copy, Debug, PartialEq, Eq)]
pub enum BoundStart {
    /// The object of a name.
    Named(Oid),
    /// The object of the range with this number.
    Slot(u32),
    /// The object of the quantifier that so many others enclose.
    Quantified(u32),
}

/// A path of a condition: what is fixed of it, and the rest, which is existential in a comparison.
#[derive(Drop)]
pub struct BoundPath {
    pub start: BoundStart,
    pub rest: Path,
}

/// What a comparison compares.
#[derive(Drop)]
pub enum BoundOperand {
    /// A whole number or a text.
    Atom(Value),
    /// Each object that the path reaches.
    At(BoundPath),
}

/// A condition whose paths start at objects, slots and quantifiers.
#[cycle(cond)]
#[derive(Drop)]
pub enum BoundCond {
    /// One of them holds.
    Or(BoundCondList),
    /// All of them hold.
    And(BoundCondList),
    /// The body doesn't hold.
    Not(Box<BoundCond>),
    /// Some object that the path reaches makes the body hold.
    Exists {
        path: BoundPath,
        body: Box<BoundCond>,
    },
    /// Every object that the path reaches makes the body hold.
    ForAll {
        path: BoundPath,
        body: Box<BoundCond>,
    },
    /// Some object of the left side and some of the right compare so.
    Compare {
        left: BoundOperand,
        op: Op,
        right: BoundOperand,
    },
    /// Some object is reached by both paths.
    Same {
        left: BoundPath,
        right: BoundPath,
    },
}

/// The members of an `or` or `and`, in text order.
#[cycle(cond)]
#[derive(Drop)]
pub struct BoundCondList {
    items: Vec<BoundCond>,
}

impl BoundCondList {
    /// The list of no condition. Takes no memory.
    pub fn new(alloc: Global) -> BoundCondList
        ensures conds { conds_of result ≡ [] }
        ensures trees { bound_conds result ≡ [] }
    {
        BoundCondList {
            items: Vec::new(alloc),
        }
    }

    /// The number of conditions.
    pub fn len(&self) -> usize
        ensures conds { result ≡ length (conds_of self.now) }
        ensures trees { result ≡ length (bound_conds self.now) }
    {
        self.items.len()
    }

    /// The condition at place `i`, counted from 0; None exactly where there are not so many.
    pub fn get(&self, i: usize) -> Option<&BoundCond>
        ensures { option_copied result ≡ slice_get (conds_of self.now) i }
    {
        self.items.get(i)
    }

    /// The conditions as a slice.
    pub fn as_slice(&self) -> &[BoundCond]
        ensures conds { result.now ≡ conds_of self.now }
        ensures trees { map bound_cond result.now ≡ bound_conds self.now }
    {
        self.items.as_slice()
    }

    /// Puts a condition behind those that are there. Where memory is refused the list stays as it
    /// is.
    pub fn push(&mut self, item: BoundCond) -> Result<(), NoMemory>
        ensures ok { OnOk result (conds_of self.new ≡ conds_of self.old ++ item ∷ []) }
        ensures trees { OnOk result
            (bound_conds self.new ≡ bound_conds self.old ++ bound_cond item ∷ []) }
        ensures err { OnErr result (conds_of self.new ≡ conds_of self.old) }
    {
        self.items.push(item)?;
        Ok(())
    }
}

impl TryCopy for BoundPath {
    ghost Seen = { BoundPathTree };

    ghost seen = { bound_path };

    fn try_copy(&self, alloc: Global) -> Result<Self, NoMemory> {
        Ok(BoundPath {
            start: self.start,
            rest: self.rest.try_copy(alloc)?,
        })
    }
}

impl TryCopy for BoundOperand {
    ghost Seen = { OperandOf BoundPathTree };

    ghost seen = { bound_operand };

    fn try_copy(&self, alloc: Global) -> Result<Self, NoMemory> {
        match self {
            BoundOperand::Atom(value) => Ok(BoundOperand::Atom(value.try_copy(alloc)?)),
            BoundOperand::At(path) => Ok(BoundOperand::At(path.try_copy(alloc)?)),
        }
    }
}

impl TryCopy for BoundCond {
    ghost Seen = { CondOf BoundPathTree };

    ghost seen = { bound_cond };

    fn try_copy(&self, alloc: Global) -> Result<Self, NoMemory> {
        copy_cond(alloc, self)
    }
}

impl TryCopy for BoundCondList {
    ghost Seen = { List (CondOf BoundPathTree) };

    ghost seen = { bound_conds };

    fn try_copy(&self, alloc: Global) -> Result<Self, NoMemory> {
        copy_conds(alloc, self)
    }
}

#[cycle(copy)]
fn copy_cond(alloc: Global, cond: &BoundCond) -> Result<BoundCond, NoMemory>
    ensures { IfOk result (λ copy. bound_cond copy ≡ bound_cond cond.now) }
{
    match cond {
        BoundCond::Or(conds) => Ok(BoundCond::Or(copy_conds(alloc, conds)?)),
        BoundCond::And(conds) => Ok(BoundCond::And(copy_conds(alloc, conds)?)),
        BoundCond::Not(body) => Ok(BoundCond::Not(Box::new(alloc, copy_cond(alloc, body)?)?)),
        BoundCond::Exists { path, body } => {
            let path = path.try_copy(alloc)?;
            let body = Box::new(alloc, copy_cond(alloc, body)?)?;
            Ok(BoundCond::Exists { path, body })
        }
        BoundCond::ForAll { path, body } => {
            let path = path.try_copy(alloc)?;
            let body = Box::new(alloc, copy_cond(alloc, body)?)?;
            Ok(BoundCond::ForAll { path, body })
        }
        BoundCond::Compare { left, op, right } => copy_comparison(alloc, left, *op, right),
        BoundCond::Same { left, right } => copy_sameness(alloc, left, right),
    }
}

#[cycle(copy)]
fn copy_conds(alloc: Global, conds: &BoundCondList) -> Result<BoundCondList, NoMemory>
    ensures { IfOk result (λ copy. bound_conds copy ≡ bound_conds conds.now) }
{
    let mut list = BoundCondList::new(alloc);
    'conds: for cond in conds.as_slice() {
        list.push(copy_cond(alloc, cond)?)?;
    }
    Ok(list)
}

fn copy_comparison(
    alloc: Global,
    left: &BoundOperand,
    op: Op,
    right: &BoundOperand,
) -> Result<BoundCond, NoMemory>
    ensures { IfOk result (λ copy.
        bound_cond copy ≡ compare (bound_operand left.now) op (bound_operand right.now)) }
{
    let left = left.try_copy(alloc)?;
    let right = right.try_copy(alloc)?;
    Ok(BoundCond::Compare { left, op, right })
}

fn copy_sameness(alloc: Global, left: &BoundPath, right: &BoundPath) -> Result<BoundCond, NoMemory>
    ensures { IfOk result (λ copy.
        bound_cond copy ≡ same (bound_path left.now) (bound_path right.now)) }
{
    let left = left.try_copy(alloc)?;
    let right = right.try_copy(alloc)?;
    Ok(BoundCond::Same { left, right })
}
