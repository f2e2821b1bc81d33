ghost use Rattle.std.specs.Prelude.{◌≡◌, IfOk};
ghost use Rattle.lorel_trees.specs.Trees.{StatementTree, load, bind, unname, assign, add_new};
ghost use Rattle.lorel_trees.specs.Trees.{add_link, remove, watch};
ghost use Rattle.lorel_trees.specs.Trees.{rooted_tree, literal_tree, tail_tree, select_tree};
ghost use Rattle.lorel_trees.specs.Trees.{statement_tree};

use crate::dump_trees::DumpTree;
use crate::literals::Literal;
use crate::rooted_paths::{LabelPath, Rooted};
use crate::selects::{Select, Tail};
use lore_base::{Mode, NoMemory, OemText, TryCopy, Value};
use std::alloc::Global;

/// A statement of a script.
#[derive(Drop)]
pub enum Statement {
    /// `load name := literal`
    Load {
        name: OemText,
        literal: Literal,
    },
    /// `name name := path`
    Name {
        name: OemText,
        path: Rooted,
    },
    /// `unname name`
    Unname {
        name: OemText,
    },
    /// `update path := value`; `{}` is the value Complex.
    Assign {
        target: Rooted,
        value: Value,
        tail: Tail,
    },
    /// `update path.label += literal`; the label isn't part of the target.
    AddNew {
        target: Rooted,
        label: OemText,
        literal: Literal,
        tail: Tail,
    },
    /// `update path.label += path`
    AddLink {
        target: Rooted,
        label: OemText,
        right: Rooted,
        tail: Tail,
    },
    /// `update path.label -= path`
    Remove {
        target: Rooted,
        label: OemText,
        right: Rooted,
        tail: Tail,
    },
    /// `select` with its items and its tail
    Select(Select),
    /// `explain` and a select
    Explain(Select),
    /// `guide`
    Guide,
    /// `browse lpath`
    Browse(LabelPath),
    /// `sample lpath count`
    Sample(LabelPath, i64),
    /// `set nodes limit`
    SetNodes(i64),
    /// `set plan mode`
    SetPlan(Mode),
    /// `dump`
    Dump,
    /// `restore` and a dump text
    Restore(DumpTree),
    /// `generate seed count`
    Generate(i64, i64),
    /// `history on` and `history off`
    History(bool),
    /// `at moment` and a select
    At(i64, Select),
    /// `changes first last`
    ChangesList(i64, i64),
    /// `blocks`
    Blocks,
    /// `blocks` and a select
    BlocksSelect(Select),
    /// `watch name := select`; its items are paths alone.
    Watch {
        name: OemText,
        select: Select,
    },
    /// `unwatch name`
    Unwatch(OemText),
    /// `show name`
    Show(OemText),
}

impl TryCopy for Statement {
    ghost Seen = { StatementTree };

    ghost seen = { statement_tree };

    fn try_copy(&self, alloc: Global) -> Result<Self, NoMemory> {
        match self {
            Statement::Load { name, literal } => copy_load(alloc, name, literal),
            Statement::Name { name, path } => copy_name(alloc, name, path),
            Statement::Unname { name } => copy_unname(alloc, name),
            Statement::Assign {
                target,
                value,
                tail,
            } => copy_assign(alloc, target, value, tail),
            Statement::AddNew {
                target,
                label,
                literal,
                tail,
            } => copy_add_new(alloc, target, label, literal, tail),
            Statement::AddLink {
                target,
                label,
                right,
                tail,
            } => copy_add_link(alloc, target, label, right, tail),
            Statement::Remove {
                target,
                label,
                right,
                tail,
            } => copy_remove(alloc, target, label, right, tail),
            Statement::Select(select) => Ok(Statement::Select(select.try_copy(alloc)?)),
            Statement::Explain(select) => Ok(Statement::Explain(select.try_copy(alloc)?)),
            Statement::Guide => Ok(Statement::Guide),
            Statement::Browse(path) => Ok(Statement::Browse(path.try_copy(alloc)?)),
            Statement::Sample(path, count) => Ok(Statement::Sample(path.try_copy(alloc)?, *count)),
            Statement::SetNodes(nodes) => Ok(Statement::SetNodes(*nodes)),
            Statement::SetPlan(mode) => Ok(Statement::SetPlan(*mode)),
            Statement::Dump => Ok(Statement::Dump),
            Statement::Restore(dump) => Ok(Statement::Restore(dump.try_copy(alloc)?)),
            Statement::Generate(seed, count) => Ok(Statement::Generate(*seed, *count)),
            Statement::History(on) => Ok(Statement::History(*on)),
            Statement::At(moment, select) => Ok(Statement::At(*moment, select.try_copy(alloc)?)),
            Statement::ChangesList(first, last) => Ok(Statement::ChangesList(*first, *last)),
            Statement::Blocks => Ok(Statement::Blocks),
            Statement::BlocksSelect(select) => Ok(Statement::BlocksSelect(select.try_copy(alloc)?)),
            Statement::Watch { name, select } => copy_watch(alloc, name, select),
            Statement::Unwatch(name) => Ok(Statement::Unwatch(name.try_copy(alloc)?)),
            Statement::Show(name) => Ok(Statement::Show(name.try_copy(alloc)?)),
        }
    }
}

fn copy_load(alloc: Global, name: &OemText, literal: &Literal) -> Result<Statement, NoMemory>
    ensures { IfOk result (λ copy. statement_tree copy ≡ load name.now (literal_tree literal.now)) }
{
    let name = name.try_copy(alloc)?;
    let literal = literal.try_copy(alloc)?;
    Ok(Statement::Load { name, literal })
}

fn copy_name(alloc: Global, name: &OemText, path: &Rooted) -> Result<Statement, NoMemory>
    ensures { IfOk result (λ copy. statement_tree copy ≡ bind name.now (rooted_tree path.now)) }
{
    let name = name.try_copy(alloc)?;
    let path = path.try_copy(alloc)?;
    Ok(Statement::Name { name, path })
}

fn copy_unname(alloc: Global, name: &OemText) -> Result<Statement, NoMemory>
    ensures { IfOk result (λ copy. statement_tree copy ≡ unname name.now) }
{
    let name = name.try_copy(alloc)?;
    Ok(Statement::Unname { name })
}

fn copy_watch(alloc: Global, name: &OemText, select: &Select) -> Result<Statement, NoMemory>
    ensures { IfOk result (λ copy. statement_tree copy ≡ watch name.now (select_tree select.now)) }
{
    let name = name.try_copy(alloc)?;
    let select = select.try_copy(alloc)?;
    Ok(Statement::Watch { name, select })
}

fn copy_assign(
    alloc: Global,
    target: &Rooted,
    value: &Value,
    tail: &Tail,
) -> Result<Statement, NoMemory>
    ensures { IfOk result (λ copy.
        statement_tree copy ≡ assign (rooted_tree target.now) value.now (tail_tree tail.now)) }
{
    let target = target.try_copy(alloc)?;
    let value = value.try_copy(alloc)?;
    let tail = tail.try_copy(alloc)?;
    Ok(Statement::Assign {
        target,
        value,
        tail,
    })
}

fn copy_add_new(
    alloc: Global,
    target: &Rooted,
    label: &OemText,
    literal: &Literal,
    tail: &Tail,
) -> Result<Statement, NoMemory>
    ensures { IfOk result (λ copy. statement_tree copy ≡ add_new
        (rooted_tree target.now) label.now (literal_tree literal.now) (tail_tree tail.now)) }
{
    let target = target.try_copy(alloc)?;
    let label = label.try_copy(alloc)?;
    let literal = literal.try_copy(alloc)?;
    let tail = tail.try_copy(alloc)?;
    Ok(Statement::AddNew {
        target,
        label,
        literal,
        tail,
    })
}

fn copy_add_link(
    alloc: Global,
    target: &Rooted,
    label: &OemText,
    right: &Rooted,
    tail: &Tail,
) -> Result<Statement, NoMemory>
    ensures { IfOk result (λ copy. statement_tree copy ≡ add_link
        (rooted_tree target.now) label.now (rooted_tree right.now) (tail_tree tail.now)) }
{
    let target = target.try_copy(alloc)?;
    let label = label.try_copy(alloc)?;
    let right = right.try_copy(alloc)?;
    let tail = tail.try_copy(alloc)?;
    Ok(Statement::AddLink {
        target,
        label,
        right,
        tail,
    })
}

fn copy_remove(
    alloc: Global,
    target: &Rooted,
    label: &OemText,
    right: &Rooted,
    tail: &Tail,
) -> Result<Statement, NoMemory>
    ensures { IfOk result (λ copy. statement_tree copy ≡ remove
        (rooted_tree target.now) label.now (rooted_tree right.now) (tail_tree tail.now)) }
{
    let target = target.try_copy(alloc)?;
    let label = label.try_copy(alloc)?;
    let right = right.try_copy(alloc)?;
    let tail = tail.try_copy(alloc)?;
    Ok(Statement::Remove {
        target,
        label,
        right,
        tail,
    })
}
