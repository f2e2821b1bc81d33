ghost use Rattle.std.specs.Prelude.{OnOk, ◌∷◌, codes};
ghost use Rattle.lorel_tokens.specs.declared.token_types.Kind.TheVariants as k;
ghost use Rattle.lorel_trees.specs.Conditions.{spell_op};
ghost use Rattle.lorel_ast.specs.Printing.{print_operand, print_cond, print_joined};
ghost use Rattle.lorel_trees.specs.Trees.{operand_tree, rooted_tree, cond_tree, cond_trees};
ghost use Rattle.lorel_trees.specs.Trees.{conds_from};
ghost use Rattle.lorel_ast.specs.inside.Puts.{Puts, print_quantified};

use crate::print_literals::put_value;
use crate::print_paths::put_rooted;
use crate::token_writer::TokenWriter;
use lore_base::{NoMemory, OemText, Op};
use lorel_tokens::Sign;
use lorel_trees::{Cond, CondList, Operand, Rooted};

/// Where a condition stands.
#[derive(Clone, Copy, PartialEq, Eq)]
pub enum Standing {
    /// Behind `where` or in parentheses.
    Alone,
    /// As a member of an `or`.
    InOr,
    /// As a member of an `and`, or as the body of a `not` or quantifier.
    Inside,
}

fn put_op(op: Op, out: &mut TokenWriter) -> Result<(), NoMemory>
    ensures { OnOk result (Puts (spell_op op) out.old out.new) }
{
    match op {
        Op::Eq => out.symbol(Sign::Equal),
        Op::Ne => out.symbol(Sign::NotEqual),
        Op::Lt => out.symbol(Sign::Less),
        Op::Le => out.symbol(Sign::LessEqual),
        Op::Gt => out.symbol(Sign::Greater),
        Op::Ge => out.symbol(Sign::GreaterEqual),
        Op::Like => out.word(b"like"),
    }
}

fn put_operand(operand: &Operand, out: &mut TokenWriter) -> Result<(), NoMemory>
    ensures { OnOk result (Puts (print_operand (operand_tree operand.now)) out.old out.new) }
{
    match operand {
        Operand::Atom(value) => {
            put_value(value, out)?;
            Ok(())
        }
        Operand::At(path) => {
            put_rooted(path, out)?;
            Ok(())
        }
    }
}

// `name in path :`
fn put_range(variable: &OemText, path: &Rooted, out: &mut TokenWriter) -> Result<(), NoMemory>
    ensures { OnOk result (Puts (print_quantified variable.now (rooted_tree path.now))
        out.old out.new) }
{
    out.word(variable.as_bytes())?;
    out.word(b"in")?;
    put_rooted(path, out)?;
    out.symbol(Sign::Colon)?;
    Ok(())
}

// `for all name in path :`
fn put_every(variable: &OemText, path: &Rooted, out: &mut TokenWriter) -> Result<(), NoMemory>
    ensures { OnOk result (Puts (λ rest. k.Word (codes "for") ∷ k.Word (codes "all")
        ∷ print_quantified variable.now (rooted_tree path.now) rest) out.old out.new) }
{
    out.word(b"for")?;
    out.word(b"all")?;
    put_range(variable, path, out)?;
    Ok(())
}

/// A condition, in parentheses where its place needs them.
#[cycle(cond)]
pub(crate) fn put_cond(cond: &Cond, place: Standing, out: &mut TokenWriter) -> Result<(), NoMemory>
    ensures { OnOk result (Puts (print_cond (cond_tree cond.now) place) out.old out.new) }
{
    match cond {
        Cond::Or(members) => match place {
            Standing::Alone => {
                put_joined(members, b"or", Standing::InOr, out)?;
                Ok(())
            }
            Standing::InOr | Standing::Inside => {
                out.symbol(Sign::LeftParen)?;
                put_joined(members, b"or", Standing::InOr, out)?;
                out.symbol(Sign::RightParen)?;
                Ok(())
            }
        },
        Cond::And(members) => match place {
            Standing::Alone | Standing::InOr => {
                put_joined(members, b"and", Standing::Inside, out)?;
                Ok(())
            }
            Standing::Inside => {
                out.symbol(Sign::LeftParen)?;
                put_joined(members, b"and", Standing::Inside, out)?;
                out.symbol(Sign::RightParen)?;
                Ok(())
            }
        },
        Cond::Not(body) => {
            out.word(b"not")?;
            put_cond(body, Standing::Inside, out)?;
            Ok(())
        }
        Cond::Exists {
            variable,
            path,
            body,
        } => {
            out.word(b"exists")?;
            put_range(variable, path, out)?;
            put_cond(body, Standing::Inside, out)?;
            Ok(())
        }
        Cond::ForAll {
            variable,
            path,
            body,
        } => {
            put_every(variable, path, out)?;
            put_cond(body, Standing::Inside, out)?;
            Ok(())
        }
        Cond::Compare { left, op, right } => {
            put_operand(left, out)?;
            put_op(*op, out)?;
            put_operand(right, out)?;
            Ok(())
        }
        Cond::Same { left, right } => {
            put_rooted(left, out)?;
            out.symbol(Sign::SameAs)?;
            put_rooted(right, out)?;
            Ok(())
        }
    }
}

// The members with this word between them.
#[cycle(cond)]
fn put_joined(
    members: &CondList,
    join: &[u8],
    place: Standing,
    out: &mut TokenWriter,
) -> Result<(), NoMemory>
    ensures { OnOk result (Puts (print_joined (conds_from (cond_trees members.now)) join.now place)
        out.old out.new) }
{
    match members.as_slice() {
        [] => Ok(()),
        [first, others @ ..] => {
            put_cond(first, place, out)?;
            'others: for member in others {
                out.word(join)?;
                put_cond(member, place, out)?;
            }
            Ok(())
        }
    }
}
