ghost use Rattle.std.specs.Prelude.{OnOk, ◌∷◌};
ghost use Rattle.lorel_tokens.specs.declared.token_types.Kind.TheVariants as k;
ghost use Rattle.lorel_tokens.specs.declared.token_types.Sign.TheVariants as s;
ghost use Rattle.lorel_trees.specs.Grammar as g;
ghost use Rattle.lorel_trees.specs.Literals.{spell_atom, spell_value, spell_mark};
ghost use Rattle.lorel_ast.specs.Printing.{print_label, print_literal, print_members};
ghost use Rattle.lorel_trees.specs.Trees.{literal_tree, member_tree, member_trees, members_from};
ghost use Rattle.lorel_ast.specs.inside.Puts.{Puts};

use crate::token_writer::TokenWriter;
use lore_base::{NoMemory, Value};
use lorel_tokens::Sign;
use lorel_trees::{Literal, Member, MemberList};

fn put_flag(flag: bool, out: &mut TokenWriter) -> Result<(), NoMemory>
    ensures { OnOk result (Puts (spell_atom (g.flag flag)) out.old out.new) }
{
    if flag {
        out.word(b"true")
    } else {
        out.word(b"false")
    }
}

/// A value; `{ }` is the complex one.
pub(crate) fn put_value(value: &Value, out: &mut TokenWriter) -> Result<(), NoMemory>
    ensures { OnOk result (Puts (spell_value value.now) out.old out.new) }
{
    match value {
        Value::Whole(number) => {
            out.number(*number)?;
            Ok(())
        }
        Value::Chars(text) => {
            out.text(text.as_bytes())?;
            Ok(())
        }
        Value::Flag(flag) => put_flag(*flag, out),
        Value::Complex => {
            out.symbol(Sign::LeftBrace)?;
            out.symbol(Sign::RightBrace)?;
            Ok(())
        }
    }
}

fn put_mark(local: Option<u32>, out: &mut TokenWriter) -> Result<(), NoMemory>
    ensures { OnOk result (Puts (spell_mark local) out.old out.new) }
{
    match local {
        Some(local) => {
            out.local(local)?;
            Ok(())
        }
        None => Ok(()),
    }
}

// The local, if there is one, and a `{`.
fn put_opening(local: Option<u32>, out: &mut TokenWriter) -> Result<(), NoMemory>
    ensures { OnOk result (Puts (λ rest. spell_mark local (k.Symbol s.LeftBrace ∷ rest))
        out.old out.new) }
{
    put_mark(local, out)?;
    out.symbol(Sign::LeftBrace)?;
    Ok(())
}

/// A literal, with its locals.
#[cycle(literal)]
pub(crate) fn put_literal(literal: &Literal, out: &mut TokenWriter) -> Result<(), NoMemory>
    ensures { OnOk result (Puts (print_literal (literal_tree literal.now)) out.old out.new) }
{
    match literal {
        Literal::Local(local) => {
            out.local(*local)?;
            Ok(())
        }
        Literal::Atom { local, value } => {
            put_mark(*local, out)?;
            put_value(value, out)?;
            Ok(())
        }
        Literal::Node { local, members } => {
            put_opening(*local, out)?;
            put_members(members, out)?;
            out.symbol(Sign::RightBrace)?;
            Ok(())
        }
    }
}

// The members with commas between them.
#[cycle(literal)]
fn put_members(members: &MemberList, out: &mut TokenWriter) -> Result<(), NoMemory>
    ensures { OnOk result (Puts (print_members (members_from (member_trees members.now)))
        out.old out.new) }
{
    match members.as_slice() {
        [] => Ok(()),
        [first, others @ ..] => {
            put_member(first, out)?;
            'others: for member in others {
                out.symbol(Sign::Comma)?;
                put_member(member, out)?;
            }
            Ok(())
        }
    }
}

#[cycle(literal)]
fn put_member(member: &Member, out: &mut TokenWriter) -> Result<(), NoMemory>
    ensures { OnOk result (Puts (λ rest. print_label (member_tree member.now).0
        (print_literal (member_tree member.now).1 rest)) out.old out.new) }
{
    out.label(member.label.as_bytes())?;
    put_literal(&member.literal, out)?;
    Ok(())
}
