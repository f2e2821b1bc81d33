ghost use Rattle.std.specs.Prelude.{◌≡◌, [], ◌∷◌, codes, IfOk, OnOk};
ghost use Rattle.lorel_tokens.specs.declared.token_types.Kind.TheVariants as k;
ghost use Rattle.lorel_tokens.specs.declared.token_types.Sign.TheVariants as s;
ghost use Rattle.lorel_trees.specs.Literals.{spell_value};
ghost use Rattle.lorel_lex.specs.Writing.{line_text};
ghost use Rattle.lorel_ast.specs.Printing as canon;
ghost use Rattle.lorel_trees.specs.Trees.{literal_tree, rooted_tree, tail_tree, statement_tree};
ghost use Rattle.lorel_trees.specs.Trees.{load, bind, assign, add_new, add_link, remove};
ghost use Rattle.lorel_trees.specs.Trees.{select_tree, select_at, watch};
ghost use Rattle.lorel_trees.specs.Statements.{switch_text};
ghost use Rattle.lorel_ast.specs.inside.Puts.{Puts, print_target, print_label_path};

use crate::print_dumps::{put_dump, put_mode};
use crate::print_literals::{put_literal, put_value};
use crate::print_paths::{put_labels, put_rooted};
use crate::print_selects::{put_select, put_tail};
use crate::token_writer::TokenWriter;
use lore_base::{NoMemory, OemText, Value};
use lorel_tokens::Sign;
use lorel_trees::{LabelPath, Literal, Rooted, Select, Statement, Tail};
use std::alloc::Global;

// A command and a name.
fn put_named(command: &[u8], name: &OemText, out: &mut TokenWriter) -> Result<(), NoMemory>
    ensures { OnOk result (Puts (λ rest. k.Word command.now ∷ k.Word name.now ∷ rest)
        out.old out.new) }
{
    out.word(command)?;
    out.word(name.as_bytes())?;
    Ok(())
}

// A command and two numbers.
fn put_pair(command: &[u8], first: i64, second: i64, out: &mut TokenWriter) -> Result<(), NoMemory>
    ensures { OnOk result (Puts (λ rest. k.Word command.now ∷ k.Number first ∷ k.Number second
        ∷ rest) out.old out.new) }
{
    out.word(command)?;
    out.number(first)?;
    out.number(second)?;
    Ok(())
}

// `command name :=`
fn put_bound(command: &[u8], name: &OemText, out: &mut TokenWriter) -> Result<(), NoMemory>
    ensures { OnOk result (Puts (λ rest. k.Word command.now ∷ k.Word name.now
        ∷ k.Symbol s.Assign ∷ rest) out.old out.new) }
{
    out.word(command)?;
    out.word(name.as_bytes())?;
    out.symbol(Sign::Assign)?;
    Ok(())
}

fn put_load(name: &OemText, literal: &Literal, out: &mut TokenWriter) -> Result<(), NoMemory>
    ensures { OnOk result (Puts (canon.print_statement (load name.now (literal_tree literal.now)))
        out.old out.new) }
{
    put_bound(b"load", name, out)?;
    put_literal(literal, out)?;
    Ok(())
}

fn put_name(name: &OemText, path: &Rooted, out: &mut TokenWriter) -> Result<(), NoMemory>
    ensures { OnOk result (Puts (canon.print_statement (bind name.now (rooted_tree path.now)))
        out.old out.new) }
{
    put_bound(b"name", name, out)?;
    put_rooted(path, out)?;
    Ok(())
}

fn put_update(target: &Rooted, out: &mut TokenWriter) -> Result<(), NoMemory>
    ensures { OnOk result (Puts (λ rest. k.Word (codes "update")
        ∷ canon.print_rooted (rooted_tree target.now) rest) out.old out.new) }
{
    out.word(b"update")?;
    put_rooted(target, out)?;
    Ok(())
}

fn put_new_value(value: &Value, out: &mut TokenWriter) -> Result<(), NoMemory>
    ensures { OnOk result (Puts (λ rest. k.Symbol s.Assign ∷ spell_value value.now rest)
        out.old out.new) }
{
    out.symbol(Sign::Assign)?;
    put_value(value, out)?;
    Ok(())
}

fn put_assign(
    target: &Rooted,
    value: &Value,
    tail: &Tail,
    out: &mut TokenWriter,
) -> Result<(), NoMemory>
    ensures { OnOk result (Puts (canon.print_statement
        (assign (rooted_tree target.now) value.now (tail_tree tail.now))) out.old out.new) }
{
    put_update(target, out)?;
    put_new_value(value, out)?;
    put_tail(tail, out)?;
    Ok(())
}

// `.label` and the sign behind it
fn put_aim(label: &OemText, sign: Sign, out: &mut TokenWriter) -> Result<(), NoMemory>
    ensures { OnOk result (Puts (λ rest. k.Symbol s.Dot
        ∷ canon.print_label label.now (k.Symbol sign ∷ rest)) out.old out.new) }
{
    out.symbol(Sign::Dot)?;
    out.label(label.as_bytes())?;
    out.symbol(sign)?;
    Ok(())
}

// `update path.label` and what is done there.
fn put_target(
    target: &Rooted,
    label: &OemText,
    sign: Sign,
    out: &mut TokenWriter,
) -> Result<(), NoMemory>
    ensures { OnOk result (Puts (print_target (rooted_tree target.now) label.now sign)
        out.old out.new) }
{
    put_update(target, out)?;
    put_aim(label, sign, out)?;
    Ok(())
}

fn put_add_new(
    target: &Rooted,
    label: &OemText,
    literal: &Literal,
    tail: &Tail,
    out: &mut TokenWriter,
) -> Result<(), NoMemory>
    ensures { OnOk result (Puts (canon.print_statement (add_new (rooted_tree target.now) label.now
        (literal_tree literal.now) (tail_tree tail.now))) out.old out.new) }
{
    put_target(target, label, Sign::PlusAssign, out)?;
    put_literal(literal, out)?;
    put_tail(tail, out)?;
    Ok(())
}

fn put_add_link(
    target: &Rooted,
    label: &OemText,
    right: &Rooted,
    tail: &Tail,
    out: &mut TokenWriter,
) -> Result<(), NoMemory>
    ensures { OnOk result (Puts (canon.print_statement (add_link (rooted_tree target.now) label.now
        (rooted_tree right.now) (tail_tree tail.now))) out.old out.new) }
{
    put_target(target, label, Sign::PlusAssign, out)?;
    put_rooted(right, out)?;
    put_tail(tail, out)?;
    Ok(())
}

fn put_remove(
    target: &Rooted,
    label: &OemText,
    right: &Rooted,
    tail: &Tail,
    out: &mut TokenWriter,
) -> Result<(), NoMemory>
    ensures { OnOk result (Puts (canon.print_statement (remove (rooted_tree target.now) label.now
        (rooted_tree right.now) (tail_tree tail.now))) out.old out.new) }
{
    put_target(target, label, Sign::MinusAssign, out)?;
    put_rooted(right, out)?;
    put_tail(tail, out)?;
    Ok(())
}

// A command, a start and the labels behind it.
fn put_label_path(command: &[u8], path: &LabelPath, out: &mut TokenWriter) -> Result<(), NoMemory>
    ensures { OnOk result (Puts (print_label_path command.now path.now.start path.now.labels)
        out.old out.new) }
{
    out.word(command)?;
    out.word(path.start.as_bytes())?;
    put_labels(path.labels.as_slice(), out)?;
    Ok(())
}

fn put_switch(on: bool, out: &mut TokenWriter) -> Result<(), NoMemory>
    ensures { OnOk result (Puts (λ rest. k.Word (switch_text on) ∷ rest) out.old out.new) }
{
    if on {
        out.word(b"on")
    } else {
        out.word(b"off")
    }
}

fn put_at(moment: i64, query: &Select, out: &mut TokenWriter) -> Result<(), NoMemory>
    ensures { OnOk result (Puts (canon.print_statement
        (select_at moment (select_tree query.now))) out.old out.new) }
{
    out.word(b"at")?;
    out.number(moment)?;
    put_select(query, out)?;
    Ok(())
}

fn put_watch(name: &OemText, query: &Select, out: &mut TokenWriter) -> Result<(), NoMemory>
    ensures { OnOk result (Puts (canon.print_statement (watch name.now (select_tree query.now)))
        out.old out.new) }
{
    put_bound(b"watch", name, out)?;
    put_select(query, out)?;
    Ok(())
}

fn put_statement(statement: &Statement, out: &mut TokenWriter) -> Result<(), NoMemory>
    ensures { OnOk result (Puts (canon.print_statement (statement_tree statement.now))
        out.old out.new) }
{
    match statement {
        Statement::Load { name, literal } => put_load(name, literal, out),
        Statement::Name { name, path } => put_name(name, path, out),
        Statement::Unname { name } => put_named(b"unname", name, out),
        Statement::Assign {
            target,
            value,
            tail,
        } => put_assign(target, value, tail, out),
        Statement::AddNew {
            target,
            label,
            literal,
            tail,
        } => put_add_new(target, label, literal, tail, out),
        Statement::AddLink {
            target,
            label,
            right,
            tail,
        } => put_add_link(target, label, right, tail, out),
        Statement::Remove {
            target,
            label,
            right,
            tail,
        } => put_remove(target, label, right, tail, out),
        Statement::Select(query) => put_select(query, out),
        Statement::Explain(query) => {
            out.word(b"explain")?;
            put_select(query, out)?;
            Ok(())
        }
        Statement::Guide => out.word(b"guide"),
        Statement::Browse(path) => put_label_path(b"browse", path, out),
        Statement::Sample(path, count) => {
            put_label_path(b"sample", path, out)?;
            out.number(*count)?;
            Ok(())
        }
        Statement::SetNodes(nodes) => {
            out.word(b"set")?;
            out.word(b"nodes")?;
            out.number(*nodes)?;
            Ok(())
        }
        Statement::SetPlan(mode) => {
            out.word(b"set")?;
            out.word(b"plan")?;
            put_mode(*mode, out)?;
            Ok(())
        }
        Statement::Dump => out.word(b"dump"),
        Statement::Restore(text) => {
            out.word(b"restore")?;
            put_dump(text, out)?;
            Ok(())
        }
        Statement::Generate(seed, count) => put_pair(b"generate", *seed, *count, out),
        Statement::History(on) => {
            out.word(b"history")?;
            put_switch(*on, out)?;
            Ok(())
        }
        Statement::At(moment, query) => put_at(*moment, query, out),
        Statement::ChangesList(first, last) => put_pair(b"changes", *first, *last, out),
        Statement::Blocks => out.word(b"blocks"),
        Statement::BlocksSelect(query) => {
            out.word(b"blocks")?;
            put_select(query, out)?;
            Ok(())
        }
        Statement::Watch { name, select } => put_watch(name, select, out),
        Statement::Unwatch(name) => put_named(b"unwatch", name, out),
        Statement::Show(name) => put_named(b"show", name, out),
    }
}

/// The statement as text: its canonical tokens with one space between, without a `;`.
///
/// Labels that are no identifiers stand in quotes, and conditions in parentheses only where they
/// need them. The text of a sound statement whose texts are UTF-8 is read back as the same
/// statement (the law `printed_statements` of `grammar_laws`).
pub fn print_statement(alloc: Global, statement: &Statement) -> Result<OemText, NoMemory>
    ensures { IfOk result (λ text.
        text ≡ line_text (canon.print_statement (statement_tree statement.now) [])) }
{
    let mut out = TokenWriter::new(alloc);
    put_statement(statement, &mut out)?;
    out.line(alloc)
}
