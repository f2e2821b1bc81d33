ghost use Rattle.std.specs.Prelude.{OnOk, map};
ghost use Rattle.lore_base.specs.Paths.{path_tree, path_trees, trees_of};
ghost use Rattle.lorel_ast.specs.Printing.{print_part, print_parts, print_alt, print_rooted};
ghost use Rattle.lorel_ast.specs.Printing.{print_labels};
ghost use Rattle.lorel_trees.specs.Trees.{rooted_tree};
ghost use Rattle.lorel_ast.specs.inside.Puts.{Puts};

use crate::token_writer::TokenWriter;
use lore_base::{NoMemory, OemText, Path, PathList, Pattern};
use lorel_tokens::Sign;
use lorel_trees::Rooted;

#[cycle(part)]
fn put_part(path: &Path, out: &mut TokenWriter) -> Result<(), NoMemory>
    ensures { OnOk result (Puts (print_part (path_tree path.now)) out.old out.new) }
{
    match path {
        Path::Step(Pattern::Plain(label)) => {
            out.symbol(Sign::Dot)?;
            out.label(label.as_bytes())?;
            Ok(())
        }
        Path::Step(Pattern::Wild(pattern)) => {
            out.symbol(Sign::Dot)?;
            out.pattern(pattern.as_bytes())?;
            Ok(())
        }
        Path::Any => {
            out.symbol(Sign::Dot)?;
            out.symbol(Sign::Hash)?;
            Ok(())
        }
        Path::Seq(parts) => {
            put_parts(parts, out)?;
            Ok(())
        }
        Path::Alt(parts) => {
            out.symbol(Sign::LeftParen)?;
            put_choices(parts, out)?;
            out.symbol(Sign::RightParen)?;
            Ok(())
        }
        Path::Opt(part) => {
            put_part(part, out)?;
            out.symbol(Sign::Question)?;
            Ok(())
        }
        Path::Star(part) => {
            put_part(part, out)?;
            out.symbol(Sign::Star)?;
            Ok(())
        }
        Path::Plus(part) => {
            put_part(part, out)?;
            out.symbol(Sign::Plus)?;
            Ok(())
        }
    }
}

// The parts one after another.
#[cycle(part)]
fn put_parts(parts: &PathList, out: &mut TokenWriter) -> Result<(), NoMemory>
    ensures { OnOk result (Puts (print_parts (trees_of (path_trees parts.now))) out.old out.new) }
{
    'parts: for part in parts.as_slice() {
        put_part(part, out)?;
    }
    Ok(())
}

// The parts with bars between them.
#[cycle(part)]
fn put_choices(parts: &PathList, out: &mut TokenWriter) -> Result<(), NoMemory>
    ensures { OnOk result (Puts (print_alt (trees_of (path_trees parts.now))) out.old out.new) }
{
    match parts.as_slice() {
        [] => Ok(()),
        [first, others @ ..] => {
            put_part(first, out)?;
            'others: for part in others {
                out.symbol(Sign::Bar)?;
                put_part(part, out)?;
            }
            Ok(())
        }
    }
}

/// A path with its start.
pub(crate) fn put_rooted(path: &Rooted, out: &mut TokenWriter) -> Result<(), NoMemory>
    ensures { OnOk result (Puts (print_rooted (rooted_tree path.now)) out.old out.new) }
{
    out.word(path.start.as_bytes())?;
    put_parts(&path.parts, out)?;
    Ok(())
}

/// The labels of a label path, each behind its dot.
pub(crate) fn put_labels(labels: &[OemText], out: &mut TokenWriter) -> Result<(), NoMemory>
    ensures { OnOk result (Puts (print_labels labels.now) out.old out.new) }
{
    'labels: for label in labels {
        out.symbol(Sign::Dot)?;
        out.label(label.as_bytes())?;
    }
    Ok(())
}
