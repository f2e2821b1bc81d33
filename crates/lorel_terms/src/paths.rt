ghost use Rattle.std.specs.Prelude.{◌≡◌, List};
ghost use Rattle.lore_base.specs.Paths.{path_tree, path_trees};
ghost use Rattle.lorel_trees.specs.Trees.{rooted_tree};
ghost use Rattle.lorel_terms.specs.Paths as spec;
ghost use Rattle.lorel_terms.specs.Outcomes.{Reads, Makes};

use crate::cursor::Cursor;
use crate::faults::ParseFault;
use crate::names::name;
use lore_base::{Path, PathList, Pattern, TryCopy};
use lorel_tokens::{Kind, Sign};
use lorel_trees::Rooted;
use std::alloc::Global;

/// A path: its start and its parts. Its groups nest at most `depth` levels.
#[tactic(auto, unfolding(crate::specs::Paths::rooted))]
pub fn rooted(alloc: Global, tokens: &mut Cursor<'_>, depth: u32) -> Result<Rooted, ParseFault>
    ensures { Reads rooted_tree (spec.rooted depth tokens.old) result tokens.new }
{
    let start = name(alloc, tokens)?;
    let parts = parts(alloc, tokens, depth, PathList::new(alloc))?;
    Ok(Rooted { start, parts })
}

// The parts that stand here, behind those that were found.
#[cycle(path)]
#[tactic(auto, unfolding(crate::specs::Paths::parts, crate::specs::Paths::parts_from))]
fn parts(
    alloc: Global,
    tokens: &mut Cursor<'_>,
    depth: u32,
    mut found: PathList,
) -> Result<PathList, ParseFault>
    ensures { let before = path_trees found in
        Reads path_trees (spec.parts (spec.inside depth) before tokens.old) result tokens.new }
{
    // Each turn takes a token, so that there are turns enough.
    'parts: for _turn in 0..tokens.len() {
        if !begins_part(tokens) {
            return Ok(found);
        }
        found.push(part(alloc, tokens, depth)?)?;
    }
    Ok(found)
}

#[tactic(auto, unfolding(crate::specs::Paths::begins_part))]
fn begins_part(tokens: &Cursor<'_>) -> bool
    ensures { result ≡ spec.begins_part tokens.now }
{
    tokens.sees(Sign::Dot) || tokens.sees(Sign::LeftParen)
}

#[cycle(path)]
#[tactic(auto, unfolding(crate::specs::Paths::part))]
fn part(alloc: Global, tokens: &mut Cursor<'_>, depth: u32) -> Result<Path, ParseFault>
    ensures { Reads path_tree (spec.part (spec.inside depth) tokens.old) result tokens.new }
{
    let base = base(alloc, tokens, depth)?;
    repeated(alloc, tokens, base)
}

// The part, with the mark that may stand behind it.
#[tactic(auto, unfolding(crate::specs::Paths::repeated))]
fn repeated(alloc: Global, tokens: &mut Cursor<'_>, base: Path) -> Result<Path, ParseFault>
    ensures { Reads path_tree (spec.repeated (path_tree base) tokens.old) result tokens.new }
{
    if tokens.eat(Sign::Question) {
        return Ok(Path::Opt(boxed(alloc, base)?));
    }
    if tokens.eat(Sign::Star) {
        return Ok(Path::Star(boxed(alloc, base)?));
    }
    if tokens.eat(Sign::Plus) {
        return Ok(Path::Plus(boxed(alloc, base)?));
    }
    Ok(base)
}

fn boxed(alloc: Global, base: Path) -> Result<Box<Path>, ParseFault>
    ensures { Makes (λ boxed. path_tree boxed.value) (path_tree base) result }
{
    Ok(Box::new(alloc, base)?)
}

#[cycle(path)]
#[tactic(auto, unfolding(crate::specs::Paths::base))]
fn base(alloc: Global, tokens: &mut Cursor<'_>, depth: u32) -> Result<Path, ParseFault>
    ensures { Reads path_tree (spec.base (spec.inside depth) tokens.old) result tokens.new }
{
    if tokens.eat(Sign::Dot) {
        return step(alloc, tokens);
    }
    tokens.expect(Sign::LeftParen)?;
    Ok(Path::Alt(inside(alloc, tokens, depth)?))
}

// What stands behind a dot.
#[tactic(auto, unfolding(crate::specs::Paths::one_step))]
fn step(alloc: Global, tokens: &mut Cursor<'_>) -> Result<Path, ParseFault>
    ensures { Reads path_tree (spec.one_step tokens.old) result tokens.new }
{
    if tokens.eat(Sign::Hash) {
        return Ok(Path::Any);
    }
    match tokens.take()? {
        Kind::Word(text) | Kind::Quoted(text) => {
            Ok(Path::Step(Pattern::Plain(text.try_copy(alloc)?)))
        }
        Kind::Wild(text) => Ok(Path::Step(Pattern::Wild(text.try_copy(alloc)?))),
        _ => Err(ParseFault::Syntax),
    }
}

// A group behind its opening parenthesis, up to its closing one.
#[cycle(path)]
#[tactic(auto, unfolding(crate::specs::Paths::inside))]
fn inside(alloc: Global, tokens: &mut Cursor<'_>, depth: u32) -> Result<PathList, ParseFault>
    ensures { Reads path_trees (spec.inside depth tokens.old) result tokens.new }
{
    if depth == 0 {
        return Err(ParseFault::Syntax);
    }
    choices(alloc, tokens, depth - 1)
}

#[cycle(path)]
#[tactic(auto, unfolding(crate::specs::Paths::choices))]
fn choices(alloc: Global, tokens: &mut Cursor<'_>, depth: u32) -> Result<PathList, ParseFault>
    ensures { Reads path_trees (spec.choices (spec.inside depth) tokens.old) result tokens.new }
{
    let mut found = PathList::new(alloc);
    found.push(sequence(alloc, tokens, depth)?)?;
    let found = more_choices(alloc, tokens, depth, found)?;
    tokens.expect(Sign::RightParen)?;
    Ok(found)
}

// The sequences behind bars, behind those that were found.
#[cycle(path)]
#[tactic(auto, unfolding(crate::specs::Paths::more_choices, crate::specs::Paths::choices_from))]
fn more_choices(
    alloc: Global,
    tokens: &mut Cursor<'_>,
    depth: u32,
    mut found: PathList,
) -> Result<PathList, ParseFault>
    ensures { let before = path_trees found in let group = spec.inside depth in
        Reads path_trees (spec.more_choices group before tokens.old) result tokens.new }
{
    // Each turn takes a token, so that there are turns enough.
    'choices: for _turn in 0..tokens.len() {
        if !tokens.eat(Sign::Bar) {
            return Ok(found);
        }
        found.push(sequence(alloc, tokens, depth)?)?;
    }
    Ok(found)
}

// One part or more, one after another.
#[cycle(path)]
#[tactic(auto, unfolding(crate::specs::Paths::sequence))]
fn sequence(alloc: Global, tokens: &mut Cursor<'_>, depth: u32) -> Result<Path, ParseFault>
    ensures { Reads path_tree (spec.sequence (spec.inside depth) tokens.old) result tokens.new }
{
    let mut found = PathList::new(alloc);
    found.push(part(alloc, tokens, depth)?)?;
    Ok(Path::Seq(parts(alloc, tokens, depth, found)?))
}
