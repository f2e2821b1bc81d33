ghost use Rattle.std.specs.Prelude.{◌≡◌};
ghost use Rattle.lorel_trees.specs.Trees.{literal_tree, member_tree, member_trees};
ghost use Rattle.lorel_terms.specs.Literals as spec;
ghost use Rattle.lorel_terms.specs.Outcomes.{Reads};

use crate::cursor::Cursor;
use crate::faults::ParseFault;
use crate::names::{atom, label, sees_atom};
use lore_base::Value;
use lorel_tokens::{Kind, Sign};
use lorel_trees::{Literal, Member, MemberList};
use std::alloc::Global;

/// The local that stands next.
#[tactic(auto, unfolding(crate::specs::Literals::local))]
pub fn local(tokens: &mut Cursor<'_>) -> Result<u32, ParseFault>
    ensures { Reads (λ id. id) (spec.local tokens.old) result tokens.new }
{
    match tokens.take()? {
        Kind::Local(id) => Ok(*id),
        _ => Err(ParseFault::Syntax),
    }
}

/// An atom, or `{ }`, which stands for a complex object without members.
#[tactic(auto, unfolding(crate::specs::Literals::new_value))]
pub fn new_value(alloc: Global, tokens: &mut Cursor<'_>) -> Result<Value, ParseFault>
    ensures { Reads (λ value. value) (spec.new_value tokens.old) result tokens.new }
{
    if tokens.eat(Sign::LeftBrace) {
        tokens.expect(Sign::RightBrace)?;
        return Ok(Value::Complex);
    }
    atom(alloc, tokens)
}

#[tactic(auto, unfolding(crate::specs::Literals::sees_local))]
fn sees_local(tokens: &Cursor<'_>) -> bool
    ensures { result ≡ spec.sees_local tokens.now }
{
    matches!(tokens.peek(), Some(Kind::Local(_)))
}

// Whether a brace or an atom stands next.
#[tactic(auto, unfolding(crate::specs::Literals::sees_value))]
fn sees_value(tokens: &Cursor<'_>) -> bool
    ensures { result ≡ spec.sees_value tokens.now }
{
    tokens.sees(Sign::LeftBrace) || sees_atom(tokens)
}

/// A literal whose braces nest at most `depth` levels.
#[cycle(literal)]
#[tactic(auto, unfolding(crate::specs::Literals::literal))]
pub fn literal(alloc: Global, tokens: &mut Cursor<'_>, depth: u32) -> Result<Literal, ParseFault>
    ensures { Reads literal_tree (spec.literal (spec.inside depth) tokens.old) result tokens.new }
{
    if !sees_local(tokens) {
        return valued(alloc, tokens, depth, None);
    }
    let id = local(tokens)?;
    if sees_value(tokens) {
        return valued(alloc, tokens, depth, Some(id));
    }
    Ok(Literal::Local(id))
}

// What stands behind a mark, or without one.
#[cycle(literal)]
#[tactic(auto, unfolding(crate::specs::Literals::valued))]
fn valued(
    alloc: Global,
    tokens: &mut Cursor<'_>,
    depth: u32,
    mark: Option<u32>,
) -> Result<Literal, ParseFault>
    ensures { let outcome = spec.valued (spec.inside depth) mark tokens.old in
        Reads literal_tree outcome result tokens.new }
{
    if tokens.eat(Sign::LeftBrace) {
        let members = inside(alloc, tokens, depth)?;
        return Ok(Literal::Node {
            local: mark,
            members,
        });
    }
    let value = atom(alloc, tokens)?;
    Ok(Literal::Atom { local: mark, value })
}

// What stands behind an opening brace, up to its closing brace.
#[cycle(literal)]
#[tactic(auto, unfolding(crate::specs::Literals::inside))]
fn inside(alloc: Global, tokens: &mut Cursor<'_>, depth: u32) -> Result<MemberList, ParseFault>
    ensures { Reads member_trees (spec.inside depth tokens.old) result tokens.new }
{
    if depth == 0 {
        return Err(ParseFault::Syntax);
    }
    members(alloc, tokens, depth - 1)
}

#[cycle(literal)]
#[tactic(auto, unfolding(crate::specs::Literals::members))]
fn members(alloc: Global, tokens: &mut Cursor<'_>, depth: u32) -> Result<MemberList, ParseFault>
    ensures { Reads member_trees (spec.members (spec.inside depth) tokens.old) result tokens.new }
{
    let mut first = MemberList::new(alloc);
    if tokens.eat(Sign::RightBrace) {
        return Ok(first);
    }
    first.push(member(alloc, tokens, depth)?)?;
    let all = more_members(alloc, tokens, depth, first)?;
    tokens.expect(Sign::RightBrace)?;
    Ok(all)
}

// Each turn of the loop takes a token, so that there are turns enough.
#[cycle(literal)]
#[tactic(auto, unfolding(crate::specs::Literals::more_members, crate::specs::Repetitions::each, crate::specs::Repetitions::each_in))]
fn more_members(
    alloc: Global,
    tokens: &mut Cursor<'_>,
    depth: u32,
    mut members: MemberList,
) -> Result<MemberList, ParseFault>
    ensures { let before = member_trees members in
        Reads member_trees (spec.more_members (spec.inside depth) before tokens.old)
        result tokens.new }
{
    'turns: for _turn in 0..tokens.len() {
        if !tokens.eat(Sign::Comma) {
            return Ok(members);
        }
        members.push(member(alloc, tokens, depth)?)?;
    }
    Ok(members)
}

#[cycle(literal)]
#[tactic(auto, unfolding(crate::specs::Literals::member))]
fn member(alloc: Global, tokens: &mut Cursor<'_>, depth: u32) -> Result<Member, ParseFault>
    ensures { Reads member_tree (spec.member (spec.inside depth) tokens.old) result tokens.new }
{
    let label = label(alloc, tokens)?;
    let literal = literal(alloc, tokens, depth)?;
    Ok(Member { label, literal })
}
