ghost use Rattle.std.specs.Prelude.{◌≡◌, [], ◌∷◌, codes};
ghost use Rattle.lorel_trees.specs.Trees as t;
ghost use Rattle.lorel_trees.specs.Trees.{rooted_tree, operand_tree, cond_tree, cond_trees};
ghost use Rattle.lorel_terms.specs.Conditions as spec;
ghost use Rattle.lorel_terms.specs.Conditions.{unary, conj};
ghost use Rattle.lorel_terms.specs.Outcomes.{Reads, Finds, Makes};

use crate::cursor::Cursor;
use crate::faults::ParseFault;
use crate::names::{atom, name, sees_atom};
use crate::paths::rooted;
use lore_base::{OemText, Op};
use lorel_tokens::{Kind, Sign};
use lorel_trees::{Cond, CondList, Operand, Rooted};
use std::alloc::Global;

/// A condition that nests at most `depth` levels.
#[cycle(condition)]
#[tactic(auto, unfolding(crate::specs::Conditions::list))]
pub(crate) fn condition(
    alloc: Global,
    tokens: &mut Cursor<'_>,
    depth: u32,
) -> Result<Cond, ParseFault>
    ensures { Reads cond_tree (spec.cond (unary depth) tokens.old) result tokens.new }
{
    let first = conjunction(alloc, tokens, depth)?;
    if !tokens.eat_word(b"or") {
        return Ok(first);
    }
    let found = pair(alloc, first, conjunction(alloc, tokens, depth)?)?;
    Ok(Cond::Or(more_conjunctions(alloc, tokens, depth, found)?))
}

// Each condition behind an `or`, behind those that were found.
#[cycle(condition)]
#[tactic(auto, unfolding(crate::specs::Conditions::others, crate::specs::Conditions::others_from))]
fn more_conjunctions(
    alloc: Global,
    tokens: &mut Cursor<'_>,
    depth: u32,
    mut found: CondList,
) -> Result<CondList, ParseFault>
    ensures { let before = cond_trees found in let item = conj (unary depth) in
        Reads cond_trees (spec.others (codes "or") item before tokens.old) result tokens.new }
{
    // Each turn takes a token, so that there are turns enough.
    'conjunctions: for _turn in 0..tokens.len() {
        if !tokens.eat_word(b"or") {
            return Ok(found);
        }
        found.push(conjunction(alloc, tokens, depth)?)?;
    }
    Ok(found)
}

#[cycle(condition)]
#[tactic(auto, unfolding(crate::specs::Conditions::list))]
fn conjunction(alloc: Global, tokens: &mut Cursor<'_>, depth: u32) -> Result<Cond, ParseFault>
    ensures { Reads cond_tree (spec.conj (unary depth) tokens.old) result tokens.new }
{
    let first = single(alloc, tokens, depth)?;
    if !tokens.eat_word(b"and") {
        return Ok(first);
    }
    let found = pair(alloc, first, single(alloc, tokens, depth)?)?;
    Ok(Cond::And(more_singles(alloc, tokens, depth, found)?))
}

fn pair(alloc: Global, first: Cond, second: Cond) -> Result<CondList, ParseFault>
    ensures { Makes cond_trees (cond_tree first ∷ cond_tree second ∷ []) result }
{
    let mut both = CondList::new(alloc);
    both.push(first)?;
    both.push(second)?;
    Ok(both)
}

// Each condition behind an `and`, behind those that were found.
#[cycle(condition)]
#[tactic(auto, unfolding(crate::specs::Conditions::others, crate::specs::Conditions::others_from))]
fn more_singles(
    alloc: Global,
    tokens: &mut Cursor<'_>,
    depth: u32,
    mut found: CondList,
) -> Result<CondList, ParseFault>
    ensures { let before = cond_trees found in let item = unary depth in
        Reads cond_trees (spec.others (codes "and") item before tokens.old) result tokens.new }
{
    // Each turn takes a token, so that there are turns enough.
    'singles: for _turn in 0..tokens.len() {
        if !tokens.eat_word(b"and") {
            return Ok(found);
        }
        found.push(single(alloc, tokens, depth)?)?;
    }
    Ok(found)
}

// A condition without an `and` or `or` outside parentheses.
#[cycle(condition)]
#[tactic(auto, unfolding(crate::specs::Conditions::unary_by))]
fn single(alloc: Global, tokens: &mut Cursor<'_>, depth: u32) -> Result<Cond, ParseFault>
    ensures { Reads cond_tree (spec.unary depth tokens.old) result tokens.new }
{
    if tokens.eat_word(b"not") {
        return negation(alloc, enclosed(alloc, tokens, depth)?);
    }
    if tokens.eat(Sign::LeftParen) {
        let inner = enclosed_condition(alloc, tokens, depth)?;
        return closed(tokens, inner);
    }
    if tokens.eat_word(b"exists") {
        return existence(alloc, quantified(alloc, tokens, depth)?);
    }
    if tokens.eat_word(b"for") {
        tokens.expect_word(b"all")?;
        return generality(alloc, quantified(alloc, tokens, depth)?);
    }
    comparison(alloc, tokens, depth)
}

// What is made of a condition stands in functions of its own: each lets go of what it was given
// where it fails, and `single` holds nothing.

fn negation(alloc: Global, body: Cond) -> Result<Cond, ParseFault>
    ensures { Makes cond_tree (t.not (cond_tree body)) result }
{
    Ok(Cond::Not(Box::new(alloc, body)?))
}

// The condition in parentheses, up to the closing one.
#[tactic(auto, unfolding(crate::specs::Outcomes::expect))]
fn closed(tokens: &mut Cursor<'_>, inner: Cond) -> Result<Cond, ParseFault>
    ensures { let outcome = spec.closed (cond_tree inner) tokens.old in
        Reads cond_tree outcome result tokens.new }
{
    if tokens.eat(Sign::RightParen) {
        return Ok(inner);
    }
    // A drop that is written out is proved once; else it is proved in this function, at length.
    drop(inner);
    Err(ParseFault::Syntax)
}

// The variable, the path and the body of a quantifier.
type Quantified = (OemText, Rooted, Cond);

fn existence(alloc: Global, over: Quantified) -> Result<Cond, ParseFault>
    ensures { let tree = t.exists over.0 (rooted_tree over.1) (cond_tree over.2) in
        Makes cond_tree tree result }
{
    let (variable, path, body) = over;
    let body = Box::new(alloc, body)?;
    Ok(Cond::Exists {
        variable,
        path,
        body,
    })
}

fn generality(alloc: Global, over: Quantified) -> Result<Cond, ParseFault>
    ensures { let tree = t.for_all over.0 (rooted_tree over.1) (cond_tree over.2) in
        Makes cond_tree tree result }
{
    let (variable, path, body) = over;
    let body = Box::new(alloc, body)?;
    Ok(Cond::ForAll {
        variable,
        path,
        body,
    })
}

// What stands behind `exists` or `for all`.
#[cycle(condition)]
#[tactic(auto, unfolding(crate::specs::Conditions::quantified))]
fn quantified(alloc: Global, tokens: &mut Cursor<'_>, depth: u32) -> Result<Quantified, ParseFault>
    ensures { let outcome = spec.quantified depth (spec.enclosed depth) tokens.old in
        Reads (λ q. (q.0, rooted_tree q.1, cond_tree q.2)) outcome result tokens.new }
{
    let variable = name(alloc, tokens)?;
    tokens.expect_word(b"in")?;
    let path = enclosed_path(alloc, tokens, depth)?;
    tokens.expect(Sign::Colon)?;
    let body = enclosed(alloc, tokens, depth)?;
    Ok((variable, path, body))
}

#[tactic(auto, unfolding(crate::specs::Conditions::enclosed_path))]
fn enclosed_path(alloc: Global, tokens: &mut Cursor<'_>, depth: u32) -> Result<Rooted, ParseFault>
    ensures { Reads rooted_tree (spec.enclosed_path depth tokens.old) result tokens.new }
{
    if depth == 0 {
        return Err(ParseFault::Syntax);
    }
    rooted(alloc, tokens, depth - 1)
}

#[cycle(condition)]
#[tactic(auto, unfolding(crate::specs::Conditions::enclosed))]
fn enclosed(alloc: Global, tokens: &mut Cursor<'_>, depth: u32) -> Result<Cond, ParseFault>
    ensures { Reads cond_tree (spec.enclosed depth tokens.old) result tokens.new }
{
    if depth == 0 {
        return Err(ParseFault::Syntax);
    }
    single(alloc, tokens, depth - 1)
}

#[cycle(condition)]
#[tactic(auto, unfolding(crate::specs::Conditions::enclosed))]
fn enclosed_condition(
    alloc: Global,
    tokens: &mut Cursor<'_>,
    depth: u32,
) -> Result<Cond, ParseFault>
    ensures { let body = spec.enclosed depth in
        Reads cond_tree (spec.cond body tokens.old) result tokens.new }
{
    if depth == 0 {
        return Err(ParseFault::Syntax);
    }
    condition(alloc, tokens, depth - 1)
}

#[tactic(auto, unfolding(crate::specs::Conditions::comparison))]
fn comparison(alloc: Global, tokens: &mut Cursor<'_>, depth: u32) -> Result<Cond, ParseFault>
    ensures { Reads cond_tree (spec.comparison depth tokens.old) result tokens.new }
{
    let left = operand(alloc, tokens, depth)?;
    behind_left(alloc, tokens, depth, left)
}

// What may stand behind the left side: `==` behind a path, or an operator.
#[tactic(auto, unfolding(crate::specs::Conditions::behind_left, crate::specs::Conditions::same_as))]
fn behind_left(
    alloc: Global,
    tokens: &mut Cursor<'_>,
    depth: u32,
    left: Operand,
) -> Result<Cond, ParseFault>
    ensures { let outcome = spec.behind_left depth (operand_tree left) tokens.old in
        Reads cond_tree outcome result tokens.new }
{
    match left {
        Operand::Atom(value) => compared(alloc, tokens, depth, Operand::Atom(value)),
        Operand::At(path) => {
            if tokens.eat(Sign::SameAs) {
                let right = rooted(alloc, tokens, depth)?;
                return Ok(Cond::Same { left: path, right });
            }
            compared(alloc, tokens, depth, Operand::At(path))
        }
    }
}

#[tactic(auto, unfolding(crate::specs::Conditions::compared))]
fn compared(
    alloc: Global,
    tokens: &mut Cursor<'_>,
    depth: u32,
    left: Operand,
) -> Result<Cond, ParseFault>
    ensures { let outcome = spec.compared depth (operand_tree left) tokens.old in
        Reads cond_tree outcome result tokens.new }
{
    let op = operator(tokens)?;
    let right = operand(alloc, tokens, depth)?;
    Ok(Cond::Compare { left, op, right })
}

#[tactic(auto, unfolding(crate::specs::Conditions::op))]
fn operator(tokens: &mut Cursor<'_>) -> Result<Op, ParseFault>
    ensures { Reads (λ op. op) (spec.op tokens.old) result tokens.new }
{
    if tokens.eat_word(b"like") {
        return Ok(Op::Like);
    }
    match tokens.take()? {
        Kind::Symbol(sign) => sign_op(*sign),
        _ => Err(ParseFault::Syntax),
    }
}

// The operator that a symbol stands for.
fn sign_op(sign: Sign) -> Result<Op, ParseFault>
    ensures { Finds (λ op. op) (spec.sign_op sign) result }
{
    match sign {
        Sign::Equal => Ok(Op::Eq),
        Sign::NotEqual => Ok(Op::Ne),
        Sign::Less => Ok(Op::Lt),
        Sign::LessEqual => Ok(Op::Le),
        Sign::Greater => Ok(Op::Gt),
        Sign::GreaterEqual => Ok(Op::Ge),
        _ => Err(ParseFault::Syntax),
    }
}

#[tactic(auto, unfolding(crate::specs::Conditions::operand))]
fn operand(alloc: Global, tokens: &mut Cursor<'_>, depth: u32) -> Result<Operand, ParseFault>
    ensures { Reads operand_tree (spec.operand depth tokens.old) result tokens.new }
{
    if sees_atom(tokens) {
        return Ok(Operand::Atom(atom(alloc, tokens)?));
    }
    Ok(Operand::At(rooted(alloc, tokens, depth)?))
}
