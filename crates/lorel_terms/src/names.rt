ghost use Rattle.std.specs.Prelude.{◌≡◌};
ghost use Rattle.lorel_trees.specs.Literals.{is_atom_kind, flag_of as written_flag};
ghost use Rattle.lorel_terms.specs.Names as spec;
ghost use Rattle.lorel_terms.specs.Outcomes.{Reads};

use crate::cursor::Cursor;
use crate::faults::ParseFault;
use lore_base::{OemText, TryCopy, Value, is_reserved};
use lorel_tokens::Kind;
use std::alloc::Global;

/// A name: an identifier that isn't reserved.
#[tactic(auto, unfolding(crate::specs::Names::name))]
pub fn name(alloc: Global, tokens: &mut Cursor<'_>) -> Result<OemText, ParseFault>
    ensures { Reads (λ text. text) (spec.name tokens.old) result tokens.new }
{
    match tokens.take()? {
        Kind::Word(text) => {
            if is_reserved(text.as_bytes()) {
                return Err(ParseFault::Syntax);
            }
            Ok(text.try_copy(alloc)?)
        }
        _ => Err(ParseFault::Syntax),
    }
}

/// Whether an identifier stands next that isn't reserved.
#[tactic(auto, unfolding(crate::specs::Names::sees_name))]
pub fn sees_name(tokens: &Cursor<'_>) -> bool
    ensures { result ≡ spec.sees_name tokens.now }
{
    match tokens.peek() {
        Some(Kind::Word(text)) => !is_reserved(text.as_bytes()),
        _ => false,
    }
}

/// A label: an identifier, reserved or not, or a quoted label.
#[tactic(auto, unfolding(crate::specs::Names::label))]
pub fn label(alloc: Global, tokens: &mut Cursor<'_>) -> Result<OemText, ParseFault>
    ensures { Reads (λ text. text) (spec.label tokens.old) result tokens.new }
{
    match tokens.take()? {
        Kind::Word(text) | Kind::Quoted(text) => Ok(text.try_copy(alloc)?),
        _ => Err(ParseFault::Syntax),
    }
}

// The flag that a word writes.
fn flag_of(word: &[u8]) -> Option<bool>
    ensures { result ≡ written_flag word.now }
{
    if word == b"true".as_slice() {
        return Some(true);
    }
    if word == b"false".as_slice() {
        return Some(false);
    }
    None
}

// Whether the token is an atom. Nothing else in the parser decides it.
fn is_atom(kind: &Kind) -> bool
    ensures { result ≡ is_atom_kind kind.now }
{
    match kind {
        Kind::Number(_) | Kind::Chars(_) => true,
        Kind::Word(word) => matches!(flag_of(word.as_bytes()), Some(_)),
        _ => false,
    }
}

/// Whether an atom stands next.
#[tactic(auto, unfolding(crate::specs::Names::sees_atom))]
pub(crate) fn sees_atom(tokens: &Cursor<'_>) -> bool
    ensures { result ≡ spec.sees_atom tokens.now }
{
    match tokens.peek() {
        Some(kind) => is_atom(kind),
        None => false,
    }
}

/// A number, a text or a flag.
#[tactic(auto, unfolding(crate::specs::Names::atom))]
pub(crate) fn atom(alloc: Global, tokens: &mut Cursor<'_>) -> Result<Value, ParseFault>
    ensures { Reads (λ value. value) (spec.atom tokens.old) result tokens.new }
{
    match tokens.take()? {
        Kind::Number(number) => Ok(Value::Whole(*number)),
        Kind::Chars(text) => Ok(Value::Chars(text.try_copy(alloc)?)),
        Kind::Word(word) => {
            let Some(flag) = flag_of(word.as_bytes()) else {
                return Err(ParseFault::Syntax);
            };
            Ok(Value::Flag(flag))
        }
        _ => Err(ParseFault::Syntax),
    }
}
