ghost use Rattle.std.specs.Prelude.{◌≡◌, ◌↔◌, ℕ, Bool, List, ℤ, IsTrue, IfSome, IfNone};
ghost use Rattle.std.specs.declared.cmp.Ordering.{Ordering as Order};
ghost use Rattle.lore_base.specs.Comparisons.{ReadsAs, ReadsAsFlag, flag_text, CompareAs};
ghost use Rattle.lore_base.specs.Comparisons.{Admits, IsTextOf, AreAlike, Compares};
ghost use Rattle.lore_base.specs.Wildcards.{IsLike};

use itoa::Buffer;
use lore_base::{OemText, Op, Value, is_like, read_whole};
use std::cmp::Ordering;

/// Whether the comparison holds. Two whole numbers compare as numbers, two texts by their bytes,
/// two flags with false before true; a whole number and a text as numbers where the text reads as
/// one, a flag and a text as flags where the text is `true` or `false`. What can't be compared so,
/// and whatever a complex value takes part in, is false under every operator, `!=` too. `like`
/// takes numbers as their decimal texts and flags as `true` or `false`. Takes no memory and copies
/// no text.
pub fn compare(a: &Value, op: Op, b: &Value) -> bool
    ensures { IsTrue result ↔ Compares a.now op b.now }
{
    if op == Op::Like {
        return are_alike(a, b);
    }
    match order_of(a, b) {
        Some(order) => admits(op, order),
        None => false,
    }
}

/// The number that a text reads as: one decimal digit or more, perhaps behind a minus. None exactly
/// where the text doesn't have that form or no i64 holds the number. Takes no memory.
pub fn as_whole(text: &OemText) -> Option<i64>
    ensures some { IfSome result (λ number. ReadsAs text.now number) }
    ensures none { IfNone result ((number : ℤ) → ¬ ReadsAs text.now number) }
{
    read_whole(text.as_bytes())
}

/// The flag that a text reads as: `true` or `false`, and no other. None exactly where the text is
/// neither. Takes no memory.
pub fn as_flag(text: &OemText) -> Option<bool>
    ensures some { IfSome result (λ flag. ReadsAsFlag text.now flag) }
    ensures none { IfNone result ((flag : Bool) → ¬ ReadsAsFlag text.now flag) }
{
    match text.as_bytes() {
        b"true" => Some(true),
        b"false" => Some(false),
        _ => None,
    }
}

// The text of a flag: `true` or `false`.
pub(crate) fn flag_text(flag: bool) -> &'static [u8]
    ensures { result.now ≡ flag_text flag }
{
    if flag { b"true" } else { b"false" }
}

/// Whether the text is like the pattern, in which every `%` stands for zero or more characters and
/// every `_` for exactly one. Takes no memory.
pub fn like(text: &OemText, pattern: &OemText) -> bool
    ensures { IsTrue result ↔ IsLike pattern.now text.now }
{
    is_like(pattern.as_bytes(), text.as_bytes())
}

// How two values compare; None exactly where they can't be compared.
fn order_of(a: &Value, b: &Value) -> Option<Ordering>
    ensures some { IfSome result (λ order. CompareAs a.now b.now order) }
    ensures none { IfNone result ((order : Order) → ¬ CompareAs a.now b.now order) }
{
    match (a, b) {
        (Value::Whole(a), Value::Whole(b)) => Some(a.cmp(b)),
        (Value::Chars(a), Value::Chars(b)) => Some(a.as_bytes().cmp(b.as_bytes())),
        (Value::Whole(a), Value::Chars(b)) => Some(a.cmp(&as_whole(b)?)),
        (Value::Chars(a), Value::Whole(b)) => Some(as_whole(a)?.cmp(b)),
        (Value::Flag(a), Value::Flag(b)) => Some(a.cmp(b)),
        (Value::Flag(a), Value::Chars(b)) => Some(a.cmp(&as_flag(b)?)),
        (Value::Chars(a), Value::Flag(b)) => Some(as_flag(a)?.cmp(b)),
        _ => None,
    }
}

// Whether the operator holds of values in this order.
fn admits(op: Op, order: Ordering) -> bool
    ensures { IsTrue result ↔ Admits op order }
{
    match op {
        Op::Eq => order == Ordering::Equal,
        Op::Ne => order != Ordering::Equal,
        Op::Lt => order == Ordering::Less,
        Op::Le => order != Ordering::Greater,
        Op::Gt => order == Ordering::Greater,
        Op::Ge => order != Ordering::Less,
        Op::Like => false,
    }
}

// Whether both values are atoms and the text of the one is like that of the other.
fn are_alike(a: &Value, b: &Value) -> bool
    ensures { IsTrue result ↔ AreAlike a.now b.now }
{
    let mut digits = Buffer::new();
    let mut more_digits = Buffer::new();
    let Some(text) = text_of(a, &mut digits) else {
        return false;
    };
    let Some(pattern) = text_of(b, &mut more_digits) else {
        return false;
    };
    is_like(pattern, text)
}

// The text of an atom, by way of a buffer for the digits of a number; None exactly where the value
// is no atom.
fn text_of<'a>(value: &'a Value, digits: &'a mut Buffer) -> Option<&'a [u8]>
    ensures some { IfSome result (λ text. IsTextOf text.now value.now) }
    ensures none { IfNone result ((text : List ℕ) → ¬ IsTextOf text value.now) }
{
    match value {
        Value::Whole(number) => Some(digits.format(*number).as_bytes()),
        Value::Chars(text) => Some(text.as_bytes()),
        Value::Flag(flag) => Some(flag_text(*flag)),
        Value::Complex => None,
    }
}
