ghost use Rattle.std.specs.Prelude.{◌≡◌};
ghost use Rattle.std.specs.Option.{option_copied};
ghost use Rattle.value_orders.specs.Kinds.{is_whole, is_text, is_flag, is_of, is_sought};
ghost use Rattle.value_orders.specs.Kinds.{number_in, text_in, flag_in};
ghost use Rattle.value_orders.specs.Kinds.{number_cmp, text_cmp, flag_cmp, value_cmp};
ghost use Rattle.value_orders.specs.inside.Ranks.{flag_number, flag_rank};

use crate::kind::Kind;
use lore_base::{OemText, Value};
use oem_atom::{as_flag, as_whole};
use std::cmp::Ordering;

/// Whether the value is of the kind: is a whole number, a text or a flag, or is a text that reads
/// as a whole number or a flag. A complex value is of none.
pub fn is_of(kind: Kind, value: &Value) -> bool
    ensures { result ≡ is_of kind value.now }
{
    match kind {
        Kind::Wholes => is_whole(value),
        Kind::Texts => is_text(value),
        Kind::Flags => is_flag(value),
        Kind::Readings => is_text(value) && number_of(value).is_some(),
        Kind::FlagReadings => is_text(value) && flag_of(value).is_some(),
    }
}

/// Whether values of the kind are compared with this one: numbers with what is or reads as one,
/// texts with texts, flags with what is or reads as one, and texts that read so with numbers and
/// flags alone.
pub fn is_sought(kind: Kind, value: &Value) -> bool
    ensures { result ≡ is_sought kind value.now }
{
    match kind {
        Kind::Wholes => number_of(value).is_some(),
        Kind::Texts => is_text(value),
        Kind::Flags => flag_of(value).is_some(),
        Kind::Readings => is_whole(value),
        Kind::FlagReadings => is_flag(value),
    }
}

// How two values stand in the order of the kind.
pub(crate) fn compare_values(kind: Kind, a: &Value, b: &Value) -> Ordering
    ensures { result ≡ value_cmp kind a.now b.now }
{
    match kind {
        Kind::Wholes => compare_numbers(a, b),
        Kind::Texts => compare_texts(a, b),
        Kind::Flags => compare_flags(a, b),
        Kind::Readings => compare_numbers(a, b),
        Kind::FlagReadings => compare_flags(a, b),
    }
}

// How the numbers stand that the values are or read as.
fn compare_numbers(a: &Value, b: &Value) -> Ordering
    ensures { result ≡ number_cmp a.now b.now }
{
    match (a, b) {
        (Value::Whole(a), Value::Whole(b)) => a.cmp(b),
        _ => number_of(a).cmp(&number_of(b)),
    }
}

// How the texts stand that the values are.
fn compare_texts(a: &Value, b: &Value) -> Ordering
    ensures { result ≡ text_cmp a.now b.now }
{
    match (text_of(a), text_of(b)) {
        (Some(a), Some(b)) => a.cmp(b),
        (Some(_), None) => Ordering::Greater,
        (None, Some(_)) => Ordering::Less,
        (None, None) => Ordering::Equal,
    }
}

// How the flags stand that the values are or read as.
fn compare_flags(a: &Value, b: &Value) -> Ordering
    ensures { result ≡ flag_cmp a.now b.now }
{
    flag_of(a).cmp(&flag_of(b))
}

fn is_whole(value: &Value) -> bool
    ensures { result ≡ is_whole value.now }
{
    match value {
        Value::Whole(_) => true,
        Value::Chars(_) => false,
        Value::Flag(_) => false,
        Value::Complex => false,
    }
}

fn is_text(value: &Value) -> bool
    ensures { result ≡ is_text value.now }
{
    match value {
        Value::Whole(_) => false,
        Value::Chars(_) => true,
        Value::Flag(_) => false,
        Value::Complex => false,
    }
}

fn is_flag(value: &Value) -> bool
    ensures { result ≡ is_flag value.now }
{
    match value {
        Value::Whole(_) => false,
        Value::Chars(_) => false,
        Value::Flag(_) => true,
        Value::Complex => false,
    }
}

// The number that the value is or reads as.
pub(crate) fn number_of(value: &Value) -> Option<i64>
    ensures { result ≡ number_in value.now }
{
    match value {
        Value::Whole(number) => Some(*number),
        Value::Chars(text) => as_whole(text),
        Value::Flag(_) => None,
        Value::Complex => None,
    }
}

// The text that the value is.
fn text_of(value: &Value) -> Option<&OemText>
    ensures { option_copied result ≡ text_in value.now }
{
    match value {
        Value::Whole(_) => None,
        Value::Chars(text) => Some(text),
        Value::Flag(_) => None,
        Value::Complex => None,
    }
}

// The flag that the value is or reads as.
fn flag_of(value: &Value) -> Option<bool>
    ensures { result ≡ flag_in value.now }
{
    match value {
        Value::Whole(_) => None,
        Value::Chars(text) => as_flag(text),
        Value::Flag(flag) => Some(*flag),
        Value::Complex => None,
    }
}

// The number that stands for the flag that the value is or reads as.
pub(crate) fn flag_rank(value: &Value) -> Option<i64>
    ensures { result ≡ flag_rank value.now }
{
    match flag_of(value) {
        Some(flag) => Some(number_for(flag)),
        None => None,
    }
}

// The number that stands for a flag.
pub(crate) fn number_for(flag: bool) -> i64
    ensures { result ≡ flag_number flag }
{
    if flag { 1 } else { 0 }
}
