ghost use Rattle.std.specs.Prelude.{◌≡◌, ◌↔◌, ◌<◌, ◌^◌, IsTrue};
ghost use Rattle.doem_facts.specs.Facts.{bytes_in};

use lore_base::{OemText, Value};

// Whether the texts are the same.
pub(crate) fn is_same_text(text: &OemText, other: &OemText) -> bool
    ensures { IsTrue result ↔ (text.now ≡ other.now) }
{
    text.as_bytes() == other.as_bytes()
}

// Whether the values are the same.
pub(crate) fn is_same_value(value: &Value, other: &Value) -> bool
    ensures { IsTrue result ↔ (value.now ≡ other.now) }
{
    match value {
        Value::Whole(number) => match other {
            Value::Whole(also) => *number == *also,
            _ => false,
        },
        Value::Chars(text) => match other {
            Value::Chars(also) => is_same_text(text, also),
            _ => false,
        },
        Value::Flag(flag) => match other {
            Value::Flag(also) => *flag == *also,
            _ => false,
        },
        Value::Complex => match other {
            Value::Complex => true,
            _ => false,
        },
    }
}

// The number of bytes of a text; 0 of another value.
pub(crate) fn text_bytes(value: &Value) -> usize
    ensures bytes { result ≡ bytes_in value.now }
    ensures small { result < 2 ^ 63 }
{
    match value {
        Value::Chars(text) => text.as_bytes().len(),
        _ => 0,
    }
}
