ghost use Rattle.std.specs.Prelude.{◌≡◌, [], ◌∷◌, IfSome, IfNone};
ghost use Rattle.std.specs.List.{flat_map};
ghost use Rattle.lore_base.specs.Quotes.{escape, in_quotes};
ghost use Rattle.lore_base.specs.Printed.{printed, label_text};
ghost use Rattle.lore_base.specs.Pieces.{Puts};

use crate::comparing::flag_text;
use itoa::Buffer;
use lore_base::{Out, Value, is_identifier};

/// Puts a value: decimal digits, behind a `-` where the number is negative, a text in quotes with
/// its escapes, `true` or `false`, or `{}` for any complex value. Takes no memory of its own. A
/// fault is that of a put, and has put a front of this, and not the whole.
pub fn print_value<O: Out>(value: &Value, out: &mut O) -> Result<(), O::Fault>
    ensures { Puts O.is_memory (O.state out.old) (printed value.now) (O.state out.new) result }
{
    match value {
        Value::Whole(number) => out.put(Buffer::new().format(*number).as_bytes()),
        Value::Chars(text) => put_quoted(b'"', text.as_bytes(), out),
        Value::Flag(flag) => out.put(flag_text(*flag)),
        Value::Complex => out.put(b"{}"),
    }
}

/// Puts a label: bare where it is an identifier, a reserved word too, and otherwise in single
/// quotes with its escapes. Takes no memory of its own. A fault is that of a put, and has put a
/// front of this, and not the whole.
pub fn print_label<O: Out>(label: &[u8], out: &mut O) -> Result<(), O::Fault>
    ensures { Puts O.is_memory (O.state out.old) (label_text label.now) (O.state out.new) result }
{
    if is_identifier(label) {
        out.put(label)
    } else {
        put_quoted(b'\'', label, out)
    }
}

// Puts a text between two quotes, with its escapes.
fn put_quoted<O: Out>(quote: u8, text: &[u8], out: &mut O) -> Result<(), O::Fault>
    ensures { Puts O.is_memory
        (O.state out.old) (in_quotes quote text.now) (O.state out.new) result }
{
    out.put(&[quote])?;
    put_escaped(quote, text, out)?;
    out.put(&[quote])
}

// Puts a text with the escapes that it has between such quotes. What lies between two escaped bytes
// goes in one piece.
fn put_escaped<O: Out>(quote: u8, text: &[u8], out: &mut O) -> Result<(), O::Fault>
    ensures { Puts O.is_memory
        (O.state out.old) (flat_map (escape quote) text.now) (O.state out.new) result }
{
    let mut start = 0;
    'bytes: for (place, byte) in text.iter().enumerate() {
        if let Some(letter) = letter_of(quote, *byte) {
            out.put(&text[start..place])?;
            out.put(&[b'\\', letter])?;
            start = place + 1;
        }
    }
    out.put(&text[start..])
}

// The letter that stands for a byte behind a backslash, between such quotes; None where the byte is
// printed as it is.
fn letter_of(quote: u8, byte: u8) -> Option<u8>
    ensures some { IfSome result (λ letter. escape quote byte ≡ 92 ∷ letter ∷ []) }
    ensures none { IfNone result (escape quote byte ≡ byte ∷ []) }
{
    if byte == quote {
        return Some(quote);
    }
    match byte {
        b'\\' => Some(b'\\'),
        b'\n' => Some(b'n'),
        b'\r' => Some(b'r'),
        b'\t' => Some(b't'),
        _ => None,
    }
}
