ghost use Rattle.std.specs.Prelude.{◌≡◌, ◌++◌, ◌∷◌, OnOk};
ghost use Rattle.std.specs.List.{flat_map};
ghost use Rattle.lore_base.specs.Quotes.{escape, in_quotes};
ghost use Rattle.guide_query.specs.GuideLines.{label_text, size_text};

use itoa::Buffer;
use lore_base::{NoMemory, is_identifier};

// Puts the bytes behind the line.
pub(crate) fn put(line: &mut Vec<u8>, bytes: &[u8]) -> Result<(), NoMemory>
    ensures { OnOk result (line.new.items ≡ line.old.items ++ bytes.now) }
{
    line.extend_from_slice(bytes)?;
    Ok(())
}

// Puts a byte of a label as it stands between single quotes.
fn put_escaped(line: &mut Vec<u8>, byte: u8) -> Result<(), NoMemory>
    ensures { OnOk result (line.new.items ≡ line.old.items ++ escape 39 byte) }
{
    match byte {
        b'\'' => put(line, b"\\'"),
        b'\\' => put(line, b"\\\\"),
        b'\n' => put(line, b"\\n"),
        b'\r' => put(line, b"\\r"),
        b'\t' => put(line, b"\\t"),
        _ => put(line, &[byte]),
    }
}

// Puts the bytes of a label as they stand between single quotes.
fn put_contents(line: &mut Vec<u8>, label: &[u8]) -> Result<(), NoMemory>
    ensures { OnOk result (line.new.items ≡ line.old.items ++ flat_map (escape 39) label.now) }
{
    'bytes: for byte in label {
        put_escaped(line, *byte)?;
    }
    Ok(())
}

// Puts a label in single quotes.
fn put_quoted(line: &mut Vec<u8>, label: &[u8]) -> Result<(), NoMemory>
    ensures { OnOk result (line.new.items ≡ line.old.items ++ in_quotes 39 label.now) }
{
    put(line, b"'")?;
    put_contents(line, label)?;
    put(line, b"'")
}

// Puts a dot and a label behind it: bare where it is an identifier, and else in single quotes.
pub(crate) fn put_step(line: &mut Vec<u8>, label: &[u8]) -> Result<(), NoMemory>
    ensures { OnOk result (line.new.items ≡ line.old.items ++ 46 ∷ label_text label.now) }
{
    put(line, b".")?;
    if is_identifier(label) {
        put(line, label)
    } else {
        put_quoted(line, label)
    }
}

// Puts a space and a size.
pub(crate) fn put_size(line: &mut Vec<u8>, size: usize) -> Result<(), NoMemory>
    ensures { OnOk result (line.new.items ≡ line.old.items ++ size_text size) }
{
    put(line, b" ")?;
    put(line, Buffer::new().format(size).as_bytes())
}
