ghost use Rattle.std.specs.Prelude.{◌≡◌, ◌==◌, slice_index};
ghost use Rattle.lore_base.specs.Names.{is_word_byte as word_byte};
ghost use Rattle.lorel_tokens.specs.Shapes.{begins, is_pattern_byte as pattern_byte};
ghost use Rattle.lorel_lex.specs.inside.Lexing.{class_of, begins_path_of, EndsRun, FindsLetters};
ghost use Rattle.lorel_lex.specs.inside.Lexing.{Shortens, ReadsFirst};
ghost use Rattle.lorel_lex.specs.Types.{Letter};

use crate::byte_class::{is_pattern_byte, is_word_byte};
use crate::faults::LexFault;
use lore_base::OemText;
use lore_base::limits::WORD_BYTES;
use lorel_tokens::Kind;
use std::alloc::Global;

/// What begins with a letter, an underscore or a `%`.
#[derive(Clone, Copy)]
pub enum Letters {
    /// An identifier of this many bytes.
    Identifier(usize),
    /// A pattern of this many bytes.
    Pattern(usize),
    /// `path-of`.
    PathWord,
}

// How many bytes at the front may stand in an identifier.
fn word_run(bytes: &[u8]) -> usize
    ensures { EndsRun word_byte bytes.now result }
{
    'bytes: for (i, byte) in bytes.iter().enumerate() {
        if !is_word_byte(*byte) {
            return i;
        }
    }
    bytes.len()
}

// How many bytes at the front may stand in a pattern.
fn pattern_run(bytes: &[u8]) -> usize
    ensures { EndsRun pattern_byte bytes.now result }
{
    'bytes: for (i, byte) in bytes.iter().enumerate() {
        if !is_pattern_byte(*byte) {
            return i;
        }
    }
    bytes.len()
}

fn begins_percent(bytes: &[u8]) -> bool
    ensures { result ≡ begins (λ byte. byte == 37) bytes.now }
{
    match bytes {
        [byte, ..] => *byte == b'%',
        [] => false,
    }
}

fn goes_on(bytes: &[u8]) -> bool
    ensures { result ≡ begins pattern_byte bytes.now }
{
    match bytes {
        [byte, ..] => is_pattern_byte(*byte),
        [] => false,
    }
}

// Whether `path-of` stands at the front, and behind it no byte of a pattern.
fn is_path_of(bytes: &[u8]) -> bool
    ensures { result ≡ begins_path_of bytes.now }
{
    bytes.starts_with(b"path-of") && !goes_on(&bytes[7..])
}

/// What stands at the front, and how many bytes it takes.
pub(crate) fn read_letters(bytes: &[u8]) -> Letters
    ensures { FindsLetters bytes.now result }
{
    let len = word_run(bytes);
    if len == 4 && is_path_of(bytes) {
        Letters::PathWord
    } else if begins_percent(&bytes[len..]) {
        Letters::Pattern(pattern_run(bytes))
    } else {
        Letters::Identifier(len)
    }
}

// The bytes as a text, where they are no more than a word may have.
fn short(alloc: Global, bytes: &[u8]) -> Result<OemText, LexFault>
    ensures { Shortens bytes.now result }
{
    if bytes.len() > WORD_BYTES {
        return Err(LexFault::TextTooLong);
    }
    let text = OemText::from_bytes(alloc, bytes)?;
    Ok(text)
}

/// The identifier, the pattern or `path-of` at the front, with its length.
pub(crate) fn word(alloc: Global, bytes: &[u8]) -> Result<(Kind, usize), LexFault>
    requires { class_of (slice_index bytes.now 0) ≡ Letter }
    ensures { ReadsFirst bytes.now result }
{
    match read_letters(bytes) {
        Letters::PathWord => Ok((Kind::PathOf, 7)),
        Letters::Identifier(len) => match short(alloc, &bytes[..len]) {
            Ok(text) => Ok((Kind::Word(text), len)),
            Err(fault) => Err(fault),
        },
        Letters::Pattern(len) => match short(alloc, &bytes[..len]) {
            Ok(text) => Ok((Kind::Wild(text), len)),
            Err(fault) => Err(fault),
        },
    }
}
