ghost use Rattle.std.specs.Prelude.{◌≡◌, ◌≢◌, ◌<◌, length, slice_index, false, Some};
ghost use Rattle.lore_base.specs.Quotes.{unescape};
ghost use Rattle.lorel_lex.specs.inside.Lexing.{escaped_after, FindsQuote, FindsByte, Resolves};
ghost use Rattle.lorel_lex.specs.inside.Lexing.{ReadsQuoted, ReadsFirst};

use crate::faults::LexFault;
use crate::scan::before;
use lore_base::limits::{TEXT_BYTES, WORD_BYTES};
use lore_base::{Listing, OemText};
use lorel_tokens::Kind;
use std::alloc::Global;

// The place of the quote that ends contents that may have escapes.
fn quote_behind_escapes(bytes: &[u8], quote: u8) -> Option<usize>
    ensures { FindsQuote quote bytes.now result }
{
    let mut escaped = false;
    'bytes: for (i, byte) in bytes.iter().enumerate() {
        if escaped {
            escaped = false;
        } else if *byte == quote {
            return Some(i);
        } else {
            escaped = *byte == b'\\';
        }
    }
    None
}

/// The place of the quote that ends the contents; the bytes begin behind the quote that opens them.
/// Mostly no backslash stands before it.
pub(crate) fn closing_quote(bytes: &[u8], quote: u8) -> Option<usize>
    ensures { FindsQuote quote bytes.now result }
{
    let at = before(bytes, quote, b'\\');
    if at < bytes.len() && bytes[at] == quote {
        return Some(at);
    }
    quote_behind_escapes(bytes, quote)
}

// The byte that a letter behind a backslash stands for.
fn unescape(quote: u8, letter: u8) -> Option<u8>
    ensures { result ≡ unescape quote letter }
{
    if letter == quote {
        return Some(quote);
    }
    match letter {
        b'\\' => Some(b'\\'),
        b'n' => Some(b'\n'),
        b'r' => Some(b'\r'),
        b't' => Some(b'\t'),
        _ => None,
    }
}

// The first byte that the contents stand for, and how many of their bytes it takes.
fn first_byte(raw: &[u8], quote: u8) -> Option<(u8, usize)>
    requires some { 0 < length raw.now }
    requires quote { quote ≢ 92 }
    ensures { FindsByte quote raw.now result }
{
    let byte = raw[0];
    if byte == quote {
        return None;
    }
    if byte != b'\\' {
        return Some((byte, 1));
    }
    if raw.len() == 1 {
        return None;
    }
    let byte = unescape(quote, raw[1])?;
    Some((byte, 2))
}

// The bytes that the contents stand for.
fn unescaped(alloc: Global, raw: &[u8], quote: u8) -> Result<Listing<u8>, LexFault>
    requires { quote ≢ 92 }
    ensures { Resolves (λ bytes. bytes) quote raw.now result }
{
    let mut bytes = Listing::with_capacity(alloc, raw.len())?;
    let mut at = 0;
    'raw: while at < raw.len() {
        let Some((byte, len)) = first_byte(&raw[at..], quote) else {
            return Err(LexFault::BadToken);
        };
        bytes.push(byte)?;
        at += len;
    }
    Ok(bytes)
}

// The text that the contents stand for. Contents without escapes are copied as they are.
fn contents(alloc: Global, raw: &[u8], quote: u8) -> Result<OemText, LexFault>
    requires quote { quote ≢ 92 }
    requires inside { escaped_after quote false raw.now ≡ Some false }
    ensures { Resolves (λ text. text) quote raw.now result }
{
    if !raw.contains(&b'\\') {
        let text = OemText::from_bytes(alloc, raw)?;
        return Ok(text);
    }
    match unescaped(alloc, raw, quote) {
        Ok(bytes) => {
            let text = OemText::from_bytes(alloc, bytes.as_slice())?;
            Ok(text)
        }
        Err(fault) => Err(fault),
    }
}

// The text that the quoted contents at the front stand for, and how many bytes these are with their
// quotes.
fn quoted(alloc: Global, bytes: &[u8], quote: u8) -> Result<(OemText, usize), LexFault>
    requires quote { quote ≢ 92 }
    requires opens { slice_index bytes.now 0 ≡ quote }
    requires some { 0 < length bytes.now }
    ensures { ReadsQuoted quote bytes.now result }
{
    let Some(len) = closing_quote(&bytes[1..], quote) else {
        return Err(LexFault::BadToken);
    };
    match contents(alloc, &bytes[1..len + 1], quote) {
        Ok(text) => Ok((text, len + 2)),
        Err(fault) => Err(fault),
    }
}

/// The text at the front, with its length.
pub(crate) fn text(alloc: Global, bytes: &[u8]) -> Result<(Kind, usize), LexFault>
    requires { slice_index bytes.now 0 ≡ 34 }
    ensures { ReadsFirst bytes.now result }
{
    match quoted(alloc, bytes, b'"') {
        Ok((text, len)) => {
            if text.as_bytes().len() > TEXT_BYTES {
                return Err(LexFault::TextTooLong);
            }
            Ok((Kind::Chars(text), len))
        }
        Err(fault) => Err(fault),
    }
}

/// The quoted label at the front, with its length. Two quotes with nothing between them are none.
pub(crate) fn label(alloc: Global, bytes: &[u8]) -> Result<(Kind, usize), LexFault>
    requires { slice_index bytes.now 0 ≡ 39 }
    ensures { ReadsFirst bytes.now result }
{
    match quoted(alloc, bytes, b'\'') {
        Ok((text, len)) => {
            let size = text.as_bytes().len();
            if size == 0 {
                return Err(LexFault::BadToken);
            }
            if size > WORD_BYTES {
                return Err(LexFault::TextTooLong);
            }
            Ok((Kind::Quoted(text), len))
        }
        Err(fault) => Err(fault),
    }
}
