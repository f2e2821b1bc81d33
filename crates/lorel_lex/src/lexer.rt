ghost use Rattle.std.specs.Prelude.{◌≡◌, ◌≢◌, ◌<◌, ◌≤◌, length, slice_index, All, IfOk};
ghost use Rattle.std.specs.Prelude.{IfErr};
ghost use Rattle.lorel_tokens.specs.Forms.{HasForm};
ghost use Rattle.lorel_lex.specs.Tokens.{AreTokens, HasFault};
ghost use Rattle.lorel_lex.specs.inside.Lexing.{ReadsFirst};

use crate::byte_class::{ByteClass, class_of};
use crate::faults::LexFault;
use crate::gaps::gap_len;
use crate::numbers::{digit_follows, local, signed, unsigned};
use crate::quoted_texts::{label, text};
use crate::symbols::symbol;
use crate::words::word;
use lore_base::limits::CHUNK_BYTES;
use lorel_tokens::{Kind, Token, TokenList};
use simdutf8::is_utf8;
use std::alloc::Global;

// The number or the symbol at the front, with its length; a minus begins it.
fn minus(bytes: &[u8]) -> Result<(Kind, usize), LexFault>
    requires some { 0 < length bytes.now }
    requires minus { slice_index bytes.now 0 ≡ 45 }
    ensures { ReadsFirst bytes.now result }
{
    if digit_follows(bytes) {
        signed(bytes)
    } else {
        symbol(bytes)
    }
}

// The token at the front, with its length.
fn first_token(alloc: Global, bytes: &[u8]) -> Result<(Kind, usize), LexFault>
    requires { 0 < length bytes.now }
    ensures { ReadsFirst bytes.now result }
{
    match class_of(bytes[0]) {
        ByteClass::Letter => word(alloc, bytes),
        ByteClass::Digit => unsigned(bytes),
        ByteClass::Minus => minus(bytes),
        ByteClass::Ampersand => local(bytes),
        ByteClass::DoubleQuote => text(alloc, bytes),
        ByteClass::SingleQuote => label(alloc, bytes),
        ByteClass::Other => symbol(bytes),
    }
}

/// The tokens of a chunk, with their places.
///
/// Blank bytes and comments are dropped; elsewhere the longest token that starts at a place is
/// taken. A chunk that isn't UTF-8 is BadToken. Of several faults that at the earliest place
/// counts, and at one place the first of these: BadToken where no token starts there, RealRefused
/// where a `.` and a digit follow a number, NumberRange where a number lies outside 64 bits or a
/// local outside 32, TextTooLong where a text has more than `TEXT_BYTES` bytes, or an identifier,
/// a pattern or a quoted label more than `WORD_BYTES`.
pub fn tokens(alloc: Global, chunk: &[u8]) -> Result<TokenList, LexFault>
    requires { length chunk.now ≤ CHUNK_BYTES }
    ensures found { IfOk result (AreTokens chunk.now) }
    ensures formed { IfOk result (All (λ token. HasForm token.kind)) }
    ensures fault { IfErr result (λ fault. fault ≢ LexFault.NoMemory → HasFault chunk.now fault) }
{
    if !is_utf8(chunk) {
        return Err(LexFault::BadToken);
    }
    let mut tokens = TokenList::new(alloc);
    let mut at = 0;
    'tokens: while at < chunk.len() {
        let start = at + gap_len(&chunk[at..]);
        if start == chunk.len() {
            return Ok(tokens);
        }
        match first_token(alloc, &chunk[start..]) {
            Ok((kind, len)) => {
                at = start + len;
                tokens.push(Token {
                    kind,
                    start: start as u32,
                    end: at as u32,
                })?;
            }
            Err(fault) => return Err(fault),
        }
    }
    Ok(tokens)
}
