ghost use Rattle.std.specs.Prelude.{◌≡◌, ◌<◌, length};
ghost use Rattle.lorel_lex.specs.inside.Lexing.{BeginsSymbol, ReadsFirst};
ghost use Rattle.lorel_lex.specs.inside.Lexing as spec;

use crate::faults::LexFault;
use lorel_tokens::{Kind, Sign};

// The symbol that is this byte and a `=`.
fn paired(byte: u8) -> Option<Sign>
    ensures { result ≡ spec.paired byte }
{
    match byte {
        b':' => Some(Sign::Assign),
        b'=' => Some(Sign::SameAs),
        b'!' => Some(Sign::NotEqual),
        b'<' => Some(Sign::LessEqual),
        b'>' => Some(Sign::GreaterEqual),
        b'+' => Some(Sign::PlusAssign),
        b'-' => Some(Sign::MinusAssign),
        _ => None,
    }
}

// The symbol that is this byte.
fn single(byte: u8) -> Option<Sign>
    ensures { result ≡ spec.single byte }
{
    match byte {
        b'{' => Some(Sign::LeftBrace),
        b'}' => Some(Sign::RightBrace),
        b'(' => Some(Sign::LeftParen),
        b')' => Some(Sign::RightParen),
        b',' => Some(Sign::Comma),
        b'.' => Some(Sign::Dot),
        b':' => Some(Sign::Colon),
        b'=' => Some(Sign::Equal),
        b'<' => Some(Sign::Less),
        b'>' => Some(Sign::Greater),
        b'?' => Some(Sign::Question),
        b'*' => Some(Sign::Star),
        b'+' => Some(Sign::Plus),
        b'|' => Some(Sign::Bar),
        b'#' => Some(Sign::Hash),
        b'@' => Some(Sign::At),
        _ => None,
    }
}

/// The symbol at the front that takes two bytes.
pub(crate) fn pair(bytes: &[u8]) -> Option<Sign>
    ensures { result ≡ spec.pair_at bytes.now }
{
    match bytes {
        [first, b'=', ..] => paired(*first),
        _ => None,
    }
}

/// The symbol at the front, with its length.
#[inline(always)]
pub(crate) fn symbol(bytes: &[u8]) -> Result<(Kind, usize), LexFault>
    requires some { 0 < length bytes.now }
    requires symbol { BeginsSymbol bytes.now }
    ensures { ReadsFirst bytes.now result }
{
    if let Some(sign) = pair(bytes) {
        return Ok((Kind::Symbol(sign), 2));
    }
    match single(bytes[0]) {
        Some(sign) => Ok((Kind::Symbol(sign), 1)),
        None => Err(LexFault::BadToken),
    }
}
