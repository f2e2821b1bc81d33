ghost use Rattle.std.specs.Prelude.{◌≡◌};
ghost use Rattle.lore_base.specs.Names.{is_word_byte};
ghost use Rattle.lorel_tokens.specs.Shapes.{is_pattern_start, is_pattern_byte};
ghost use Rattle.lorel_lex.specs.inside.Lexing as spec;

/// Which tokens a byte may begin.
#[derive(Clone, Copy)]
pub enum ByteClass {
    /// A letter, an underscore or a `%`: an identifier, a pattern or `path-of`.
    Letter,
    /// A digit: a number.
    Digit,
    /// A minus: a number or a symbol.
    Minus,
    /// A `&`: a local.
    Ampersand,
    /// A double quote: a text.
    DoubleQuote,
    /// A single quote: a quoted label.
    SingleQuote,
    /// Any other byte: a symbol, or nothing.
    Other,
}

// Which bytes begin an identifier or a pattern.
const PATTERN_STARTS: [bool; 256] = [
    false, false, false, false, false, false, false, false, false, false, false, false, false,
    false, false, false, false, false, false, false, false, false, false, false, false, false,
    false, false, false, false, false, false, false, false, false, false, false, true, false,
    false, false, false, false, false, false, false, false, false, false, false, false, false,
    false, false, false, false, false, false, false, false, false, false, false, false, false,
    true, true, true, true, true, true, true, true, true, true, true, true, true, true, true, true,
    true, true, true, true, true, true, true, true, true, true, false, false, false, false, true,
    false, true, true, true, true, true, true, true, true, true, true, true, true, true, true,
    true, true, true, true, true, true, true, true, true, true, true, true, false, false, false,
    false, false, false, false, false, false, false, false, false, false, false, false, false,
    false, false, false, false, false, false, false, false, false, false, false, false, false,
    false, false, false, false, false, false, false, false, false, false, false, false, false,
    false, false, false, false, false, false, false, false, false, false, false, false, false,
    false, false, false, false, false, false, false, false, false, false, false, false, false,
    false, false, false, false, false, false, false, false, false, false, false, false, false,
    false, false, false, false, false, false, false, false, false, false, false, false, false,
    false, false, false, false, false, false, false, false, false, false, false, false, false,
    false, false, false, false, false, false, false, false, false, false, false, false, false,
    false, false, false, false, false, false, false, false, false, false, false, false, false,
];

// Whether the byte begins an identifier or a pattern: a look-up, as below.
fn is_pattern_start(byte: u8) -> bool
    ensures { result ≡ is_pattern_start byte }
{
    PATTERN_STARTS[byte as usize]
}

// Which bytes may stand in an identifier behind its first.
const WORD_BYTES: [bool; 256] = [
    false, false, false, false, false, false, false, false, false, false, false, false, false,
    false, false, false, false, false, false, false, false, false, false, false, false, false,
    false, false, false, false, false, false, false, false, false, false, false, false, false,
    false, false, false, false, false, false, false, false, false, true, true, true, true, true,
    true, true, true, true, true, false, false, false, false, false, false, false, true, true,
    true, true, true, true, true, true, true, true, true, true, true, true, true, true, true, true,
    true, true, true, true, true, true, true, true, false, false, false, false, true, false, true,
    true, true, true, true, true, true, true, true, true, true, true, true, true, true, true, true,
    true, true, true, true, true, true, true, true, true, false, false, false, false, false, false,
    false, false, false, false, false, false, false, false, false, false, false, false, false,
    false, false, false, false, false, false, false, false, false, false, false, false, false,
    false, false, false, false, false, false, false, false, false, false, false, false, false,
    false, false, false, false, false, false, false, false, false, false, false, false, false,
    false, false, false, false, false, false, false, false, false, false, false, false, false,
    false, false, false, false, false, false, false, false, false, false, false, false, false,
    false, false, false, false, false, false, false, false, false, false, false, false, false,
    false, false, false, false, false, false, false, false, false, false, false, false, false,
    false, false, false, false, false, false, false, false, false, false, false, false, false,
    false, false, false, false, false, false, false, false, false, false,
];

/// Whether the byte may stand in an identifier behind its first: a look-up, since most bytes of a
/// script are asked this.
pub(crate) fn is_word_byte(byte: u8) -> bool
    ensures { result ≡ is_word_byte byte }
{
    WORD_BYTES[byte as usize]
}

/// Whether the byte may stand in a pattern behind its first.
pub(crate) fn is_pattern_byte(byte: u8) -> bool
    ensures { result ≡ is_pattern_byte byte }
{
    is_word_byte(byte) || byte == b'%'
}

pub(crate) fn class_of(byte: u8) -> ByteClass
    ensures { result ≡ spec.class_of byte }
{
    if is_pattern_start(byte) {
        ByteClass::Letter
    } else if byte.is_ascii_digit() {
        ByteClass::Digit
    } else {
        match byte {
            b'-' => ByteClass::Minus,
            b'&' => ByteClass::Ampersand,
            b'"' => ByteClass::DoubleQuote,
            b'\'' => ByteClass::SingleQuote,
            _ => ByteClass::Other,
        }
    }
}
