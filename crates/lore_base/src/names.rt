ghost use Rattle.std.specs.Prelude.{◌≡◌, ◌↔◌, IsTrue};
ghost use Rattle.std.specs.List.{list_all};
ghost use Rattle.lore_base.specs.Names.{is_reserved, is_identifier, is_word_start, is_word_byte};
ghost use Rattle.lore_base.specs.Names.{IsName};

use crate::limits::WORD_BYTES;

/// Whether the word is one of the language's own, which no name or variable may be.
pub fn is_reserved(word: &[u8]) -> bool
    ensures { result ≡ is_reserved word.now }
{
    word == b"select".as_slice()
        || word == b"from".as_slice()
        || word == b"where".as_slice()
        || word == b"and".as_slice()
        || word == b"or".as_slice()
        || word == b"not".as_slice()
        || word == b"exists".as_slice()
        || word == b"for".as_slice()
        || word == b"all".as_slice()
        || word == b"in".as_slice()
        || word == b"like".as_slice()
        || word == b"true".as_slice()
        || word == b"false".as_slice()
}

/// Whether the bytes are a letter or an underscore, and then letters, digits and underscores.
pub fn is_identifier(bytes: &[u8]) -> bool
    ensures { result ≡ is_identifier bytes.now }
{
    match bytes {
        [] => false,
        [first, others @ ..] => is_start(*first) && are_inner(others),
    }
}

/// Whether the word may be a name: an identifier of at most 255 bytes that isn't reserved.
#[tactic(auto, using(crate::proofs::WordLaws::name_tested))]
pub fn is_name(word: &[u8]) -> bool
    ensures { IsTrue result ↔ IsName word.now }
{
    is_identifier(word) && (!is_reserved(word) && word.len() <= WORD_BYTES)
}

fn is_start(byte: u8) -> bool
    ensures { result ≡ is_word_start byte }
{
    byte.is_ascii_alphabetic() || byte == b'_'
}

fn is_inner(byte: u8) -> bool
    ensures { result ≡ is_word_byte byte }
{
    byte.is_ascii_alphanumeric() || byte == b'_'
}

fn are_inner(bytes: &[u8]) -> bool
    ensures { result ≡ list_all is_word_byte bytes.now }
{
    'bytes: for byte in bytes {
        if !is_inner(*byte) {
            return false;
        }
    }
    true
}
