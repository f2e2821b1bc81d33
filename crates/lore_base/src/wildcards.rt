ghost use Rattle.std.specs.Prelude.{◌≡◌, ◌≢◌, ◌↔◌, ◌<◌, ◌≤◌, ℕ, List, [], ◌∷◌, length};
ghost use Rattle.std.specs.Prelude.{IsTrue, IfSome, IfNone};
ghost use Rattle.std.specs.List.{prefix_len};
ghost use Rattle.lore_base.specs.Wildcards.{StandFor, many, IsMatched, IsLike, characters, goes_on};
ghost use Rattle.lore_base.specs.inside.Attempts.{sign_of, signs_of, Stands, MeetsMany};

/// Whether the text is matched by the pattern of a label, in which every `%` stands for zero or
/// more characters. Takes no memory, and time at most the length of the pattern times that of the
/// text.
pub fn is_matched(pattern: &[u8], text: &[u8]) -> bool
    ensures { IsTrue result ↔ IsMatched pattern.now text.now }
{
    stand_for(pattern, text, false)
}

/// Whether the text is like the pattern, in which every `%` stands for zero or more characters and
/// every `_` for exactly one. Takes no memory, and time at most the length of the pattern times that
/// of the text.
pub fn is_like(pattern: &[u8], text: &[u8]) -> bool
    ensures { IsTrue result ↔ IsLike pattern.now text.now }
{
    stand_for(pattern, text, true)
}

// What an attempt comes to that lays each sign of a pattern on one character of a text, from the
// first on.
enum Outcome<'a> {
    // Each sign found its character, and none was left.
    Whole,
    // The signs don't stand for the text.
    Fails,
    // It met a `%`, with these left of pattern and text.
    Many(&'a [u8], &'a [u8]),
}

// How many bytes go on with a character that came before them.
fn following(bytes: &[u8]) -> usize
    ensures count { result ≡ prefix_len goes_on bytes.now }
    ensures within { result ≤ length bytes.now }
{
    let mut len = 0;
    'bytes: for byte in bytes {
        if *byte < 128 || 192 <= *byte {
            return len;
        }
        len += 1;
    }
    len
}

// The first character and what lies behind it; None exactly where there is none.
fn split_character(bytes: &[u8]) -> Option<(&[u8], &[u8])>
    ensures parts { IfSome result
        (λ parts. characters bytes.now ≡ parts.0.now ∷ characters parts.1.now) }
    ensures shorter { IfSome result (λ parts. length parts.1.now < length bytes.now) }
    ensures none { IfNone result (bytes.now ≡ []) }
{
    let (_, rest) = bytes.split_first()?;
    let len = 1 + following(rest);
    Some((&bytes[..len], &bytes[len..]))
}

// Whether the character, which isn't `%`, stands in a pattern for this one.
fn stands(sign: &[u8], character: &[u8], in_like: bool) -> bool
    ensures { sign.now ≢ 37 ∷ []
        → IsTrue result ↔ Stands (sign_of in_like sign.now) character.now }
{
    if in_like && sign == b"_".as_slice() {
        return true;
    }
    sign == character
}

fn attempt<'a>(pattern: &'a [u8], text: &'a [u8], in_like: bool) -> Outcome<'a>
    ensures whole { result ≡ Outcome.Whole
        → StandFor (signs_of in_like pattern.now) (characters text.now) }
    ensures fails { result ≡ Outcome.Fails
        → ¬ StandFor (signs_of in_like pattern.now) (characters text.now) }
    ensures many { (later rest : _) → result ≡ Outcome.Many later rest
        → MeetsMany in_like pattern.now later.now text.now rest.now }
{
    let mut pattern = pattern;
    let mut text = text;
    'signs: while let Some((sign, later)) = split_character(pattern) {
        if sign == b"%".as_slice() {
            return Outcome::Many(later, text);
        }
        let Some((character, rest)) = split_character(text) else {
            return Outcome::Fails;
        };
        if !stands(sign, character, in_like) {
            return Outcome::Fails;
        }
        pattern = later;
        text = rest;
    }
    if text.is_empty() {
        Outcome::Whole
    } else {
        Outcome::Fails
    }
}

// Whether the signs of the pattern stand for the text. An attempt that fails begins again one
// character later behind the last `%`. Where it meets a further `%`, no earlier beginning is needed
// any more.
fn stand_for(pattern: &[u8], text: &[u8], in_like: bool) -> bool
    ensures { IsTrue result
        ↔ StandFor (signs_of in_like pattern.now) (characters text.now) }
{
    let (mut later, mut rest) = match attempt(pattern, text, in_like) {
        Outcome::Whole => return true,
        Outcome::Fails => return false,
        Outcome::Many(later, rest) => (later, rest),
    };
    'places: loop {
        match attempt(later, rest, in_like) {
            Outcome::Whole => return true,
            Outcome::Fails => {
                let Some((_, behind)) = split_character(rest) else {
                    return false;
                };
                rest = behind;
            }
            Outcome::Many(behind, left) => {
                later = behind;
                rest = left;
            }
        }
    }
}
