ghost use Rattle.std.specs.Prelude.{◌≡◌, ◌^◌, ◌<◌, true, drop, slice_index, pos, neg_ℤ, FitsSigned};
ghost use Rattle.std.specs.Int.{w64};
ghost use Rattle.std.specs.Option.{SomeIff};
ghost use Rattle.std.specs.Char.{is_ascii_digit};
ghost use Rattle.std.specs.Str.Parse.{AllDigits, digits_value};
ghost use Rattle.lorel_tokens.specs.Shapes.{begins};
ghost use Rattle.lorel_lex.specs.Tokens.{begins_fraction};
ghost use Rattle.lorel_lex.specs.inside.Lexing.{class_of, EndsRun, ReadsFirst};
ghost use Rattle.lorel_lex.specs.Types.{Digit};

use crate::faults::LexFault;
use lorel_tokens::Kind;

/// How many digits stand at the front.
pub(crate) fn digits_len(bytes: &[u8]) -> usize
    ensures { EndsRun is_ascii_digit bytes.now result }
{
    'bytes: for (i, byte) in bytes.iter().enumerate() {
        if !byte.is_ascii_digit() {
            return i;
        }
    }
    bytes.len()
}

// The number that digits write, where it is below 2 ^ 64.
fn magnitude(digits: &[u8]) -> Option<u64>
    requires { AllDigits 10 digits.now }
    ensures { SomeIff result (digits_value 10 digits.now < 2 ^ 64) (digits_value 10 digits.now) }
{
    let mut value: u64 = 0;
    'digits: for digit in digits {
        value = value
            .checked_mul(10)?
            .checked_add(u64::from(*digit - b'0'))?;
    }
    Some(value)
}

// The number that digits write, where an i64 holds it.
fn whole(digits: &[u8]) -> Option<i64>
    requires { AllDigits 10 digits.now }
    ensures { SomeIff result (FitsSigned w64 (pos (digits_value 10 digits.now)))
        (pos (digits_value 10 digits.now)) }
{
    let value = magnitude(digits)?;
    i64::try_from(value).ok()
}

// The number that digits behind a minus write, where an i64 holds it.
fn negated(digits: &[u8]) -> Option<i64>
    requires { AllDigits 10 digits.now }
    ensures { SomeIff result (FitsSigned w64 (neg_ℤ (pos (digits_value 10 digits.now))))
        (neg_ℤ (pos (digits_value 10 digits.now))) }
{
    let value = magnitude(digits)?;
    if value == 1 << 63 {
        return Some(i64::MIN);
    }
    let value = i64::try_from(value).ok()?;
    value.checked_neg()
}

// The number that digits write, where a u32 holds it.
fn small(digits: &[u8]) -> Option<u32>
    requires { AllDigits 10 digits.now }
    ensures { SomeIff result (digits_value 10 digits.now < 2 ^ 32) (digits_value 10 digits.now) }
{
    let value = magnitude(digits)?;
    u32::try_from(value).ok()
}

// Whether a `.` and a digit stand at the front.
fn begins_fraction(bytes: &[u8]) -> bool
    ensures { result ≡ begins_fraction bytes.now }
{
    match bytes {
        [b'.', digit, ..] => digit.is_ascii_digit(),
        _ => false,
    }
}

/// The number at the front, with its length; no minus begins it.
pub(crate) fn unsigned(bytes: &[u8]) -> Result<(Kind, usize), LexFault>
    requires { class_of (slice_index bytes.now 0) ≡ Digit }
    ensures { ReadsFirst bytes.now result }
{
    let len = digits_len(bytes);
    if begins_fraction(&bytes[len..]) {
        return Err(LexFault::RealRefused);
    }
    match whole(&bytes[..len]) {
        Some(value) => Ok((Kind::Number(value), len)),
        None => Err(LexFault::NumberRange),
    }
}

/// Whether a digit stands behind the first byte.
pub(crate) fn digit_follows(bytes: &[u8]) -> bool
    ensures { result ≡ begins is_ascii_digit (drop 1 bytes.now) }
{
    match bytes {
        [_, digit, ..] => digit.is_ascii_digit(),
        _ => false,
    }
}

/// The number at the front, with its length; a minus begins it, and a digit follows.
pub(crate) fn signed(bytes: &[u8]) -> Result<(Kind, usize), LexFault>
    requires minus { slice_index bytes.now 0 ≡ 45 }
    requires digit { begins is_ascii_digit (drop 1 bytes.now) ≡ true }
    ensures { ReadsFirst bytes.now result }
{
    let len = digits_len(&bytes[1..]);
    if begins_fraction(&bytes[len + 1..]) {
        return Err(LexFault::RealRefused);
    }
    match negated(&bytes[1..len + 1]) {
        Some(value) => Ok((Kind::Number(value), len + 1)),
        None => Err(LexFault::NumberRange),
    }
}

/// The local at the front, with its length; a `&` begins it.
pub(crate) fn local(bytes: &[u8]) -> Result<(Kind, usize), LexFault>
    requires { slice_index bytes.now 0 ≡ 38 }
    ensures { ReadsFirst bytes.now result }
{
    let len = digits_len(&bytes[1..]);
    if len == 0 {
        return Err(LexFault::BadToken);
    }
    match small(&bytes[1..len + 1]) {
        Some(value) => Ok((Kind::Local(value), len + 1)),
        None => Err(LexFault::NumberRange),
    }
}
