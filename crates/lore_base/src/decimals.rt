ghost use Rattle.std.specs.Prelude.{◌≡◌, ℤ, IfSome, IfNone};
ghost use Rattle.lore_base.specs.Comparisons.{ReadsAs};

/// The number that a text reads as: one decimal digit or more, perhaps behind a minus. None exactly
/// where the text doesn't have that form or no i64 holds the number. Takes no memory.
pub fn read_whole(text: &[u8]) -> Option<i64>
    ensures some { IfSome result (λ number. ReadsAs text.now number) }
    ensures none { IfNone result ((number : ℤ) → ¬ ReadsAs text.now number) }
{
    // Most texts are no numbers, and few of those begin as one does.
    let first = *text.first()?;
    if first != b'-' && !first.is_ascii_digit() {
        return None;
    }
    let Ok(digits) = str::from_utf8(text) else {
        return None;
    };
    match digits.parse() {
        Ok(number) => Some(number),
        Err(_error) => None,
    }
}
