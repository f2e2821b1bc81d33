ghost use Rattle.std.specs.Prelude.{◌≡◌, ◌↔◌, IsTrue};
ghost use Rattle.lorel_lex.specs.Gaps as spec;
ghost use Rattle.lorel_lex.specs.inside.Skipping.{FindsLine, SkipsGap};

fn is_blank(byte: u8) -> bool
    ensures { result ≡ spec.is_blank byte }
{
    byte == b' ' || byte == b'\t' || byte == b'\n' || byte == b'\r'
}

fn begins_comment(bytes: &[u8]) -> bool
    ensures { result ≡ spec.begins_comment bytes.now }
{
    match bytes {
        [b'-', others @ ..] => matches!(others, [b'-', ..]),
        _ => false,
    }
}

// The place of the first line feed.
fn line_end(bytes: &[u8]) -> Option<usize>
    ensures { FindsLine bytes.now result }
{
    'bytes: for (i, byte) in bytes.iter().enumerate() {
        if *byte == b'\n' {
            return Some(i);
        }
    }
    None
}

/// How many bytes at the front are blank bytes and comments; a comment goes to its line feed or to
/// the end.
pub(crate) fn gap_len(bytes: &[u8]) -> usize
    ensures { SkipsGap bytes.now result }
{
    let mut at = 0;
    'pieces: while at < bytes.len() {
        if is_blank(bytes[at]) {
            at += 1;
        } else if bytes[at] == b'-' && begins_comment(&bytes[at..]) {
            match line_end(&bytes[at..]) {
                Some(len) => at += len + 1,
                None => return bytes.len(),
            }
        } else {
            return at;
        }
    }
    at
}

/// Whether there are only blank bytes and comments.
pub(crate) fn is_all_blank(bytes: &[u8]) -> bool
    ensures { IsTrue result ↔ spec.IsBlank bytes.now }
{
    gap_len(bytes) == bytes.len()
}
