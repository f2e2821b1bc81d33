ghost use Rattle.std.specs.Prelude.{◌≡◌, ◌≤◌, true, length, take};
ghost use Rattle.std.specs.List.{list_all};
ghost use Rattle.lorel_lex.specs.inside.Scanning.{StaysStill, Scans};
ghost use Rattle.lorel_lex.specs.inside.Scanning as spec_run;
ghost use Rattle.lorel_lex.specs.Scan as spec;

/// Where a scan of a script stands.
#[derive(Clone, Copy, Debug, PartialEq, Eq)]
pub enum State {
    /// Outside comments, texts and quoted labels.
    Plain,
    /// The same, behind a `-`.
    Dash,
    Comment,
    Text,
    /// In a text, behind a `\`.
    TextEscape,
    Quoted,
    /// In a quoted label, behind a `\`.
    QuotedEscape,
}

fn is_end(state: State, byte: u8) -> bool
    ensures { result ≡ spec.is_end state byte }
{
    match state {
        State::Plain | State::Dash => byte == b';',
        State::Comment | State::Text | State::TextEscape | State::Quoted | State::QuotedEscape =>
            false,
    }
}

fn opened(byte: u8) -> State
    ensures { result ≡ spec.opened byte }
{
    match byte {
        b'"' => State::Text,
        b'\'' => State::Quoted,
        _ => State::Plain,
    }
}

fn state_after(state: State, byte: u8) -> State
    ensures { result ≡ spec.state_after state byte }
{
    match state {
        State::Plain if byte == b'-' => State::Dash,
        State::Dash if byte == b'-' => State::Comment,
        State::Plain | State::Dash => opened(byte),
        State::Comment if byte == b'\n' => State::Plain,
        State::Comment => State::Comment,
        State::Text if byte == b'"' => State::Plain,
        State::Text if byte == b'\\' => State::TextEscape,
        State::Text | State::TextEscape => State::Text,
        State::Quoted if byte == b'\'' => State::Plain,
        State::Quoted if byte == b'\\' => State::QuotedEscape,
        State::Quoted | State::QuotedEscape => State::Quoted,
    }
}

/// What a scan met.
pub enum Scanned {
    /// The `;` that ends the chunk, at this place.
    End(usize),
    /// No such `;`: the state behind all bytes.
    Open(State),
}

fn is_neither(one: u8, other: u8, byte: u8) -> bool
    ensures { result ≡ spec_run.is_neither one other byte }
{
    byte != one && byte != other
}

// Which bytes open nothing and end no chunk: all but `"`, `'`, `-` and `;`.
const PLAIN_BYTES: [bool; 256] = [
    true, true, true, true, true, true, true, true, true, true, true, true, true, true, true, true,
    true, true, true, true, true, true, true, true, true, true, true, true, true, true, true, true,
    true, true, false, true, true, true, true, false, true, true, true, true, true, false, true,
    true, true, true, true, true, true, true, true, true, true, true, true, false, true, true,
    true, true, true, true, true, true, true, true, true, true, true, true, true, true, true, true,
    true, true, true, true, true, true, true, true, true, true, true, true, true, true, true, true,
    true, true, true, true, true, true, true, true, true, true, true, true, true, true, true, true,
    true, true, true, true, true, true, true, true, true, true, true, true, true, true, true, true,
    true, true, true, true, true, true, true, true, true, true, true, true, true, true, true, true,
    true, true, true, true, true, true, true, true, true, true, true, true, true, true, true, true,
    true, true, true, true, true, true, true, true, true, true, true, true, true, true, true, true,
    true, true, true, true, true, true, true, true, true, true, true, true, true, true, true, true,
    true, true, true, true, true, true, true, true, true, true, true, true, true, true, true, true,
    true, true, true, true, true, true, true, true, true, true, true, true, true, true, true, true,
    true, true, true, true, true, true, true, true, true, true, true, true, true, true, true, true,
    true, true, true, true, true, true, true, true, true, true, true, true, true, true, true, true,
    true, true,
];

// Whether the byte opens nothing and ends no chunk: a look-up, since most bytes are asked this.
fn is_plain(byte: u8) -> bool
    ensures { result ≡ spec_run.is_plain byte }
{
    PLAIN_BYTES[byte as usize]
}

/// How many bytes at the front stand before the first of these two.
pub(crate) fn before(bytes: &[u8], one: u8, other: u8) -> usize
    ensures within { result ≤ length bytes.now }
    ensures passed { list_all (spec_run.is_neither one other) (take result bytes.now) ≡ true }
{
    'bytes: for (i, byte) in bytes.iter().enumerate() {
        if !is_neither(one, other, *byte) {
            return i;
        }
    }
    bytes.len()
}

// Whether all of these open nothing and end no chunk. Each is looked up, so that eight of them take
// no more than one test.
fn are_plain(bytes: &[u8]) -> bool
    ensures { result ≡ list_all spec_run.is_plain bytes.now }
{
    let mut all = true;
    'bytes: for byte in bytes {
        all &= is_plain(*byte);
    }
    all
}

// How many bytes at the front, taken by eight, open nothing and end no chunk.
fn plain_eights(bytes: &[u8]) -> usize
    ensures within { result ≤ length bytes.now }
    ensures passed { list_all spec_run.is_plain (take result bytes.now) ≡ true }
{
    let mut at = 0;
    'eights: while bytes.len() - at >= 8 {
        if !are_plain(&bytes[at..at + 8]) {
            return at;
        }
        at += 8;
    }
    at
}

// How many bytes at the front stand before the first that opens something or ends the chunk.
fn plain_run(bytes: &[u8]) -> usize
    ensures within { result ≤ length bytes.now }
    ensures passed { list_all spec_run.is_plain (take result bytes.now) ≡ true }
{
    'bytes: for (i, byte) in bytes.iter().enumerate() {
        if !is_plain(*byte) {
            return i;
        }
    }
    bytes.len()
}

// The same, eight bytes at a time as long as these pass.
fn plain_len(bytes: &[u8]) -> usize
    ensures within { result ≤ length bytes.now }
    ensures passed { list_all spec_run.is_plain (take result bytes.now) ≡ true }
{
    let eights = plain_eights(bytes);
    eights + plain_run(&bytes[eights..])
}

// How many bytes at the front leave the state as it is, and end no chunk.
fn still_len(state: State, bytes: &[u8]) -> usize
    ensures { StaysStill state bytes.now result }
{
    match state {
        State::Plain => plain_len(bytes),
        State::Comment => before(bytes, b'\n', b'\n'),
        State::Text => before(bytes, b'"', b'\\'),
        State::Quoted => before(bytes, b'\'', b'\\'),
        State::Dash | State::TextEscape | State::QuotedEscape => 0,
    }
}

/// Scans bytes of a chunk from a state, up to the `;` that ends the chunk. Bytes that leave the
/// state as it is go by in one run.
pub(crate) fn scan(from: State, bytes: &[u8]) -> Scanned
    ensures { Scans from bytes.now result }
{
    let mut state = from;
    let mut at = 0;
    'bytes: while at < bytes.len() {
        at += still_len(state, &bytes[at..]);
        if at == bytes.len() {
            return Scanned::Open(state);
        }
        if is_end(state, bytes[at]) {
            return Scanned::End(at);
        }
        state = state_after(state, bytes[at]);
        at += 1;
    }
    Scanned::Open(state)
}
