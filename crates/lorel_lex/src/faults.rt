ghost use Rattle.std.specs.Prelude.{◌≡◌};
ghost use Rattle.lorel_lex.specs.Types.{NoMemory as MemoryRefused};
ghost use Rattle.lorel_lex.specs.Faults as spec;

use lore_base::{Fault, NoMemory, Refusal};
use thiserror::Error;

/// Why a chunk has no tokens.
#[derive(Clone, Copy, Debug, PartialEq, Eq, Error)]
pub enum LexFault {
    /// The chunk is not UTF-8, or no token starts at some place.
    #[error("some bytes are no token")]
    BadToken,
    /// A `.` and a digit right behind a number.
    #[error("a number has a fraction")]
    RealRefused,
    /// A number beyond 64 bits, or a local beyond 32.
    #[error("a number is out of range")]
    NumberRange,
    /// A text beyond `TEXT_BYTES`, or an identifier, a pattern or a quoted label beyond `WORD_BYTES`.
    #[error("a text, a word or a label is too long")]
    TextTooLong,
    #[error("out of memory")]
    NoMemory,
}

impl From<NoMemory> for LexFault {
    ghost from_gives = { λ _ fault. fault ≡ MemoryRefused };

    fn from(_error: NoMemory) -> LexFault {
        LexFault::NoMemory
    }
}

impl Fault for LexFault {
    ghost refusal_of = { spec.refusal_of };

    fn refusal(&self) -> Option<Refusal> {
        match self {
            LexFault::BadToken => Some(Refusal::BadToken),
            LexFault::RealRefused => Some(Refusal::RealRefused),
            LexFault::NumberRange => Some(Refusal::NumberRange),
            LexFault::TextTooLong => Some(Refusal::TextTooLong),
            LexFault::NoMemory => None,
        }
    }
}
