ghost use Rattle.std.specs.Prelude.{◌≡◌};
ghost use Rattle.lorel_terms.specs.declared.faults.ParseFault.TheVariants as fault;
ghost use Rattle.lorel_terms.specs.Faults as spec;

use lore_base::{Fault, NoMemory, Refusal};
use std::alloc::{AllocError, AllocFailed};
use thiserror::Error;

/// Why tokens have no tree.
#[derive(Clone, Copy, Debug, PartialEq, Eq, Error)]
pub enum ParseFault {
    /// They are no statement.
    #[error("not a statement")]
    Syntax,
    /// Memory was refused.
    #[error("out of memory")]
    NoMemory,
}

impl Fault for ParseFault {
    ghost refusal_of = { spec.refusal_of };

    fn refusal(&self) -> Option<Refusal> {
        match self {
            ParseFault::Syntax => Some(Refusal::Syntax),
            ParseFault::NoMemory => None,
        }
    }
}

impl From<NoMemory> for ParseFault {
    ghost from_gives = { λ _ given. given ≡ fault.NoMemory };

    fn from(_error: NoMemory) -> ParseFault {
        ParseFault::NoMemory
    }
}

impl From<AllocError> for ParseFault {
    ghost from_gives = { λ _ given. given ≡ fault.NoMemory };

    fn from(_error: AllocError) -> ParseFault {
        ParseFault::NoMemory
    }
}

impl<T: Drop> From<AllocFailed<T>> for ParseFault {
    ghost from_gives = { λ _ given. given ≡ fault.NoMemory };

    fn from(_error: AllocFailed<T>) -> ParseFault {
        ParseFault::NoMemory
    }
}
