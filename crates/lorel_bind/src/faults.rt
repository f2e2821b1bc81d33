ghost use Rattle.std.specs.Prelude.{◌≡◌};
ghost use Rattle.lorel_bind.specs.declared.faults.BindFault.TheVariants as fault;
ghost use Rattle.lorel_bind.specs.Faults as spec;

use lore_base::{Fault, NoMemory, Refusal};
use std::alloc::{AllocError, AllocFailed};
use thiserror::Error;

/// Why a select can't be bound. The first cause that applies is answered, in this order.
#[derive(Clone, Copy, Debug, PartialEq, Eq, Error)]
pub enum BindFault {
    /// A path starts at an identifier that is neither a variable in scope nor a name, and is ranged
    /// nowhere.
    #[error("a path starts at an unknown name")]
    UnknownName,
    /// A path starts at an identifier that is neither a variable in scope nor a name, but is ranged
    /// elsewhere; or an item names a path variable that no from item has.
    #[error("a path starts at a variable that is not in scope, or path-of names a path variable that no range has")]
    UnknownVariable,
    /// An identifier is ranged twice.
    #[error("a variable is ranged twice")]
    DuplicateVariable,
    /// More than 8 ranges are left after fusing, or there are more than 8 items or 64 path leaves.
    #[error("too many ranges, items or path leaves")]
    TooManyRanges,
    /// Memory was refused.
    #[error("out of memory")]
    NoMemory,
}

impl Fault for BindFault {
    ghost refusal_of = { spec.refusal_of };

    fn refusal(&self) -> Option<Refusal> {
        match self {
            BindFault::UnknownName => Some(Refusal::UnknownName),
            BindFault::UnknownVariable => Some(Refusal::UnknownVariable),
            BindFault::DuplicateVariable => Some(Refusal::DuplicateVariable),
            BindFault::TooManyRanges => Some(Refusal::TooManyRanges),
            BindFault::NoMemory => None,
        }
    }
}

impl From<NoMemory> for BindFault {
    ghost from_gives = { λ _ given. given ≡ fault.NoMemory };

    fn from(_error: NoMemory) -> BindFault {
        BindFault::NoMemory
    }
}

impl From<AllocError> for BindFault {
    ghost from_gives = { λ _ given. given ≡ fault.NoMemory };

    fn from(_error: AllocError) -> BindFault {
        BindFault::NoMemory
    }
}

impl<T: Drop> From<AllocFailed<T>> for BindFault {
    ghost from_gives = { λ _ given. given ≡ fault.NoMemory };

    fn from(_error: AllocFailed<T>) -> BindFault {
        BindFault::NoMemory
    }
}
