ghost use Rattle.std.specs.Prelude.{◌≡◌};
ghost use Rattle.oem_text.specs.declared.faults.LocalFault.TheVariants as local;
ghost use Rattle.oem_text.specs.declared.faults.TextFault.TheVariants as text;
ghost use Rattle.oem_text.specs.Faults.{local_refusal, text_refusal};

use lore_base::{Fault, NoMemory, Refusal};
use std::alloc::{AllocError, AllocFailed};
use thiserror::Error;

/// Why the locals of a literal are refused. The first cause that applies is answered, in this order.
#[derive(Clone, Copy, Debug, PartialEq, Eq, Error)]
pub enum LocalFault {
    /// A local marks two objects of the literal.
    #[error("a local marks two objects")]
    DuplicateLocal,
    /// A local is used and marks no object of the literal.
    #[error("a local marks no object")]
    UndefinedLocal,
    /// Memory was refused.
    #[error("out of memory")]
    NoMemory,
}

/// Why a literal is refused, or generated objects, which have no locals. The first cause that
/// applies is answered, in this order.
#[derive(Clone, Copy, Debug, PartialEq, Eq, Error)]
pub enum TextFault {
    /// A local marks two objects of the literal.
    #[error("a local marks two objects")]
    DuplicateLocal,
    /// A local is used and marks no object of the literal.
    #[error("a local marks no object")]
    UndefinedLocal,
    /// The number of a new object would pass the greatest one.
    #[error("the numbers of objects are spent")]
    OidsSpent,
    /// There would be more labels than `LABELS`.
    #[error("too many labels")]
    TooManyLabels,
    /// Memory was refused.
    #[error("out of memory")]
    NoMemory,
}

impl Fault for LocalFault {
    ghost refusal_of = { local_refusal };

    fn refusal(&self) -> Option<Refusal> {
        match self {
            LocalFault::DuplicateLocal => Some(Refusal::DuplicateLocal),
            LocalFault::UndefinedLocal => Some(Refusal::UndefinedLocal),
            LocalFault::NoMemory => None,
        }
    }
}

impl From<NoMemory> for LocalFault {
    ghost from_gives = { λ _ given. given ≡ local.NoMemory };

    fn from(_error: NoMemory) -> LocalFault {
        LocalFault::NoMemory
    }
}

impl From<AllocError> for LocalFault {
    ghost from_gives = { λ _ given. given ≡ local.NoMemory };

    fn from(_error: AllocError) -> LocalFault {
        LocalFault::NoMemory
    }
}

impl<T: Drop> From<AllocFailed<T>> for LocalFault {
    ghost from_gives = { λ _ given. given ≡ local.NoMemory };

    fn from(_error: AllocFailed<T>) -> LocalFault {
        LocalFault::NoMemory
    }
}

impl Fault for TextFault {
    ghost refusal_of = { text_refusal };

    fn refusal(&self) -> Option<Refusal> {
        match self {
            TextFault::DuplicateLocal => Some(Refusal::DuplicateLocal),
            TextFault::UndefinedLocal => Some(Refusal::UndefinedLocal),
            TextFault::OidsSpent => Some(Refusal::OidsSpent),
            TextFault::TooManyLabels => Some(Refusal::TooManyLabels),
            TextFault::NoMemory => None,
        }
    }
}

impl From<NoMemory> for TextFault {
    ghost from_gives = { λ _ given. given ≡ text.NoMemory };

    fn from(_error: NoMemory) -> TextFault {
        TextFault::NoMemory
    }
}

impl From<AllocError> for TextFault {
    ghost from_gives = { λ _ given. given ≡ text.NoMemory };

    fn from(_error: AllocError) -> TextFault {
        TextFault::NoMemory
    }
}

impl<T: Drop> From<AllocFailed<T>> for TextFault {
    ghost from_gives = { λ _ given. given ≡ text.NoMemory };

    fn from(_error: AllocFailed<T>) -> TextFault {
        TextFault::NoMemory
    }
}
