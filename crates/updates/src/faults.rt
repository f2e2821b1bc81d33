ghost use Rattle.std.specs.Prelude.{◌≡◌};
ghost use Rattle.updates.specs.declared.faults.UpdateFault.TheVariants as fault;
ghost use Rattle.updates.specs.Faults as spec;

use lore_base::{Fault, NoMemory, Refusal};
use std::alloc::{AllocError, AllocFailed};
use thiserror::Error;

/// Why an update is refused once its rows are known. The first cause that applies is answered, in
/// this order.
#[derive(Clone, Copy, Debug, PartialEq, Eq, Error)]
pub enum UpdateFault {
    /// A local marks two objects of the literal.
    #[error("a local marks two objects")]
    DuplicateLocal,
    /// A local is used and marks no object of the literal.
    #[error("a local marks no object")]
    UndefinedLocal,
    /// An edge would leave an atomic object.
    #[error("an edge would leave an atomic object")]
    AtomicParent,
    /// An object that an edge leaves would get an atomic value.
    #[error("an object that an edge leaves would get an atomic value")]
    HasChildren,
    /// The number of a new object would pass the greatest one.
    #[error("the numbers of objects are spent")]
    OidsSpent,
    /// There would be more labels than `LABELS`.
    #[error("too many labels")]
    TooManyLabels,
    /// There would be more objects than `OBJECTS`.
    #[error("too many objects")]
    TooManyObjects,
    /// There would be more edges than `EDGES`.
    #[error("too many edges")]
    TooManyEdges,
    /// Memory was refused.
    #[error("out of memory")]
    NoMemory,
}

impl Fault for UpdateFault {
    ghost refusal_of = { spec.refusal_of };

    fn refusal(&self) -> Option<Refusal> {
        match self {
            UpdateFault::DuplicateLocal => Some(Refusal::DuplicateLocal),
            UpdateFault::UndefinedLocal => Some(Refusal::UndefinedLocal),
            UpdateFault::AtomicParent => Some(Refusal::AtomicParent),
            UpdateFault::HasChildren => Some(Refusal::HasChildren),
            UpdateFault::OidsSpent => Some(Refusal::OidsSpent),
            UpdateFault::TooManyLabels => Some(Refusal::TooManyLabels),
            UpdateFault::TooManyObjects => Some(Refusal::TooManyObjects),
            UpdateFault::TooManyEdges => Some(Refusal::TooManyEdges),
            UpdateFault::NoMemory => None,
        }
    }
}

impl From<NoMemory> for UpdateFault {
    ghost from_gives = { λ _ given. given ≡ fault.NoMemory };

    fn from(_error: NoMemory) -> UpdateFault {
        UpdateFault::NoMemory
    }
}

impl From<AllocError> for UpdateFault {
    ghost from_gives = { λ _ given. given ≡ fault.NoMemory };

    fn from(_error: AllocError) -> UpdateFault {
        UpdateFault::NoMemory
    }
}

impl<T: Drop> From<AllocFailed<T>> for UpdateFault {
    ghost from_gives = { λ _ given. given ≡ fault.NoMemory };

    fn from(_error: AllocFailed<T>) -> UpdateFault {
        UpdateFault::NoMemory
    }
}
