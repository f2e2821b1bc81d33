ghost use Rattle.std.specs.Prelude.{◌≡◌};
ghost use Rattle.lore_store.specs.declared.faults.StoreFault.TheVariants as fault;
ghost use Rattle.lore_store.specs.declared.faults.RestoreFault.TheVariants as restore;
ghost use Rattle.lore_store.specs.Faults as spec;

use dataguide::GuideFault;
use lore_base::{Fault, NoMemory, Refusal};
use std::alloc::{AllocError, AllocFailed};
use thiserror::Error;

/// Why a change is refused for what the database would hold afterwards. The first cause that
/// applies is answered, in this order.
#[derive(Clone, Copy, Debug, PartialEq, Eq, Error)]
pub enum StoreFault {
    /// There would be more names than `NAMES`.
    #[error("too many names")]
    TooManyNames,
    /// There would be more objects than `OBJECTS`.
    #[error("too many objects")]
    TooManyObjects,
    /// There would be more edges than `EDGES`.
    #[error("too many edges")]
    TooManyEdges,
    /// The guide wouldn't fit: its first set that doesn't is one more than the limit on nodes.
    #[error("too many nodes of the guide")]
    GuideNodes,
    /// The guide wouldn't fit: with its first set that doesn't, the sets have more members than
    /// `CELLS`.
    #[error("too many members of the guide's sets")]
    GuideCells,
    /// Memory was refused.
    #[error("out of memory")]
    NoMemory,
}

impl Fault for StoreFault {
    ghost refusal_of = { spec.refusal_of };

    fn refusal(&self) -> Option<Refusal> {
        match self {
            StoreFault::TooManyNames => Some(Refusal::TooManyNames),
            StoreFault::TooManyObjects => Some(Refusal::TooManyObjects),
            StoreFault::TooManyEdges => Some(Refusal::TooManyEdges),
            StoreFault::GuideNodes => Some(Refusal::GuideNodes),
            StoreFault::GuideCells => Some(Refusal::GuideCells),
            StoreFault::NoMemory => None,
        }
    }
}

impl From<NoMemory> for StoreFault {
    ghost from_gives = { λ _ given. given ≡ fault.NoMemory };

    fn from(_error: NoMemory) -> StoreFault {
        StoreFault::NoMemory
    }
}

impl From<GuideFault> for StoreFault {
    ghost from_gives = { λ error given. given ≡ spec.guide_fault error };

    fn from(error: GuideFault) -> StoreFault {
        match error {
            GuideFault::Nodes => StoreFault::GuideNodes,
            GuideFault::Cells => StoreFault::GuideCells,
            GuideFault::NoMemory => StoreFault::NoMemory,
        }
    }
}

impl From<AllocError> for StoreFault {
    ghost from_gives = { λ _ given. given ≡ fault.NoMemory };

    fn from(_error: AllocError) -> StoreFault {
        StoreFault::NoMemory
    }
}

impl<T: Drop> From<AllocFailed<T>> for StoreFault {
    ghost from_gives = { λ _ given. given ≡ fault.NoMemory };

    fn from(_error: AllocFailed<T>) -> StoreFault {
        StoreFault::NoMemory
    }
}

/// Why a database can't be restored.
#[derive(Clone, Copy, Debug, PartialEq, Eq, Error)]
pub enum RestoreFault {
    /// The guide doesn't fit: its first set that doesn't is one more than the limit on nodes.
    #[error("too many nodes of the guide")]
    GuideNodes,
    /// The guide doesn't fit: with its first set that doesn't, the sets have more members than `CELLS`.
    #[error("too many members of the guide's sets")]
    GuideCells,
    /// Memory was refused.
    #[error("out of memory")]
    NoMemory,
}

impl Fault for RestoreFault {
    ghost refusal_of = { spec.restore_refusal };

    fn refusal(&self) -> Option<Refusal> {
        match self {
            // The limit stands in the text as the edges do, so that the text contradicts itself:
            // it is the dump of no database, and the session's own limit is not passed.
            RestoreFault::GuideNodes | RestoreFault::GuideCells => Some(Refusal::BadRestore),
            RestoreFault::NoMemory => None,
        }
    }
}

impl From<NoMemory> for RestoreFault {
    ghost from_gives = { λ _ given. given ≡ restore.NoMemory };

    fn from(_error: NoMemory) -> RestoreFault {
        RestoreFault::NoMemory
    }
}

impl From<GuideFault> for RestoreFault {
    ghost from_gives = { λ error given. given ≡ spec.guide_restore_fault error };

    fn from(error: GuideFault) -> RestoreFault {
        match error {
            GuideFault::Nodes => RestoreFault::GuideNodes,
            GuideFault::Cells => RestoreFault::GuideCells,
            GuideFault::NoMemory => RestoreFault::NoMemory,
        }
    }
}
