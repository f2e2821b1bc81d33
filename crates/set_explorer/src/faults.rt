ghost use Rattle.std.specs.Prelude.{◌≡◌};
ghost use Rattle.set_explorer.specs.declared.faults.GuideFault.TheVariants as fault;

use lore_base::NoMemory;
use std::alloc::{AllocError, AllocFailed};
use thiserror::Error;

/// Why a guide can't be had.
#[derive(Clone, Copy, Debug, PartialEq, Eq, Error)]
pub enum GuideFault {
    /// One of the first sets is one more than the limit on nodes.
    #[error("more target sets than the limit on the guide's nodes")]
    Nodes,
    /// With one of the first sets, all sets have more members than a guide may have.
    #[error("more members of target sets than a guide may have")]
    Cells,
    /// Memory was refused.
    #[error("out of memory")]
    NoMemory,
}

impl From<NoMemory> for GuideFault {
    ghost from_gives = { λ _ given. given ≡ fault.NoMemory };

    fn from(_error: NoMemory) -> GuideFault {
        GuideFault::NoMemory
    }
}

impl From<AllocError> for GuideFault {
    ghost from_gives = { λ _ given. given ≡ fault.NoMemory };

    fn from(_error: AllocError) -> GuideFault {
        GuideFault::NoMemory
    }
}

impl<T: Drop> From<AllocFailed<T>> for GuideFault {
    ghost from_gives = { λ _ given. given ≡ fault.NoMemory };

    fn from(_error: AllocFailed<T>) -> GuideFault {
        GuideFault::NoMemory
    }
}
