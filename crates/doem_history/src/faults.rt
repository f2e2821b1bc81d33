ghost use Rattle.std.specs.Prelude.{◌≡◌};
ghost use Rattle.doem_history.specs.Faults as spec;

use lore_base::{Fault, Refusal};
use thiserror::Error;

/// Why a history can't be started, or a moment not be appended to one.
#[derive(Clone, Copy, Debug, PartialEq, Eq, Error)]
pub enum HistoryFault {
    /// The history would weigh more than `HISTORY_WEIGHT`, or have a moment above `MOMENTS`.
    #[error("the history is full")]
    Full,
    /// Memory was refused.
    #[error("out of memory")]
    NoMemory,
}

impl Fault for HistoryFault {
    ghost refusal_of = { spec.refusal_of };

    fn refusal(&self) -> Option<Refusal> {
        match self {
            HistoryFault::Full => Some(Refusal::HistoryFull),
            HistoryFault::NoMemory => None,
        }
    }
}
