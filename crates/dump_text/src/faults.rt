ghost use Rattle.std.specs.Prelude.{◌≡◌};
ghost use Rattle.dump_text.specs.declared.faults.DumpFault.TheVariants as dump;
ghost use Rattle.dump_text.specs.Faults.{dump_refusal};

use lore_base::{Fault, NoMemory, Refusal};
use thiserror::Error;

/// Why a dump text is refused.
#[derive(Clone, Copy, Debug, PartialEq, Eq, Error)]
pub enum DumpFault {
    /// The text stands for no valid database.
    #[error("the dump text stands for no valid database")]
    Bad,
    /// Memory was refused.
    #[error("out of memory")]
    NoMemory,
}

impl Fault for DumpFault {
    ghost refusal_of = { dump_refusal };

    fn refusal(&self) -> Option<Refusal> {
        match self {
            DumpFault::Bad => Some(Refusal::BadRestore),
            DumpFault::NoMemory => None,
        }
    }
}

impl From<NoMemory> for DumpFault {
    ghost from_gives = { λ _ given. given ≡ dump.NoMemory };

    fn from(_error: NoMemory) -> DumpFault {
        DumpFault::NoMemory
    }
}
