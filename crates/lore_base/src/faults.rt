ghost use Rattle.std.specs.Prelude.{◌≡◌, Option, None};
ghost use Rattle.lore_base.specs.Types.{Refusal as TheRefusal};

use crate::refusals::Refusal;
use lore_lists::NoMemory;

/// Why work on a statement ends early: a refusal that the reply tells, or want of memory, which
/// ends the run.
pub trait Fault {
    /// The refusal that the fault is answered with; None for want of memory.
    ghost refusal_of: { Self → Option TheRefusal };

    /// The refusal that the fault is answered with; None for want of memory.
    fn refusal(&self) -> Option<Refusal>
        ensures { result ≡ refusal_of self.now };
}

impl Fault for NoMemory {
    ghost refusal_of = { λ _. None };

    fn refusal(&self) -> Option<Refusal> {
        None
    }
}
