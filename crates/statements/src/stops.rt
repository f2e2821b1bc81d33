ghost use Rattle.std.specs.Prelude.{◌≡◌, None, IfOk, IfErr, OnErr};
ghost use Rattle.statements.specs.Stops.{told, IsRepliedTo};
ghost use Rattle.lorel_bind.specs.Faults as binding;
ghost use Rattle.dump_text.specs.Faults.{dump_refusal};
ghost use Rattle.oem_text.specs.Faults.{local_refusal, text_refusal};
ghost use Rattle.updates.specs.Faults as updating;
ghost use Rattle.lore_store.specs.Faults as storing;

use crate::replies::Reply;
use dump_text::DumpFault;
use lore_base::{Fault, NoMemory, Refusal};
use lore_store::{RestoreFault, StoreFault};
use lorel_bind::BindFault;
use oem_text::{LocalFault, TextFault};
use updates::UpdateFault;

/// Why the work on a statement ends early.
#[derive(Clone, Copy, Debug, PartialEq, Eq)]
pub enum Stop {
    /// The statement is refused.
    Refused(Refusal),
    /// Memory was refused.
    NoMemory,
}

impl Stop {
    /// The stop that a fault makes, by the refusal that it is answered with.
    pub fn by(refusal: Option<Refusal>) -> Stop
        ensures { told result ≡ refusal }
    {
        match refusal {
            Some(refusal) => Stop::Refused(refusal),
            None => Stop::NoMemory,
        }
    }
}

/// The reply of work that may end early; want of memory has none.
pub fn reply_of(done: Result<Reply, Stop>) -> Result<Reply, NoMemory>
    ensures { IsRepliedTo done result }
{
    match done {
        Ok(reply) => Ok(reply),
        Err(Stop::Refused(refusal)) => Ok(Reply::Refused(refusal)),
        Err(Stop::NoMemory) => Err(NoMemory),
    }
}

impl From<NoMemory> for Stop {
    ghost from_gives = { λ _ given. told given ≡ None };

    fn from(_error: NoMemory) -> Stop {
        Stop::NoMemory
    }
}

impl From<BindFault> for Stop {
    ghost from_gives = { λ fault given. told given ≡ binding.refusal_of fault };

    fn from(fault: BindFault) -> Stop {
        Stop::by(fault.refusal())
    }
}

impl From<LocalFault> for Stop {
    ghost from_gives = { λ fault given. told given ≡ local_refusal fault };

    fn from(fault: LocalFault) -> Stop {
        Stop::by(fault.refusal())
    }
}

impl From<TextFault> for Stop {
    ghost from_gives = { λ fault given. told given ≡ text_refusal fault };

    fn from(fault: TextFault) -> Stop {
        Stop::by(fault.refusal())
    }
}

impl From<DumpFault> for Stop {
    ghost from_gives = { λ fault given. told given ≡ dump_refusal fault };

    fn from(fault: DumpFault) -> Stop {
        Stop::by(fault.refusal())
    }
}

impl From<UpdateFault> for Stop {
    ghost from_gives = { λ fault given. told given ≡ updating.refusal_of fault };

    fn from(fault: UpdateFault) -> Stop {
        Stop::by(fault.refusal())
    }
}

impl From<StoreFault> for Stop {
    ghost from_gives = { λ fault given. told given ≡ storing.refusal_of fault };

    fn from(fault: StoreFault) -> Stop {
        Stop::by(fault.refusal())
    }
}

impl From<RestoreFault> for Stop {
    ghost from_gives = { λ fault given. told given ≡ storing.restore_refusal fault };

    fn from(fault: RestoreFault) -> Stop {
        Stop::by(fault.refusal())
    }
}
