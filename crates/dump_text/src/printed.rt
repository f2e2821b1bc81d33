ghost use Rattle.std.specs.Prelude.{◌≡◌, ◌<◌, [], ◌∷◌, ◌++◌, length, OnOk, OnErr};
ghost use Rattle.lore_base.specs.Pieces.{kept};

use lore_base::{NoMemory, Out};
use std::alloc::Global;
use std::marker::Model;

/// The dump of a database as it is printed: lines that each have their end. All of them stand in
/// one block of memory; contracts see their bytes.
#[derive(Drop)]
pub struct PrintedDump {
    bytes: Vec<u8>,
}

impl Model for PrintedDump {
    ghost use Rattle.std.specs.Prelude.{ℕ, List};

    ghost Value = { List ℕ };

    ghost view = { λ d. d.bytes.items };
}

impl PrintedDump {
    // No line. Takes no memory.
    pub(crate) fn new(alloc: Global) -> PrintedDump
        ensures { result ≡ [] }
    {
        PrintedDump {
            bytes: Vec::new(alloc),
        }
    }

    /// The bytes of all lines. Takes no memory.
    pub fn as_bytes(&self) -> &[u8]
        ensures { result.now ≡ self.now }
    {
        self.bytes.as_slice()
    }

    // Puts one byte behind those that are there.
    pub(crate) fn push(&mut self, byte: u8) -> Result<(), NoMemory>
        ensures { OnOk result (self.new ≡ self.old ++ byte ∷ []) }
    {
        self.bytes.push(byte)?;
        Ok(())
    }
}

impl Out for PrintedDump {
    type Fault = NoMemory;

    ghost state = { λ dump. kept dump };

    ghost is_memory = { λ _. Unit {0} };

    // Puts the bytes behind those that are there. They stay as they were where memory is refused.
    fn put(&mut self, piece: &[u8]) -> Result<(), NoMemory>
        ensures ok { OnOk result (self.new ≡ self.old ++ piece.now) }
        ensures err { OnErr result (self.new ≡ self.old) }
        ensures some { OnErr result (0 < length piece.now) }
    {
        self.bytes.extend_from_slice(piece)?;
        Ok(())
    }
}
