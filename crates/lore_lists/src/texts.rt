ghost use Rattle.std.specs.Prelude.{◌≡◌, ℕ, ◌<◌, List, ◌++◌, length, IfOk, OnOk, OnErr};
ghost use Rattle.lore_lists.specs.Pieces.{kept};

use crate::lists::TryCopy;
use crate::no_memory::NoMemory;
use crate::out::Out;
use arrayvec::ArrayVec;
use std::alloc::Global;
use std::marker::Model;

/// A text, kept as its bytes and seen by contracts as their list. They need not be UTF-8. Up to 8
/// bytes stand in the text itself, so that most labels and words take no block of memory of their
/// own.
#[derive(Debug, Drop)]
pub struct OemText {
    bytes: TextBytes,
}

#[derive(Debug, Drop)]
pub(crate) enum TextBytes {
    Short(ArrayVec<u8, 8>, Global),
    Long(Box<Vec<u8>>),
}

impl Model for OemText {
    ghost use Rattle.std.specs.Prelude.{ℕ, List};
    ghost use Rattle.lore_lists.specs.inside.Texts.{bytes_of};

    ghost Value = { List ℕ };

    ghost view = { λ t. bytes_of t.bytes };
}

impl OemText {
    /// The text of these bytes.
    pub fn from_bytes(alloc: Global, bytes: &[u8]) -> Result<OemText, NoMemory>
        ensures { IfOk result (λ text. text ≡ bytes.now) }
    {
        if let Ok(short) = ArrayVec::try_from(bytes) {
            return Ok(OemText {
                bytes: TextBytes::Short(short, alloc),
            });
        }
        let long = Box::new(alloc, Vec::from_slice(alloc, bytes)?)?;
        Ok(OemText {
            bytes: TextBytes::Long(long),
        })
    }

    /// The text of a finished vector's bytes. More than 8 of them stay where they are.
    pub fn from_vec(alloc: Global, bytes: Vec<u8>) -> Result<OemText, NoMemory>
        ensures { IfOk result (λ text. text ≡ bytes.items) }
    {
        if let Ok(short) = ArrayVec::try_from(bytes.as_slice()) {
            return Ok(OemText {
                bytes: TextBytes::Short(short, alloc),
            });
        }
        Ok(OemText {
            bytes: TextBytes::Long(Box::new(alloc, bytes)?),
        })
    }

    /// The bytes of the text. Takes no memory.
    pub fn as_bytes(&self) -> &[u8]
        ensures { result.now ≡ self.now }
    {
        match &self.bytes {
            TextBytes::Short(short, _) => short.as_slice(),
            TextBytes::Long(long) => long.as_slice(),
        }
    }
}

impl TryCopy for OemText {
    ghost Seen = { List ℕ };

    ghost seen = { λ text. text };

    fn try_copy(&self, alloc: Global) -> Result<Self, NoMemory> {
        OemText::from_bytes(alloc, self.as_bytes())
    }
}

impl Out for OemText {
    type Fault = NoMemory;

    ghost state = { λ text. kept text };

    ghost is_memory = { λ _. Unit {0} };

    /// Puts the bytes behind those that are there. The text stays as it was where memory is refused.
    fn put(&mut self, piece: &[u8]) -> Result<(), NoMemory>
        ensures ok { OnOk result (self.new ≡ self.old ++ piece.now) }
        ensures err { OnErr result (self.new ≡ self.old) }
        ensures some { OnErr result (0 < length piece.now) }
    {
        if piece.is_empty() {
            return Ok(());
        }
        match &mut self.bytes {
            TextBytes::Short(short, alloc) => match short.try_extend_from_slice(piece) {
                Ok(()) => {}
                Err(_full) => {
                    let long = joined(*alloc, short.as_slice(), piece)?;
                    self.bytes = TextBytes::Long(Box::new(*alloc, long)?);
                }
            },
            TextBytes::Long(long) => long.extend_from_slice(piece)?,
        }
        Ok(())
    }
}

// These bytes and those behind them, in one vector.
fn joined(alloc: Global, bytes: &[u8], more: &[u8]) -> Result<Vec<u8>, NoMemory>
    ensures { IfOk result (λ whole. whole.items ≡ bytes.now ++ more.now) }
{
    let mut whole = Vec::with_capacity(alloc, bytes.len().saturating_add(more.len()))?;
    whole.extend_from_slice(bytes)?;
    whole.extend_from_slice(more)?;
    Ok(whole)
}
