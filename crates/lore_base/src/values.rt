ghost use Rattle.std.specs.Prelude.{◌≡◌, IfOk};
ghost use Rattle.lore_base.specs.Types.{Value as TheValue};
ghost use Rattle.lore_base.specs.Databases.{is_complex};

use lore_lists::{NoMemory, OemText, TryCopy};
use std::alloc::Global;

/// The value of an object: atomic, a whole number, a text or a flag, or complex, and then its edges
/// are its value.
#[derive(Debug, Drop)]
pub enum Value {
    Whole(i64),
    Chars(OemText),
    Flag(bool),
    Complex,
}

impl Value {
    /// Whether this is the value of a complex object, and no atom.
    pub fn is_complex(&self) -> bool
        ensures { result ≡ is_complex self.now }
    {
        matches!(self, Value::Complex)
    }
}

impl TryCopy for Value {
    ghost Seen = { TheValue };

    ghost seen = { λ value. value };

    fn try_copy(&self, alloc: Global) -> Result<Self, NoMemory> {
        match self {
            Value::Whole(number) => Ok(Value::Whole(*number)),
            Value::Chars(text) => Ok(Value::Chars(text.try_copy(alloc)?)),
            Value::Flag(flag) => Ok(Value::Flag(*flag)),
            Value::Complex => Ok(Value::Complex),
        }
    }
}
