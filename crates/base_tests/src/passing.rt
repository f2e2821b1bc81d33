use lore_base::NoMemory;
use std::test::Fail;

// Tables are lent to the functions that walk them, and what is looked at there is lent too: there a
// table is any slice, and nothing has to be let go where a walk ends early.

/// Fails with this text where something isn't as it is to be.
pub(crate) fn pass(is_so: Result<bool, NoMemory>, text: &'static str) -> Result<(), Fail> {
    if is_so? { Ok(()) } else { Err(Fail::new(text)) }
}
