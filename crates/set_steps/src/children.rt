ghost use Rattle.std.specs.Prelude.{◌≡◌, [], ◌∷◌, ◌++◌, Contains, IfOk, OnOk};
ghost use Rattle.std.specs.Bool.{OnTrue};
ghost use Rattle.oem_set.specs.Sets.{IsSet};
ghost use Rattle.set_steps.specs.inside.Buckets.{HasMember};

use lore_base::{NoMemory, Oid, OidBuf};
use std::alloc::Global;
use std::marker::Model;

// Children as they come, and whether all that came so far ascend.
#[derive(Drop)]
pub(crate) struct Children {
    oids: OidBuf,
    ascend: bool,
}

impl Model for Children {
    ghost use Rattle.std.specs.Prelude.{List};
    ghost use Rattle.std.specs.Bool.{OnTrue};
    ghost use Rattle.oem_set.specs.Sets.{IsSet};
    ghost use Rattle.set_steps.specs.Types.{Oid};

    ghost Value = { List Oid };

    ghost view = { λ c. c.oids };

    ghost invariant = { λ c. OnTrue c.ascend (IsSet c.oids) };
}

impl Children {
    // One child, with room for so many.
    pub(crate) fn of_one(alloc: Global, room: usize, child: Oid) -> Result<Children, NoMemory>
        ensures { IfOk result (λ children. children ≡ child ∷ []) }
    {
        let mut oids = OidBuf::with_capacity(alloc, room)?;
        oids.push(child)?;
        Ok(Children { oids, ascend: true })
    }

    // Puts a child behind the others, unless it is the last one there.
    pub(crate) fn add(&mut self, child: Oid) -> Result<(), NoMemory>
        ensures { OnOk result (HasMember self.old child self.new) }
    {
        if !end_below(self.oids.as_slice(), child) {
            if is_last(self.oids.as_slice(), child) {
                return Ok(());
            }
            self.ascend = false;
        }
        self.oids.push(child)?;
        Ok(())
    }

    pub(crate) fn as_slice(&self) -> &[Oid]
        ensures { result.now ≡ self.now }
    {
        self.oids.as_slice()
    }

    // Whether they ascend.
    pub(crate) fn ascend(&self) -> bool
        ensures { OnTrue result (IsSet self.now) }
    {
        self.ascend
    }
}

// Whether the last of the objects is below this one.
fn end_below(oids: &[Oid], oid: Oid) -> bool
    ensures { OnTrue result (IsSet oids.now → IsSet (oids.now ++ oid ∷ [])) }
{
    match oids.last() {
        Some(last) => last.0 < oid.0,
        None => false,
    }
}

// Whether the object is the last one.
fn is_last(oids: &[Oid], oid: Oid) -> bool
    ensures { OnTrue result (Contains oids.now oid) }
{
    match oids.last() {
        Some(last) => last.0 == oid.0,
        None => false,
    }
}
