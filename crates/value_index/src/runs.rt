ghost use Rattle.std.specs.Prelude.{◌≡◌, ◌<◌, ◌^◌, ◌++◌, length, OnOk, OnErr};
ghost use Rattle.lore_base.specs.Lists.{Extends};
ghost use Rattle.value_index.specs.inside.Runs.{objects_in};

use lore_base::{NoMemory, OidBuf};
use std::marker::Model;
use value_orders::Entry;

// What a probe finds in each of the five orders. Contracts see it as the list of the objects.
#[derive(Drop)]
pub(crate) struct Runs<'a> {
    pub(crate) wholes: &'a [Entry],
    pub(crate) chars: &'a [Entry],
    pub(crate) flags: &'a [Entry],
    pub(crate) readings: &'a [Entry],
    pub(crate) flag_readings: &'a [Entry],
}

impl<'a> Model for Runs<'a> {
    ghost use Rattle.std.specs.Prelude.{List, ◌++◌};
    ghost use Rattle.value_index.specs.Types.{Oid};
    ghost use Rattle.value_index.specs.inside.Runs.{objects_in};

    ghost Value = { List Oid };

    ghost view = { λ r.
        objects_in r.wholes.now ++ (objects_in r.chars.now ++ (objects_in r.flags.now
        ++ (objects_in r.readings.now ++ objects_in r.flag_readings.now))) };
}

impl<'a> Runs<'a> {
    // The number of objects.
    pub(crate) fn len(&self) -> u32
        requires { length self.now < 2 ^ 32 }
        ensures { result ≡ length self.now }
    {
        let values = self.wholes.len() + self.chars.len() + self.flags.len();
        (values + self.readings.len() + self.flag_readings.len()) as u32
    }

    // Appends the objects to `buf`.
    pub(crate) fn push_to(&self, buf: &mut OidBuf) -> Result<(), NoMemory>
        ensures ok { OnOk result (buf.new ≡ buf.old ++ self.now) }
        ensures err { OnErr result (Extends buf.old buf.new) }
    {
        push_run(buf, self.wholes)?;
        push_run(buf, self.chars)?;
        push_run(buf, self.flags)?;
        push_run(buf, self.readings)?;
        push_run(buf, self.flag_readings)?;
        Ok(())
    }
}

// Appends the objects of the entries to `buf`.
fn push_run(buf: &mut OidBuf, run: &[Entry]) -> Result<(), NoMemory>
    ensures ok { OnOk result (buf.new ≡ buf.old ++ objects_in run.now) }
    ensures err { OnErr result (Extends buf.old buf.new) }
{
    'entries: for entry in run {
        buf.push(entry.object)?;
    }
    Ok(())
}
