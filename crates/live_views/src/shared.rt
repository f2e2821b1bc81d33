ghost use Rattle.std.specs.Prelude.{◌↔◌, IsTrue};
ghost use Rattle.lore_base.specs.Databases.{AreAscendingObjects, IsLive};
ghost use Rattle.live_views.specs.Types.{Oid as TheOid};

use lore_base::{Oid, Value};

// Whether some object stands in both lists, which ascend.
pub(crate) fn share_object(gone: &[(Oid, Value)], come: &[(Oid, Value)]) -> bool
    requires gone { AreAscendingObjects gone.now }
    requires come { AreAscendingObjects come.now }
    ensures { IsTrue result ↔ ((oid : TheOid) × IsLive gone.now oid × IsLive come.now oid) }
{
    let mut i = 0;
    let mut j = 0;
    'places: while i < gone.len() && j < come.len() {
        let first = gone[i].0;
        let second = come[j].0;
        if first.0 == second.0 {
            return true;
        }
        if first.0 < second.0 {
            i += 1;
        } else {
            j += 1;
        }
    }
    false
}
