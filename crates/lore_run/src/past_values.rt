ghost use Rattle.std.specs.Prelude.{◌≡◌};
ghost use Rattle.lore_db.specs.States.{objects_at};

use index_traits::ValueOf;
use lore_base::{Oid, Value};
use lore_db::Db;
use std::marker::Model;

/// The values of a moment of a database's history. Contracts see the objects of the moment, of
/// which there are none where there is no such moment.
#[derive(Drop)]
pub(crate) struct PastValues<'a> {
    db: &'a Db,
    moment: u32,
}

impl<'a> Model for PastValues<'a> {
    ghost use Rattle.std.specs.Prelude.{List};
    ghost use Rattle.lore_db.specs.States.{objects_at};
    ghost use Rattle.lore_run.specs.Types.{Oid, Value as TheValue};

    ghost Value = { List (Oid × TheValue) };

    ghost view = { λ v. objects_at v.db.now.state.history v.moment };
}

impl<'a> PastValues<'a> {
    /// The values of this moment.
    pub(crate) fn new(db: &'a Db, moment: u32) -> PastValues<'a>
        ensures { result ≡ objects_at db.now.state.history moment }
    {
        PastValues { db, moment }
    }
}

impl<'a> ValueOf for PastValues<'a> {
    ghost objects = { λ v. v };

    fn value_of(&self, oid: Oid) -> Option<&Value> {
        self.db.past_value(self.moment, oid)
    }
}
