ghost use Rattle.std.specs.Prelude.{◌≡◌, []};
ghost use Rattle.lorel_eval.specs.inside.FoundObjects.{oids_of};

use lore_base::{Oid, OidBuf};
use std::alloc::Global;
use std::slice;
use word_walks::Reached;

// The objects that a path reaches, ascending, each once. A single one takes no list.
#[derive(Drop)]
pub(crate) enum Found {
    One(Oid),
    Listed(OidBuf),
}

impl Found {
    // No object. Takes no memory.
    pub(crate) fn none(alloc: Global) -> Found
        ensures { oids_of result ≡ [] }
    {
        Found::Listed(OidBuf::new(alloc))
    }

    pub(crate) fn as_slice(&self) -> &[Oid]
        ensures { result.now ≡ oids_of self.now }
    {
        match self {
            Found::One(oid) => slice::from_ref(oid),
            Found::Listed(oids) => oids.as_slice(),
        }
    }
}

// The objects that a walk reached. The list of a single one is left where it is.
pub(crate) fn found_by(alloc: Global, reached: &mut Reached) -> Found
    ensures { oids_of result ≡ reached.old }
{
    match reached.as_slice() {
        [] => Found::none(alloc),
        [oid] => Found::One(*oid),
        _ => Found::Listed(reached.take()),
    }
}
