ghost use Rattle.std.specs.Prelude.{◌≡◌, [], ◌++◌, length, IfOk, OnOk};
ghost use Rattle.edge_lists.specs.Types.{Out};
ghost use Rattle.edge_lists.specs.Edges.{Ascend};
ghost use Rattle.edge_lists.specs.Objects.{AreAscendingObjects};
ghost use Rattle.edge_lists.specs.Chains.{AreChained};
ghost use Rattle.edge_lists.specs.Sifts.{AreSifted, if_there, if_absent};
ghost use Rattle.edge_lists.specs.Views.{those_there};

use crate::objects::ObjectRecord;
use crate::records::EdgeRecord;
use crate::sides::Side;
use crate::walks::{Found, find, record_of, start_of};
use lore_base::{Edge, EdgeBuf, NoMemory};
use slab::Slab;
use std::alloc::Global;

/// Edges that are there, beside each of them a key where its record may lie, and edges that aren't.
#[derive(Drop)]
pub struct Sifted {
    pub there: EdgeBuf,
    pub keys: Vec<usize>,
    pub absent: EdgeBuf,
}

/// Looks for ascending edges. Each out list is walked once.
pub fn sift(
    alloc: Global,
    objects: &[ObjectRecord],
    records: &Slab<EdgeRecord>,
    edges: &[Edge],
) -> Result<Sifted, NoMemory>
    requires ascend { AreAscendingObjects objects.now }
    requires chained { AreChained Out objects.now records.now [] }
    requires order { Ascend Out edges.now }
    ensures { IfOk result (λ sifted. AreSifted records.now edges.now sifted.there sifted.absent) }
{
    let mut sifted = Sifted {
        there: EdgeBuf::new(alloc),
        keys: Vec::new(alloc),
        absent: EdgeBuf::new(alloc),
    };
    let mut last = None;
    'edges: for edge in edges {
        let start = start_of(records, Side::Out, edge, last);
        let found = find(objects, records, edge, start);
        last = note(&mut sifted, edge, found)?;
    }
    Ok(sifted)
}

// Puts the edge behind those that are there or those that aren't, and tells the place from which the
// next one is to be found.
fn note(sifted: &mut Sifted, edge: &Edge, found: Found) -> Result<Option<usize>, NoMemory>
    ensures there { OnOk result (sifted.new.there ≡ sifted.old.there ++ if_there found.key edge.now) }
    ensures absent { OnOk result
        (sifted.new.absent ≡ sifted.old.absent ++ if_absent found.key edge.now) }
{
    match found.key {
        Some(key) => {
            sifted.there.push(*edge)?;
            sifted.keys.push(key)?;
            Ok(Some(key))
        }
        None => {
            sifted.absent.push(*edge)?;
            Ok(found.place)
        }
    }
}

/// How many of these edges are there; where their records may lie is told beside them. Takes no
/// memory.
pub fn count_there(
    objects: &[ObjectRecord],
    records: &Slab<EdgeRecord>,
    edges: &[Edge],
    likely: &[usize],
) -> usize
    requires ascend { AreAscendingObjects objects.now }
    requires chained { AreChained Out objects.now records.now [] }
    ensures { result ≡ length (those_there records.now edges.now) }
{
    let mut count = 0;
    let mut last = None;
    'edges: for (place, edge) in edges.iter().enumerate() {
        let record = record_of(objects, records, edge, likely.get(place).copied(), last);
        if record.is_some() {
            last = record;
            count += 1;
        }
    }
    count
}
