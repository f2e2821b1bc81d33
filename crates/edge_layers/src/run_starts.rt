ghost use Rattle.std.specs.Prelude.{◌≡◌, ◌<◌, ◌^◌, length};
ghost use Rattle.lore_base.specs.Databases.{AreAscendingEdges};
ghost use Rattle.lore_base.specs.Walks.{out_of};

use crate::edge_runs::{run_at, run_of};
use lore_base::{Edge, NoMemory, Oid};
use std::alloc::Global;

// How many numbers there may be for each edge, and how many more.
const NUMBERS_AN_EDGE: usize = 4;

const MORE_NUMBERS: usize = 256;

/// Where the edges of each object begin among ascending edges: `starts[n - first]` is the place of
/// the first edge whose parent is at least n, for each n from the least parent to one above the
/// greatest. It is empty where the numbers have many gaps. A reader tests the run that it finds
/// here, and takes to binary search where it isn't the one.
#[derive(Drop)]
pub struct RunStarts {
    first: u32,
    starts: Vec<u32>,
}

impl RunStarts {
    /// The starts of nothing, with which a reader finds each run by binary search. Takes no memory.
    pub fn none(alloc: Global) -> RunStarts {
        RunStarts {
            first: 0,
            starts: Vec::new(alloc),
        }
    }

    /// The starts of ascending edges.
    pub fn of(alloc: Global, edges: &[Edge]) -> Result<RunStarts, NoMemory> {
        let Some((first, last)) = end_parents(edges) else {
            return Ok(RunStarts::none(alloc));
        };
        let span = last.saturating_sub(first) as usize;
        let most = edges
            .len()
            .saturating_mul(NUMBERS_AN_EDGE)
            .saturating_add(MORE_NUMBERS);
        if span > most || edges.len() > u32::MAX as usize {
            return Ok(RunStarts::none(alloc));
        }
        let mut starts = Vec::with_capacity(alloc, span + 2)?;
        push_starts(&mut starts, first, edges)?;
        starts.push(edges.len() as u32)?;
        Ok(RunStarts { first, starts })
    }

    /// The edges that leave the object among these, which the starts are of.
    pub fn run_in<'a>(&self, edges: &'a [Edge], oid: Oid) -> &'a [Edge]
        requires { AreAscendingEdges edges.now }
        ensures { result.now ≡ out_of oid edges.now }
    {
        if edges.is_empty() {
            return edges;
        }
        let ahead = oid.0.saturating_sub(self.first) as usize;
        let start = self.start(ahead).min(edges.len());
        let end = self.start(ahead + 1).min(edges.len());
        match run_at(edges, oid, start, end) {
            Some(run) => run,
            None => run_of(edges, oid),
        }
    }

    // The start at this place, or behind the last the end of all.
    fn start(&self, place: usize) -> usize {
        match self.starts.get(place).or(self.starts.last()) {
            Some(start) => *start as usize,
            None => 0,
        }
    }
}

// The least parent and the greatest.
fn end_parents(edges: &[Edge]) -> Option<(u32, u32)> {
    let first = edges.first()?;
    let last = edges.last()?;
    Some((first.parent.0, last.parent.0))
}

// Puts behind the starts those up to the last parent of these edges.
fn push_starts(starts: &mut Vec<u32>, first: u32, edges: &[Edge]) -> Result<(), NoMemory>
    requires { length edges.now < 2 ^ 32 }
{
    'edges: for (place, edge) in edges.iter().enumerate() {
        let ahead = edge.parent.0.saturating_sub(first) as usize;
        if starts.len() <= ahead {
            starts.resize(ahead + 1, place as u32)?;
        }
    }
    Ok(())
}
