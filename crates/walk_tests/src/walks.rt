ghost use Rattle.std.specs.Prelude.{◌≡◌, ◌<◌, ◌≤◌};
ghost use Rattle.lore_base.specs.Paths.{path_tree, leaves};

use crate::along::check_along;
use crate::shapes::{Labelled, RING, automaton_of, edges_of, labelled_graph, path_in_turn};
use crate::words::check_words;
use index_traits::Paths;
use lore_base::{NoMemory, Oid, OidBuf, Path, Steps};
use path_expr::Automaton;
use product_walk::{NaivePaths, backward, forward};
use std::alloc::Global;
use std::marker::Brand;
use std::sync::ledger::{Blank, Ledger};
use std::test::Fail;

fn put_oids(numbers: &[u32], oids: &mut OidBuf) -> Result<(), NoMemory> {
    for number in numbers {
        oids.push(Oid(*number))?;
    }
    Ok(())
}

fn oids_of(alloc: Global, numbers: &[u32]) -> Result<OidBuf, NoMemory> {
    let mut oids = OidBuf::new(alloc);
    put_oids(numbers, &mut oids)?;
    Ok(oids)
}

// The numbers of the objects as digits.
pub(crate) fn digits(oids: &OidBuf) -> u64 {
    let mut digits = 0_u64;
    for oid in oids.as_slice() {
        digits = digits.wrapping_mul(10).wrapping_add(u64::from(oid.0));
    }
    digits
}

// What was appended, behind what was there, as digits.
fn appended(put: Result<(), NoMemory>, found: OidBuf) -> Result<u64, NoMemory> {
    let digits = digits(&found);
    drop(found);
    put?;
    Ok(digits)
}

// The objects that the path leads to from the object, behind one that was there.
fn reached<L: Ledger>(
    alloc: Global,
    over: &Labelled,
    from: Oid,
    path: &Automaton,
    steps: &mut Steps<L>,
) -> Result<u64, NoMemory> {
    let (graph, labels) = (&over.graph, &over.labels);
    let mut found = oids_of(alloc, &[7])?;
    let put = forward(alloc, graph, from, path, labels, &mut found, steps);
    appended(put, found)
}

fn reached_by<L: Ledger>(
    alloc: Global,
    over: &Labelled,
    from: u32,
    path: &str,
    steps: &mut Steps<L>,
) -> Result<u64, Fail> {
    let automaton = automaton_of(alloc, path.as_bytes())?;
    let reached = reached(alloc, over, Oid(from), &automaton, steps);
    drop(automaton);
    Ok(reached?)
}

// Appends the objects that the path leads to, and gives how many are counted.
fn put_selected<P: Paths>(
    alloc: Global,
    paths: &P,
    path: &Path,
    from: Oid,
    found: &mut OidBuf,
) -> Result<usize, NoMemory>
    requires { leaves (path_tree path.now) ≤ 64 }
{
    paths.select(alloc, path, from, found)?;
    paths.count(alloc, path, from)
}

// What was found, behind one that was there, as digits; 0 where another number is counted.
fn counted(count: Result<usize, NoMemory>, found: OidBuf) -> Result<u64, NoMemory> {
    let (digits, len) = (digits(&found), found.len());
    drop(found);
    if count?.checked_add(1) == Some(len) {
        Ok(digits)
    } else {
        Ok(0)
    }
}

fn selected<P: Paths>(alloc: Global, paths: &P, path: &Path, from: u32) -> Result<u64, NoMemory>
    requires { leaves (path_tree path.now) ≤ 64 }
{
    let mut found = oids_of(alloc, &[7])?;
    let count = put_selected(alloc, paths, path, Oid(from), &mut found);
    counted(count, found)
}

fn selected_by<P: Paths>(alloc: Global, paths: &P, from: u32, path: &str) -> Result<u64, Fail> {
    let path = path_in_turn(alloc, path.as_bytes())?;
    let selected = selected(alloc, paths, &path, from);
    drop(path);
    Ok(selected?)
}

// The objects from which the path leads to one of these, behind one that was there.
fn reaching<L: Ledger>(
    alloc: Global,
    over: &Labelled,
    to: &OidBuf,
    path: &Automaton,
    steps: &mut Steps<L>,
) -> Result<u64, NoMemory> {
    let (graph, labels) = (&over.graph, &over.labels);
    let mut found = oids_of(alloc, &[7])?;
    let put = backward(alloc, graph, to, path, labels, &mut found, steps);
    appended(put, found)
}

fn reaching_by<L: Ledger>(
    alloc: Global,
    over: &Labelled,
    to: &OidBuf,
    path: &str,
    steps: &mut Steps<L>,
) -> Result<u64, Fail> {
    let automaton = automaton_of(alloc, path.as_bytes())?;
    let reaching = reaching(alloc, over, to, &automaton, steps);
    drop(automaton);
    Ok(reaching?)
}

fn reaching_each<L: Ledger>(
    alloc: Global,
    over: &Labelled,
    to: &[u32],
    path: &str,
    steps: &mut Steps<L>,
) -> Result<u64, Fail> {
    let to = oids_of(alloc, to)?;
    let reaching = reaching_by(alloc, over, &to, path, steps);
    drop(to);
    reaching
}

// An object, a path, and the objects that it leads to from there.
type FromOne = (u32, &'static str, u64);

const REACHED: [FromOne; 13] = [
    (1, "", 71),
    (1, "#v", 73),
    (1, "N", 712),
    (1, "nN", 712),
    (2, "%", 713),
    (3, "#v", 7),
    (3, "N", 73),
    (4, "n", 713),
    (4, "nv", 7),
    (4, "nnv", 73),
    (9, "", 79),
    (9, "n", 7),
    (9, "N", 79),
];

// Objects, a path, and the objects from which it leads to one of them.
type ToSome = (&'static [u32], &'static str, u64);

const REACHING: [ToSome; 9] = [
    (&[3], "#v", 7124),
    (&[3], "nnv", 724),
    (&[1], "N", 7124),
    (&[1, 3], "v", 724),
    (&[3, 1, 3], "nN", 7124),
    (&[3, 1], "", 713),
    (&[3, 2], "%", 7124),
    (&[], "#", 7),
    (&[9], "N", 79),
];

fn check_forward<L: Ledger>(
    alloc: Global,
    over: &Labelled,
    table: &[FromOne],
    steps: &mut Steps<L>,
) -> Result<(), Fail> {
    for (from, path, wanted) in table {
        if reached_by(alloc, over, *from, path, steps)? != *wanted {
            return Err(Fail::new(*path));
        }
    }
    Ok(())
}

// The same by going over a plain list, where counting gives the number of those that are found.
fn check_paths<P: Paths>(alloc: Global, paths: &P, table: &[FromOne]) -> Result<(), Fail> {
    for (from, path, wanted) in table {
        if selected_by(alloc, paths, *from, path)? != *wanted {
            return Err(Fail::new(*path));
        }
    }
    Ok(())
}

fn check_selected(alloc: Global, over: &Labelled) -> Result<(), Fail> {
    let edges = edges_of(alloc, &RING)?;
    let checked = check_paths(alloc, &NaivePaths::new(&edges, &over.labels), &REACHED);
    drop(edges);
    checked
}

fn check_backward<L: Ledger>(
    alloc: Global,
    over: &Labelled,
    table: &[ToSome],
    steps: &mut Steps<L>,
) -> Result<(), Fail> {
    for (to, path, wanted) in table {
        if reaching_each(alloc, over, to, path, steps)? != *wanted {
            return Err(Fail::new(*path));
        }
    }
    Ok(())
}

fn check_over<L: Ledger>(alloc: Global, over: &Labelled, steps: &mut Steps<L>) -> Result<(), Fail> {
    check_forward(alloc, over, &REACHED, steps)?;
    check_selected(alloc, over)?;
    check_backward(alloc, over, &REACHING, steps)?;
    check_words(alloc, over, steps)?;
    check_along(alloc, over, steps)
}

// All searches, on one counter.
fn check_all<L: Ledger>(alloc: Global, blank: Blank) -> Result<(), Fail>
    requires name { blank.name ≡ L.name }
    requires parts { blank.parts ≡ L.parts }
    requires some { 0 < blank.parts }
{
    let over = labelled_graph(alloc, &RING)?;
    let checked = check_over(alloc, &over, &mut Steps::<L>::new(blank));
    drop(over);
    checked
}

#[test]
fn paths_lead_there_and_back(rt: HostRuntime) -> Result<(), Fail> {
    check_all::<Brand>(rt.alloc(), Blank::new(1))
}
