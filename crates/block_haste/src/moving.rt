ghost use Rattle.std.specs.Prelude.{◌≡◌, ◌<◌, ◌≤◌, ℕ, length, All, Contains, IfOk, OnOk};
ghost use Rattle.std.specs.Prelude.{slice_index, slice_index_or, []};
ghost use Rattle.indexmap.specs.IndexMap.{get};
ghost use Rattle.block_rounds.specs.Given.{pair_eq, IsGiven, Keeps};
ghost use Rattle.block_haste.specs.inside.Hastening.{AreMoves, AreWritten, KeepLists, AreFiled};
ghost use Rattle.block_haste.specs.inside.Hastening.{IsChange, AreChangesIn};

use block_rounds::Fresh;
use lore_lists::{Listing, NoMemory};
use std::alloc::Global;

// What the number and the mark are given: what was given them, or the next number.
fn give(fresh: &mut Fresh, number: usize, mark: Option<u64>, next: usize) -> Result<usize, NoMemory>
    ensures given { IfOk result (λ given. IsGiven (get pair_eq fresh.new) number mark given) }
    ensures kept { OnOk result (Keeps (get pair_eq fresh.old) (get pair_eq fresh.new)) }
{
    let Some(mark) = mark else {
        return Ok(number);
    };
    match fresh.get(&(number, mark)) {
        Some(given) => Ok(*given),
        None => {
            fresh.insert((number, mark), next)?;
            Ok(next)
        }
    }
}

// Whether no other node was ever put into the block.
fn is_alone(lists: &[Listing<usize>], number: usize) -> bool {
    match lists.get(number) {
        Some(list) => list.len() <= 1,
        None => false,
    }
}

// The number that a node with this number and mark gets. A new block is listed with the one that
// it leaves; a node alone in its block stays there.
fn part_of(
    fresh: &mut Fresh,
    origins: &mut Vec<usize>,
    lists: &[Listing<usize>],
    number: usize,
    mark: Option<u64>,
) -> Result<usize, NoMemory>
    ensures given { IfOk result (λ given. IsGiven (get pair_eq fresh.new) number mark given) }
    ensures kept { OnOk result (Keeps (get pair_eq fresh.old) (get pair_eq fresh.new)) }
    ensures grown { OnOk result (length origins.old.items ≤ length origins.new.items) }
{
    let count = origins.len();
    let next = if is_alone(lists, number) {
        number
    } else {
        count
    };
    let given = give(fresh, number, mark, next)?;
    if given == count {
        origins.push(number)?;
    }
    Ok(given)
}

// The moves of the touched nodes to the numbers that they get by their marks. Numbers and marks
// stay.
pub(crate) fn moves_of(
    alloc: Global,
    touched: &[usize],
    marks: &[Option<u64>],
    numbers: &[usize],
    lists: &[Listing<usize>],
    origins: &mut Vec<usize>,
) -> Result<Vec<(usize, usize)>, NoMemory>
    requires touched { All (λ node. node < length numbers.now) touched.now }
    requires marks { length marks.now ≡ length numbers.now }
    ensures moves { IfOk result (λ moves. AreMoves touched.now numbers.now marks.now moves.items) }
    ensures grown { OnOk result (length origins.old.items ≤ length origins.new.items) }
{
    let mut fresh = Fresh::new(alloc);
    let mut moves = Vec::with_capacity(alloc, touched.len())?;
    'nodes: for node in touched {
        let given = part_of(&mut fresh, origins, lists, numbers[*node], marks[*node])?;
        moves.push((*node, given))?;
    }
    Ok(moves)
}

// Moves the nodes.
pub(crate) fn apply(moves: &[(usize, usize)], numbers: &mut Vec<usize>)
    requires { All (λ move. move.0 < length numbers.old.items) moves.now }
    ensures written { AreWritten moves.now numbers.old.items numbers.new.items }
    ensures every { length numbers.new.items ≡ length numbers.old.items }
{
    'moves: for step in moves {
        numbers[step.0] = step.1;
    }
}

// Puts the move behind the others, unless the node has that number.
fn push_change(
    changes: &mut Vec<(usize, usize)>,
    step: (usize, usize),
    number: usize,
) -> Result<(), NoMemory>
    ensures { OnOk result (IsChange step number changes.old.items changes.new.items) }
{
    if number != step.1 {
        changes.push(step)?;
    }
    Ok(())
}

// Those of the moves that give their nodes other numbers.
pub(crate) fn changes_in(
    alloc: Global,
    moves: &[(usize, usize)],
    numbers: &[usize],
) -> Result<Vec<(usize, usize)>, NoMemory>
    requires { All (λ move. move.0 < length numbers.now) moves.now }
    ensures { IfOk result (λ changes. AreChangesIn numbers.now moves.now changes.items) }
{
    let mut changes = Vec::new(alloc);
    'moves: for step in moves {
        push_change(&mut changes, *step, numbers[step.0])?;
    }
    Ok(changes)
}

// Puts the node into the list of the block.
fn file(
    alloc: Global,
    lists: &mut Vec<Listing<usize>>,
    number: usize,
    node: usize,
) -> Result<(), NoMemory>
    ensures kept { OnOk result (KeepLists lists.old.items lists.new.items) }
    ensures here { OnOk result (Contains (slice_index_or lists.new.items number []) node) }
{
    'lists: while lists.len() <= number {
        lists.push(Listing::new(alloc))?;
    }
    lists[number].push(node)?;
    Ok(())
}

// Puts the nodes into the lists of the blocks that they are moved to.
pub(crate) fn file_all(
    alloc: Global,
    moves: &[(usize, usize)],
    lists: &mut Vec<Listing<usize>>,
) -> Result<(), NoMemory>
    ensures kept { OnOk result (KeepLists lists.old.items lists.new.items) }
    ensures filed { OnOk result (AreFiled moves.now lists.new.items) }
{
    'moves: for step in moves {
        file(alloc, lists, step.1, step.0)?;
    }
    Ok(())
}
