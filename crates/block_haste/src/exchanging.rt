ghost use Rattle.std.specs.Prelude.{◌≡◌, ◌↔◌, ◌<◌, ℕ, [], length, All, Contains, IfOk, IfSome};
ghost use Rattle.std.specs.Prelude.{OnOk};
ghost use Rattle.std.specs.Prelude.{slice_index_or};
ghost use Rattle.block_haste.specs.inside.Hastening.{AreInLists, IsMovedFrom, IsMovePushed};
ghost use Rattle.block_haste.specs.inside.Hastening.{AreSwaps, KeepOthers, AreExchanged};

use crate::moving::{apply, file_all};
use lore_lists::{Listing, NoMemory};
use std::alloc::Global;

// The list of the block.
fn list_of(lists: &[Listing<usize>], number: usize) -> &[usize]
    ensures { result.now ≡ slice_index_or lists.now number [] }
{
    match lists.get(number) {
        Some(list) => list.as_slice(),
        None => &[],
    }
}

// Puts the move of the node to `to` behind the others, if the node is in the block.
fn push_move(
    moves: &mut Vec<(usize, usize)>,
    numbers: &[usize],
    node: usize,
    from: usize,
    to: usize,
) -> Result<(), NoMemory>
    ensures { OnOk result
        (IsMovePushed numbers.now from to node moves.old.items moves.new.items) }
{
    if numbers.get(node).copied() == Some(from) {
        moves.push((node, to))?;
    }
    Ok(())
}

// Moves to `to` of those nodes of the list that are in the block. Others have left it.
fn moves_from(
    alloc: Global,
    list: &[usize],
    numbers: &[usize],
    from: usize,
    to: usize,
) -> Result<Vec<(usize, usize)>, NoMemory>
    ensures { IfOk result (λ moves. (move : ℕ × ℕ) → Contains moves.items move
        ↔ IsMovedFrom list.now numbers.now from to move) }
{
    let mut moves = Vec::new(alloc);
    'nodes: for node in list {
        push_move(&mut moves, numbers, *node, from, to)?;
    }
    Ok(moves)
}

// Empties the list of the block.
fn clear_list(lists: &mut Vec<Listing<usize>>, number: usize)
    ensures { KeepOthers number lists.old.items lists.new.items }
{
    if number < lists.len() {
        lists[number].cut(0);
    }
}

// Moves that give each of two blocks the other's number, where more nodes are in the second one,
// which is the newer: its list has no node that has left it.
fn exchange_moves(
    alloc: Global,
    lists: &[Listing<usize>],
    numbers: &[usize],
    one: usize,
    other: usize,
) -> Result<Option<Vec<(usize, usize)>>, NoMemory>
    requires { AreInLists lists.now numbers.now }
    ensures { IfOk result (λ found.
        IfSome found (λ moves. AreSwaps one other numbers.now moves.items)) }
{
    let first = list_of(lists, one);
    let second = list_of(lists, other);
    // A part of half the list or less keeps its new number, so that no node gets a new one more
    // often than a logarithm of the nodes.
    if second.len() <= first.len() / 2 {
        return Ok(None);
    }
    let mut moves = moves_from(alloc, first, numbers, one, other)?;
    let back = moves_from(alloc, second, numbers, other, one)?;
    if back.len() <= moves.len() {
        return Ok(None);
    }
    moves.extend_from_slice(back.as_slice())?;
    Ok(Some(moves))
}

// Puts the nodes that are moved behind the others.
fn note_moved(moves: &[(usize, usize)], nodes: &mut Vec<usize>) -> Result<(), NoMemory>
    ensures kept { OnOk result ((node : ℕ) → Contains nodes.old.items node
        → Contains nodes.new.items node) }
    ensures noted { OnOk result (All (λ move. Contains nodes.new.items move.0) moves.now) }
    ensures within { OnOk result ((count : ℕ) → All (λ move. move.0 < count) moves.now
        → All (λ node. node < count) nodes.old.items
        → All (λ node. node < count) nodes.new.items) }
{
    'moves: for step in moves {
        nodes.push(step.0)?;
    }
    Ok(())
}

// Two blocks exchange their numbers, where more nodes are in the newer one. The nodes that are
// moved come behind those that changed.
fn exchange(
    alloc: Global,
    lists: &mut Vec<Listing<usize>>,
    numbers: &mut Vec<usize>,
    changed: &mut Vec<usize>,
    one: usize,
    other: usize,
) -> Result<(), NoMemory>
    requires lists { AreInLists lists.old.items numbers.old.items }
    requires within { All (λ node. node < length numbers.old.items) changed.old.items }
    ensures exchanged { OnOk result (AreExchanged numbers.old.items changed.old.items
        numbers.new.items changed.new.items) }
    ensures lists { OnOk result (AreInLists lists.new.items numbers.new.items) }
{
    let found = exchange_moves(alloc, lists.as_slice(), numbers.as_slice(), one, other)?;
    let Some(moves) = found else {
        return Ok(());
    };
    apply(moves.as_slice(), numbers);
    clear_list(lists, one);
    clear_list(lists, other);
    file_all(alloc, moves.as_slice(), lists)?;
    note_moved(moves.as_slice(), changed)
}

// Each new block exchanges its number with the block that it left, where it has more nodes.
pub(crate) fn exchange_all(
    alloc: Global,
    lists: &mut Vec<Listing<usize>>,
    numbers: &mut Vec<usize>,
    changed: &mut Vec<usize>,
    origins: &[usize],
    from: usize,
) -> Result<(), NoMemory>
    requires lists { AreInLists lists.old.items numbers.old.items }
    requires within { All (λ node. node < length numbers.old.items) changed.old.items }
    ensures exchanged { OnOk result (AreExchanged numbers.old.items changed.old.items
        numbers.new.items changed.new.items) }
    ensures lists { OnOk result (AreInLists lists.new.items numbers.new.items) }
{
    'parts: for number in from..origins.len() {
        exchange(alloc, lists, numbers, changed, origins[number], number)?;
    }
    Ok(())
}
