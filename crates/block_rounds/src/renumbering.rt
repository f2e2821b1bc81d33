ghost use Rattle.std.specs.Prelude.{◌≡◌, ℕ, ◌<◌, ◌≤◌, length, IfOk, OnOk};
ghost use Rattle.indexmap.specs.IndexMap.{get};
ghost use Rattle.block_rounds.specs.Partitions.{IsNumbered};
ghost use Rattle.block_rounds.specs.Given.{pair_eq, IsGiven, Keeps, StayTogether};
ghost use Rattle.block_rounds.specs.inside.Renumbering.{hash_of, mark_from, AreMarks};
ghost use Rattle.block_rounds.specs.inside.Renumbering.{AreFresh, GrowsBy, IsNumberedBy};
ghost use Rattle.block_rounds.specs.inside.Renumbering.{AreUnmarked};

use crate::signing::Signature;
use indexmap::IndexMap;
use lore_lists::NoMemory;
use std::alloc::Global;

// The multiplier of Knuth's MMIX generator: odd, without a pattern in its bits.
const FACTOR: u64 = 6_364_136_223_846_793_005;

/// The numbers of new blocks, by the old number and the mark.
pub type Fresh = IndexMap<(usize, u64), usize>;

// The hash of a kind and a signature. Unlike ones may have one hash: they are parted later.
fn hash_signature(kind: usize, signature: &[(u32, usize)]) -> u64
    ensures { result ≡ hash_of kind signature.now }
{
    let mut hash = (kind as u64).wrapping_add(1);
    'entries: for entry in signature {
        hash = hash.wrapping_mul(FACTOR).wrapping_add(u64::from(entry.0));
        hash = hash.wrapping_mul(FACTOR).wrapping_add(entry.1 as u64);
    }
    hash
}

// What parts a node from the head of its block: none where kind and signature are the same.
fn mark_between(
    kind: usize,
    signature: &[(u32, usize)],
    head_kind: usize,
    head_signature: &[(u32, usize)],
) -> Option<u64>
    ensures { result ≡ mark_from kind signature.now head_kind head_signature.now }
{
    if kind == head_kind && signature == head_signature {
        None
    } else {
        Some(hash_signature(kind, signature))
    }
}

// What parts each node from the head of its block.
pub(crate) fn marks(
    alloc: Global,
    kinds: &[usize],
    signatures: &[Signature],
    numbers: &[usize],
    heads: &[usize],
) -> Result<Vec<Option<u64>>, NoMemory>
    requires kinds { length kinds.now ≡ length numbers.now }
    requires signatures { length signatures.now ≡ length numbers.now }
    requires numbered { IsNumbered (length numbers.now) numbers.now heads.now }
    ensures { IfOk result (λ marks.
        AreMarks kinds.now signatures.now numbers.now heads.now marks.items) }
{
    let mut marks = Vec::with_capacity(alloc, numbers.len())?;
    'nodes: for (node, number) in numbers.iter().enumerate() {
        let head = heads[*number];
        let mark = mark_between(
            kinds[node],
            signatures[node].as_slice(),
            kinds[head],
            signatures[head].as_slice(),
        );
        marks.push(mark)?;
    }
    Ok(marks)
}

// The number that a node with this number and mark gets: its own without a mark. A node that is
// the first with its number and mark heads a new block.
fn given_number(
    fresh: &mut Fresh,
    heads: &mut Vec<usize>,
    node: usize,
    number: usize,
    mark: Option<u64>,
) -> Result<usize, NoMemory>
    ensures given { IfOk result (λ given. IsGiven (get pair_eq fresh.new) number mark given) }
    ensures kept { OnOk result (Keeps (get pair_eq fresh.old) (get pair_eq fresh.new)) }
    ensures heads { OnOk result (GrowsBy node heads.old.items heads.new.items) }
    ensures fresh { IfOk result (λ given. (base : ℕ) → base ≤ length heads.old.items
        → AreFresh base (length heads.old.items) (get pair_eq fresh.old)
        → IsNumberedBy base number mark (length heads.new.items) (get pair_eq fresh.new) given) }
{
    let Some(mark) = mark else {
        return Ok(number);
    };
    match fresh.get(&(number, mark)) {
        Some(given) => Ok(*given),
        None => {
            let given = heads.len();
            heads.push(node)?;
            fresh.insert((number, mark), given)?;
            Ok(given)
        }
    }
}

// The numbers of the nodes once each block is parted by its nodes' marks, with the heads of new
// blocks behind those that are there. Where there is no new head no node had a mark.
pub(crate) fn renumbered(
    alloc: Global,
    numbers: &[usize],
    marks: &[Option<u64>],
    heads: &mut Vec<usize>,
) -> Result<Vec<usize>, NoMemory>
    requires marks { length marks.now ≡ length numbers.now }
    requires numbered { IsNumbered (length numbers.now) numbers.now heads.old.items }
    ensures together { IfOk result (λ next. StayTogether numbers.now marks.now next.items) }
    ensures numbered { IfOk result
        (λ next. IsNumbered (length numbers.now) next.items heads.new.items) }
    ensures grown { OnOk result (length heads.old.items ≤ length heads.new.items) }
    ensures still { OnOk result
        (length heads.new.items ≤ length heads.old.items → AreUnmarked marks.now) }
{
    let mut fresh = Fresh::new(alloc);
    let mut next = Vec::with_capacity(alloc, numbers.len())?;
    'nodes: for (node, number) in numbers.iter().enumerate() {
        let given = given_number(&mut fresh, heads, node, *number, marks[node])?;
        next.push(given)?;
    }
    Ok(next)
}
