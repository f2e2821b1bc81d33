ghost use Rattle.std.specs.Prelude.{◌≡◌, ◌<◌, [], ◌∷◌, ◌++◌, length, replicate, All, IfOk, OnOk};
ghost use Rattle.std.specs.Prelude.{slice_index_or, slice_set};
ghost use Rattle.block_rounds.specs.Gathered.{AreGathered};

use lore_lists::{Listing, NoMemory};
use std::alloc::Global;

// So many empty lists.
fn empty_lists<T: Drop>(alloc: Global, count: usize) -> Result<Vec<Listing<T>>, NoMemory>
    ensures { IfOk result (λ lists. lists.items ≡ replicate count []) }
{
    let mut lists = Vec::with_capacity(alloc, count)?;
    'lists: for _number in 0..count {
        lists.push(Listing::new(alloc))?;
    }
    Ok(lists)
}

// Puts the item behind those of the list with its number.
fn push_at<T: Copy + Drop>(lists: &mut Vec<Listing<T>>, pair: (usize, T)) -> Result<(), NoMemory>
    requires { pair.0 < length lists.old.items }
    ensures { OnOk result (lists.new.items ≡ slice_set lists.old.items pair.0
        (slice_index_or lists.old.items pair.0 [] ++ pair.1 ∷ [])) }
{
    lists[pair.0].push(pair.1)?;
    Ok(())
}

/// The items by their numbers: a list for each number below the count.
pub fn gathered<T: Copy + Drop>(
    alloc: Global,
    count: usize,
    pairs: &[(usize, T)],
) -> Result<Vec<Listing<T>>, NoMemory>
    requires { All (λ pair. pair.0 < count) pairs.now }
    ensures every { IfOk result (λ lists. length lists.items ≡ count) }
    ensures items { IfOk result (λ lists. AreGathered pairs.now lists.items) }
{
    let mut lists = empty_lists(alloc, count)?;
    'pairs: for pair in pairs {
        push_at(&mut lists, *pair)?;
    }
    Ok(lists)
}
