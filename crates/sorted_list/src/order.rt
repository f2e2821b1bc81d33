ghost use Rattle.std.specs.Prelude.{◌≡◌, length};
ghost use Rattle.std.specs.Cmp.{IsTotalOrder};
ghost use Rattle.std.specs.List.Sorted.{IsBinarySearchResult, IsSearchInRange};
ghost use Rattle.std.specs.declared.cmp.Ordering.{Ordering as TheOrdering};

use std::cmp::Ordering;

/// An order of items.
pub trait Order<T> {
    ghost order_of: { Self → T → T → TheOrdering };

    /// How the first item stands to the second.
    fn compare(&self, first: &T, second: &T) -> Ordering
        ensures { result ≡ order_of self.now first.now second.now };

    ghost total: { (order : Self) → IsTotalOrder (order_of order) };
}

/// Where the item stands among ascending ones, or else the place before which it would.
pub fn place_of<T, O: Order<T>>(items: &[T], order: &O, item: &T) -> Result<usize, usize>
    ensures bound { IsSearchInRange result (length items.now) }
    ensures position { IsBinarySearchResult (λ other. O.order_of order.now other item.now)
        items.now result }
{
    items.binary_search_by(|other| order.compare(other, item))
}
