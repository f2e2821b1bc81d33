ghost use Rattle.std.specs.Prelude.{◌↔◌, Contains, IsTrue};
ghost use Rattle.sorted_list.specs.SortedLists.{Ascends, IsExact};

// Whether the item is one of the ascending ones, found by binary search.
pub(crate) fn is_among<T: Ord>(items: &[T], item: &T) -> bool
    requires exact { IsExact T.cmp }
    requires ascends { Ascends T.cmp items.now }
    ensures { IsTrue result ↔ Contains items.now item.now }
{
    match items.binary_search(item) {
        Ok(_) => true,
        Err(_) => false,
    }
}
