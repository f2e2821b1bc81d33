ghost use Rattle.std.specs.Prelude.{◌≡◌, ◌+◌, ◌<◌, ◌≤◌, vec_len, vec_capacity};
ghost use Rattle.sorted_list.specs.SortedLists.{Ascends, IsExact};
ghost use Rattle.sorted_list.specs.inside.Single.{IsWithout, IsWith};

use crate::order::{Order, place_of};

// So many items are put in or taken out one by one. Each moves those behind it by one copy of
// memory, so that more of them would cost more than one pass over the list.
pub(crate) const FEW: usize = 16;

// Takes the item out, if it is there.
pub(crate) fn take_one<T: Drop, O: Order<T>>(items: &mut Vec<T>, order: &O, item: &T)
    requires exact { IsExact (O.order_of order.now) }
    requires ascend { Ascends (O.order_of order.now) items.old.items }
    ensures without { IsWithout (O.order_of order.now) item.now items.old.items items.new.items }
    ensures few { vec_len items.new ≤ vec_len items.old }
    ensures capacity { vec_capacity items.new ≡ vec_capacity items.old }
{
    match place_of(items.as_slice(), order, item) {
        Ok(place) => {
            let _gone = items.remove(place);
        }
        Err(_) => {}
    }
}

// Puts the item at its place, unless it is there.
pub(crate) fn put_one<T: Drop, O: Order<T>>(items: &mut Vec<T>, order: &O, item: T)
    requires exact { IsExact (O.order_of order.now) }
    requires ascend { Ascends (O.order_of order.now) items.old.items }
    requires room { vec_len items.old < vec_capacity items.old }
    ensures present { IsWith (O.order_of order.now) item items.old.items items.new.items }
    ensures few { vec_len items.new ≤ vec_len items.old + 1 }
    ensures capacity { vec_capacity items.new ≡ vec_capacity items.old }
{
    match place_of(items.as_slice(), order, &item) {
        Ok(_) => {}
        Err(place) => {
            let Ok(()) = items.insert(place, item) else {
                unreachable!();
            };
        }
    }
}
