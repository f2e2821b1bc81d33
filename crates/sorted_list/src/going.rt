ghost use Rattle.std.specs.Prelude.{◌≡◌, ◌≤◌, vec_len, vec_capacity};
ghost use Rattle.sorted_list.specs.SortedLists.{Ascends, IsExact, AreWithout};
ghost use Rattle.sorted_list.specs.inside.Listed.{is_listed, staying};

use crate::order::{Order, place_of};
use crate::single::{FEW, take_one};

// Takes the items that go out of the list: a few one by one, and more in one pass. What goes ascends
// in an order of its own.
pub(crate) fn take_out<T: Drop, O: Order<T>, P: Order<T>>(
    items: &mut Vec<T>,
    order: &O,
    gone: &[T],
    listed: &P,
)
    requires exact { IsExact (O.order_of order.now) }
    requires exact_listed { IsExact (P.order_of listed.now) }
    requires ascend { Ascends (O.order_of order.now) items.old.items }
    requires gone { Ascends (P.order_of listed.now) gone.now }
    ensures without { AreWithout (O.order_of order.now) gone.now items.old.items items.new.items }
    ensures few { vec_len items.new ≤ vec_len items.old }
    ensures capacity { vec_capacity items.new ≡ vec_capacity items.old }
{
    if gone.len() <= FEW {
        take_each(items, order, gone);
    } else {
        take_all(items, gone, listed);
    }
}

// Takes each item out by itself.
fn take_each<T: Drop, O: Order<T>>(items: &mut Vec<T>, order: &O, gone: &[T])
    requires exact { IsExact (O.order_of order.now) }
    requires ascend { Ascends (O.order_of order.now) items.old.items }
    ensures without { AreWithout (O.order_of order.now) gone.now items.old.items items.new.items }
    ensures few { vec_len items.new ≤ vec_len items.old }
    ensures capacity { vec_capacity items.new ≡ vec_capacity items.old }
{
    'gone: for item in gone {
        take_one(items, order, item);
    }
}

// Takes the items out in one pass, which asks their order of what goes alone.
fn take_all<T: Drop, P: Order<T>>(items: &mut Vec<T>, gone: &[T], listed: &P)
    requires { Ascends (P.order_of listed.now) gone.now }
    ensures staying { items.new.items
        ≡ staying (P.order_of listed.now) gone.now items.old.items }
    ensures few { vec_len items.new ≤ vec_len items.old }
    ensures capacity { vec_capacity items.new ≡ vec_capacity items.old }
{
    items.retain(|item| !is_among(gone, listed, item));
}

// Whether the item is one of the ascending ones, found by binary search.
fn is_among<T, P: Order<T>>(items: &[T], order: &P, item: &T) -> bool
    requires { Ascends (P.order_of order.now) items.now }
    ensures { result ≡ is_listed (P.order_of order.now) items.now item.now }
{
    match place_of(items, order, item) {
        Ok(_) => true,
        Err(_) => false,
    }
}
