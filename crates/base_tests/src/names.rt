use crate::passing::pass;
use lore_base::{Names, NoMemory, OemText, Oid};
use std::alloc::Global;
use std::test::Fail;

// Names, put in another order than that of their bytes, and one bound twice.
const BOUND: [(&str, u32); 5] = [
    ("Movies", 3),
    ("Guide", 9),
    ("Home", 2),
    ("GUIDE", 4),
    ("Guide", 1),
];

fn put_each(alloc: Global, bound: &[(&str, u32)], names: &mut Names) -> Result<(), NoMemory> {
    for (name, object) in bound {
        names.put(OemText::from_bytes(alloc, name.as_bytes())?, Oid(*object))?;
    }
    Ok(())
}

// Whether the name with this object stands at the place; none where the name is empty.
fn is_at(names: &Names, place: usize, name: &str, object: u32) -> bool {
    match names.get(place) {
        Some((text, oid)) => text.as_bytes() == name.as_bytes() && oid.0 == object,
        None => name.is_empty(),
    }
}

fn are_at(names: &Names, places: &[(usize, &str, u32)]) -> bool {
    for (place, name, object) in places {
        if !is_at(names, *place, name, *object) {
            return false;
        }
    }
    true
}

const PLACES: [(usize, &str, u32); 6] = [
    (0, "GUIDE", 4),
    (1, "Guide", 1),
    (2, "Home", 2),
    (3, "Movies", 3),
    (4, "", 0),
    (usize::MAX, "", 0),
];

fn are_told(alloc: Global) -> Result<bool, NoMemory> {
    let mut names = Names::new(alloc);
    let put = put_each(alloc, &BOUND, &mut names);
    let are_told = are_at(&names, &PLACES);
    drop(names);
    put?;
    Ok(are_told)
}

#[test]
fn names_are_told_in_the_order_of_their_bytes(rt: HostRuntime) -> Result<(), Fail> {
    pass(are_told(rt.alloc()), "names stand in another order")
}
