ghost use Rattle.std.specs.Prelude.{◌≡◌, ◌<◌, length};

use lore_base::{NoMemory, Oid, OidBuf};
use oem_set::{BitSet, OidSet};
use std::alloc::Global;
use std::test::Fail;

pub(crate) fn set_of(alloc: Global, numbers: &[u32]) -> Result<OidSet, NoMemory> {
    let mut oids = OidBuf::new(alloc);
    for number in numbers {
        oids.push(Oid(*number))?;
    }
    OidSet::from_buf(&mut oids)
}

// The objects at the first ten places of a set, as digits.
fn digits(set: &OidSet) -> u64 {
    let mut digits = 0_u64;
    for place in 0..10 {
        if let Some(oid) = set.get(place) {
            digits = digits.wrapping_mul(10).wrapping_add(u64::from(oid.0));
        }
    }
    digits
}

// Those of the objects 0 to 9 that a set contains, as digits.
fn contained(set: &OidSet) -> u64 {
    let mut digits = 0_u64;
    for number in 0..10 {
        if set.contains(Oid(number)) {
            digits = digits.wrapping_mul(10).wrapping_add(u64::from(number));
        }
    }
    digits
}

// Whether the set of these objects has these members as digits, so many, and this hash.
fn has_members(
    alloc: Global,
    numbers: &[u32],
    (members, len, hash): (u64, usize, u64),
) -> Result<bool, NoMemory> {
    let set = set_of(alloc, numbers)?;
    let exact = digits(&set) == members && contained(&set) == members;
    Ok(exact && set.len() == len && set.hash64() == hash)
}

const MEMBERS: [(&[u32], (u64, usize, u64)); 6] = [
    (&[], (0, 0, 0)),
    (&[0], (0, 1, 0)),
    (&[5, 5], (5, 1, 5)),
    (&[0, 5], (5, 2, 5)),
    (&[1, 2], (12, 2, 6_364_136_223_846_793_007)),
    (&[2, 1, 2], (12, 2, 6_364_136_223_846_793_007)),
];

#[test]
fn members_stand_once_in_ascending_order(rt: HostRuntime) -> Result<(), Fail> {
    for (numbers, wanted) in MEMBERS {
        if !has_members(rt.alloc(), numbers, wanted)? {
            return Err(Fail::new("a set has other members"));
        }
    }
    Ok(())
}

// Whether two sets meet and are equal so, each told of the one and of the other.
fn compare_so(set: &OidSet, other: &OidSet, meet: bool, equal: bool) -> bool {
    set.meets(other) == meet
        && other.meets(set) == meet
        && set.equal(other) == equal
        && other.equal(set) == equal
}

// Whether the sets of these objects meet and are equal so, and the first one, once the other one is
// put into it, has these members as digits.
fn unite(
    alloc: Global,
    (one, other): (&[u32], &[u32]),
    (meet, equal): (bool, bool),
    members: u64,
) -> Result<bool, NoMemory> {
    let mut set = set_of(alloc, one)?;
    let other = set_of(alloc, other)?;
    let same = compare_so(&set, &other, meet, equal);
    other.union_into(&mut set)?;
    Ok(same && digits(&set) == members)
}

// Two sets, whether they meet and are equal, and the members of both. Those of the last two pairs
// have equal hashes.
const PAIRS: [(&[u32], &[u32], bool, bool, u64); 11] = [
    (&[], &[], false, true, 0),
    (&[], &[1], false, false, 1),
    (&[2, 4], &[], false, false, 24),
    (&[1], &[1, 1], true, true, 1),
    (&[1, 2, 3], &[3, 2, 1, 2], true, true, 123),
    (&[1, 2, 3], &[1, 2, 4], true, false, 1_234),
    (&[1, 2, 3], &[3, 4, 5, 6], true, false, 123_456),
    (&[1, 3, 5], &[2, 4, 6, 8], false, false, 1_234_568),
    (&[9], &[1, 5], false, false, 159),
    (&[0, 5], &[5], true, false, 5),
    (&[], &[0], false, false, 0),
];

#[test]
fn sets_meet_are_equal_and_unite(rt: HostRuntime) -> Result<(), Fail> {
    for (one, other, meet, equal, members) in PAIRS {
        if !unite(rt.alloc(), (one, other), (meet, equal), members)? {
            return Err(Fail::new("two sets meet, are equal or unite otherwise"));
        }
    }
    Ok(())
}

// Puts a place into a set of six, and tells whether it wasn't there.
fn put(set: &mut BitSet, place: u32) -> bool
    requires six { length set.old ≡ 6 }
    ensures { length set.new ≡ 6 }
{
    place < 6 && set.add(place)
}

// Those of six places that the set has, as digits.
fn places(set: &BitSet) -> u64
    requires { length set.now ≡ 6 }
{
    let mut digits = 0_u64;
    for place in 0..6 {
        if set.has(place) {
            digits = digits.wrapping_mul(10).wrapping_add(u64::from(place));
        }
    }
    digits
}

// The places of a set of six before and behind four puts, which of those were new.
fn filled(alloc: Global) -> Result<(u64, [bool; 4], u64), NoMemory> {
    let mut set = BitSet::new(alloc, 6)?;
    let before = places(&set);
    let added = [
        put(&mut set, 3),
        put(&mut set, 1),
        put(&mut set, 3),
        put(&mut set, 5),
    ];
    Ok((before, added, places(&set)))
}

#[test]
fn places_are_in_the_set_once_they_were_added(rt: HostRuntime) -> Result<(), Fail> {
    assert_eq!(rt; filled(rt.alloc())?, (0, [true, true, false, true], 135));
    Ok(())
}
