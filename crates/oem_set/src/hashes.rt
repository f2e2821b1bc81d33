ghost use Rattle.std.specs.Prelude.{◌≡◌, ◌++◌, List};
ghost use Rattle.oem_set.specs.Types.{Oid as TheOid};
ghost use Rattle.oem_set.specs.Sets.{hash_of};

use lore_base::Oid;

// The multiplier of Knuth's MMIX generator: odd, without a pattern in its bits.
const FACTOR: u64 = 6_364_136_223_846_793_005;

// The hash of a list of objects.
pub(crate) fn hash_oids(oids: &[Oid]) -> u64
    ensures { result ≡ hash_of oids.now }
{
    hash_after(0, oids)
}

// The hash of a list that has these objects behind others, of whose list the hash is given.
pub(crate) fn hash_after(front: u64, oids: &[Oid]) -> u64
    ensures { (before : List TheOid) → front ≡ hash_of before
        → result ≡ hash_of (before ++ oids.now) }
{
    let mut hash = front;
    'oids: for oid in oids {
        hash = hash.wrapping_mul(FACTOR).wrapping_add(u64::from(oid.0));
    }
    hash
}
