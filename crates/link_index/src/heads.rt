ghost use Rattle.std.specs.Prelude.{◌≡◌, ◌<◌, ◌≤◌, ℕ, true, length, slice_index_or, IfSome, IfNone};
ghost use Rattle.std.specs.Prelude.{IsSome, vec_len, vec_capacity};
ghost use Rattle.link_index.specs.inside.Records.{head_of, AreAscendingHeads, IsListed, IsHeaded};
ghost use Rattle.link_index.specs.declared.heads.Head.{Head as TheHead};

use lore_base::Oid;

/// A child, and the place of the record of the first edge that enters it.
#[derive(Clone, Copy, Debug)]
pub(crate) struct Head {
    pub(crate) child: Oid,
    pub(crate) first: Option<usize>,
}

// The place of the child among ascending ones. It is looked for first where it stands while numbers
// have no gap, and then by binary search.
pub(crate) fn place_of(heads: &[Head], child: Oid) -> Option<usize>
    requires { AreAscendingHeads heads.now }
    ensures inside { IfSome result (λ place. place < length heads.now) }
    ensures found { IfSome result (λ place. (d : TheHead) →
        (slice_index_or heads.now place d).child ≡ child) }
    ensures none { IfNone result (¬ IsListed heads.now child) }
{
    let likely = likely_place(heads, child);
    if stands_at(heads, likely, child) {
        return Some(likely);
    }
    match heads.binary_search_by_key(&child, |head| head.child) {
        Ok(place) => Some(place),
        Err(_) => None,
    }
}

// As far behind the first child as the number is above that one's.
fn likely_place(heads: &[Head], child: Oid) -> usize {
    match heads.first() {
        Some(first) => child.0.saturating_sub(first.child.0) as usize,
        None => 0,
    }
}

// Whether the child stands at this place.
fn stands_at(heads: &[Head], place: usize, child: Oid) -> bool
    ensures inside { result ≡ true → place < length heads.now }
    ensures found { result ≡ true → (d : TheHead) → (slice_index_or heads.now place d).child ≡ child }
{
    match heads.get(place) {
        Some(head) => head.child == child,
        None => false,
    }
}

// The place of the first record of the child; None where no edge enters it.
pub(crate) fn first_of(heads: &[Head], child: Oid) -> Option<usize>
    requires { AreAscendingHeads heads.now }
    ensures { result ≡ head_of heads.now child }
{
    match place_of(heads, child) {
        Some(place) => heads[place].first,
        None => None,
    }
}

// Sets the first record of a child that is listed.
pub(crate) fn set_head(heads: &mut [Head], child: Oid, first: Option<usize>)
    requires ascend { AreAscendingHeads heads.old }
    requires listed { IsListed heads.old child }
    ensures { IsHeaded heads.old child first heads.new }
{
    if let Some(place) = place_of(heads, child) {
        heads[place].first = first;
    }
}
