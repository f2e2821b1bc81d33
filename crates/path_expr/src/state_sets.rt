ghost use Rattle.std.specs.Prelude.{◌≡◌, ◌↔◌, ◌⊎◌, ℕ, ◌<◌, ◌≤◌, IsTrue, IfSome, IfNone};
ghost use Rattle.path_expr.specs.Machines.{IsIn, reads_on};

/// The state at the end of each automaton. The states before its leaves are numbered from 0 on.
pub const END: u8 = 64;

/// A set of states, a bit for each: that of state 0 is the lowest.
#[derive(Clone, Copy, Debug, PartialEq, Eq, PartialOrd, Ord, Hash)]
pub struct States(pub u128);

impl States {
    /// The set of no state.
    pub const fn none() -> States
        ensures { (state : ℕ) → IsIn result state → ⊥ }
    {
        States(0)
    }

    /// The set of this state alone.
    pub fn one(state: u8) -> States
        requires { state < 128 }
        ensures { (other : ℕ) → IsIn result other ↔ other ≡ state }
    {
        States(1 << u32::from(state))
    }

    /// Whether the state is in the set.
    pub fn has(self, state: u8) -> bool
        ensures { IsTrue result ↔ IsIn self state }
    {
        has_bit(self.0, state)
    }

    /// Whether no state is in the set.
    pub fn is_empty(self) -> bool
        ensures { IsTrue result ↔ ((state : ℕ) → IsIn self state → ⊥) }
    {
        self.0 == 0
    }

    /// Whether some state of the set comes before the end, so that a label may be read there.
    pub fn reads_on(self) -> bool
        ensures { result ≡ reads_on self }
    {
        // END is 64, so the states before it are the 64 lowest bits.
        self.0 & 0xffff_ffff_ffff_ffff != 0
    }

    /// The states of either set.
    pub fn join(self, other: States) -> States
        ensures { (state : ℕ) → IsIn result state ↔ (IsIn self state ⊎ IsIn other state) }
    {
        States(self.0 | other.0)
    }

    // The set, with the state too where `is` is true.
    pub(crate) fn with(self, state: u8, is: bool) -> States
        requires { state < 128 }
        ensures { (other : ℕ) →
            IsIn result other ↔ (IsIn self other ⊎ ((other ≡ state) × IsTrue is)) }
    {
        if is {
            self.join(States::one(state))
        } else {
            self
        }
    }

    /// The states that both sets have.
    pub fn meet(self, other: States) -> States
        ensures { (state : ℕ) → IsIn result state ↔ (IsIn self state × IsIn other state) }
    {
        States(self.0 & other.0)
    }

    /// The states of this set that the other one lacks.
    pub fn without(self, other: States) -> States
        ensures { (state : ℕ) → IsIn result state ↔ (IsIn self state × (IsIn other state → ⊥)) }
    {
        States(self.0 ^ (self.0 & other.0))
    }

    /// The first state of the set that is `from` or a later one; None exactly where there is none.
    pub fn next(self, from: u8) -> Option<u8>
        ensures some { IfSome result (λ state. (from ≤ state) × IsIn self state) }
        ensures within { IfSome result (λ state. state < 128) }
        ensures least { IfSome result (λ state.
            (other : ℕ) → from ≤ other → other < state → IsIn self other → ⊥) }
        ensures none { IfNone result ((state : ℕ) → from ≤ state → IsIn self state → ⊥) }
    {
        first_bit(self.0, from)
    }
}

// Whether the bit at the place is set.
const fn has_bit(bits: u128, place: u8) -> bool
    ensures { IsTrue result ↔ IsIn (record { 0 = bits }) place }
{
    place < 128 && bits >> place as u32 & 1 == 1
}

// The first place from `from` on where a bit is set.
fn first_bit(bits: u128, from: u8) -> Option<u8>
    ensures some { IfSome result (λ place. (from ≤ place) × IsIn (record { 0 = bits }) place) }
    ensures within { IfSome result (λ place. place < 128) }
    ensures least { IfSome result (λ place.
        (other : ℕ) → from ≤ other → other < place → IsIn (record { 0 = bits }) other → ⊥) }
    ensures none { IfNone result
        ((place : ℕ) → from ≤ place → IsIn (record { 0 = bits }) place → ⊥) }
{
    if from >= 128 {
        return None;
    }
    let left = bits >> from as u32;
    if left == 0 {
        return None;
    }
    Some(from + left.trailing_zeros() as u8)
}
