ghost use Rattle.std.specs.Prelude.{◌++◌, ℕ, List};
ghost use Rattle.block_rounds.specs.Partitions.{Rows, AreWithin, AreBlocks};
ghost use Rattle.block_rounds.specs.Partitions.{IsBisimulation, IsCoarse, IsStable};

/// Two bisimulations together are one.
pub fn unions_are_bisimulations()
    ensures { (rows : Rows) (kinds : List ℕ) (pairs more : List (ℕ × ℕ))
        → IsBisimulation rows kinds pairs → IsBisimulation rows kinds more
        → IsBisimulation rows kinds (pairs ++ more) }
{}

/// A stable partition that parts no nodes which a bisimulation pairs has for its blocks exactly
/// the nodes that belong together.
pub fn coarse_and_stable_is_exact()
    ensures { (rows : Rows) (kinds numbers : List ℕ) → AreWithin rows
        → IsCoarse rows kinds numbers → IsStable rows kinds numbers
        → AreBlocks rows kinds numbers }
{}
