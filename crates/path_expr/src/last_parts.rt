ghost use Rattle.std.specs.Prelude.{◌≡◌, ◌+◌, ◌-◌, ◌<◌, ◌≤◌, length, map, drop, slice_index_or};
ghost use Rattle.lore_base.specs.Paths.{path_tree, trees_of, more, leaves, leaves_of};

use lore_base::Path;

// The last one of the first `count` parts.
pub(crate) fn last_part(parts: &[Path], count: usize) -> &Path
    requires some { 0 < count }
    requires within { count ≤ length parts.now }
    ensures last { trees_of (drop (count - 1) (map path_tree parts.now))
        ≡ more (path_tree result.now) (trees_of (drop count (map path_tree parts.now))) }
    ensures is { result.now ≡ slice_index_or parts.now (count - 1) result.now }
    ensures room { leaves (path_tree result.now)
        + leaves_of (trees_of (drop count (map path_tree parts.now)))
        ≤ leaves_of (trees_of (map path_tree parts.now)) }
{
    &parts[count - 1]
}
