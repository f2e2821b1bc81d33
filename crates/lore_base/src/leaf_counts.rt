ghost use Rattle.std.specs.Prelude.{◌≡◌, ◌-◌, ◌^◌, min};
ghost use Rattle.lore_base.specs.Paths.{path_tree, path_trees, trees_of, leaves, leaves_of};

use crate::paths::{Path, PathList};

/// The number of leaves of parts that are read one after another or of which one is read: their
/// steps and their `#`. It stands still at the greatest number of its type.
#[cycle(count)]
pub fn leaf_count(parts: &PathList) -> u64
    ensures { result ≡ min (2 ^ 64 - 1) (leaves_of (trees_of (path_trees parts.now))) }
{
    let mut count: u64 = 0;
    'parts: for part in parts.as_slice() {
        count = count.saturating_add(path_leaf_count(part));
    }
    count
}

/// The number of leaves of one path. It stands still at the greatest number of its type.
#[cycle(count)]
pub fn path_leaf_count(path: &Path) -> u64
    ensures { result ≡ min (2 ^ 64 - 1) (leaves (path_tree path.now)) }
{
    match path {
        Path::Step(_) | Path::Any => 1,
        Path::Seq(parts) | Path::Alt(parts) => leaf_count(parts),
        Path::Opt(part) | Path::Star(part) | Path::Plus(part) => path_leaf_count(part),
    }
}
