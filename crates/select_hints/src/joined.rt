ghost use Rattle.std.specs.Prelude.{◌≡◌, [], ◌∷◌, ◌++◌, map, IfOk, OnOk};
ghost use Rattle.lore_base.specs.Paths.{path_tree, path_trees, trees_of, seq};
ghost use Rattle.select_hints.specs.inside.Moves.{Joins, PutsParts};

use lore_base::{NoMemory, Path, PathList, TryCopy};
use std::alloc::Global;

/// The path that leads along the first and then along the second one: their parts in a row.
pub(crate) fn joined(alloc: Global, first: &Path, second: &Path) -> Result<Path, NoMemory>
    ensures { IfOk result (λ path.
        Joins (path_tree first.now) (path_tree second.now) (path_tree path)) }
{
    let mut parts = PathList::new(alloc);
    put_parts(alloc, first, &mut parts)?;
    put_parts(alloc, second, &mut parts)?;
    Ok(in_a_row(parts))
}

fn in_a_row(parts: PathList) -> Path
    ensures { path_tree result ≡ seq (trees_of (path_trees parts)) }
{
    Path::Seq(parts)
}

// Puts the parts of the path behind the others.
fn put_parts(alloc: Global, path: &Path, parts: &mut PathList) -> Result<(), NoMemory>
    ensures { OnOk result
        (PutsParts (path_tree path.now) (path_trees parts.old) (path_trees parts.new)) }
{
    match path {
        Path::Seq(own) => put_each(alloc, own.as_slice(), parts),
        _ => put_copy(alloc, path, parts),
    }
}

fn put_each(alloc: Global, paths: &[Path], parts: &mut PathList) -> Result<(), NoMemory>
    ensures { OnOk result
        (path_trees parts.new ≡ path_trees parts.old ++ map path_tree paths.now) }
{
    'own: for path in paths {
        put_copy(alloc, path, parts)?;
    }
    Ok(())
}

fn put_copy(alloc: Global, path: &Path, parts: &mut PathList) -> Result<(), NoMemory>
    ensures { OnOk result
        (path_trees parts.new ≡ path_trees parts.old ++ path_tree path.now ∷ []) }
{
    parts.push(path.try_copy(alloc)?)?;
    Ok(())
}

/// Whether a walk along the path takes one step for each of its parts. No promise rests on it.
pub(crate) fn is_short(path: &Path) -> bool {
    match path {
        Path::Step(_) => true,
        Path::Seq(parts) => all_are_steps(parts.as_slice()),
        _ => false,
    }
}

fn all_are_steps(parts: &[Path]) -> bool {
    'parts: for part in parts {
        if !matches!(part, Path::Step(_)) {
            return false;
        }
    }
    true
}
