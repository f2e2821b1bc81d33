ghost use Rattle.std.specs.Prelude.{◌≡◌};
ghost use Rattle.lore_base.specs.Paths.{path_tree};
ghost use Rattle.lorel_trees.specs.Trees.{rooted_tree};
ghost use Rattle.lorel_terms.specs.Outcomes.{Finds};
ghost use Rattle.lorel_parse.specs.inside.Targets as spec;

use lore_base::{OemText, Path, Pattern};
use lorel_terms::ParseFault;
use lorel_trees::Rooted;

/// The target of an addition or a removal and its label, from the path that stands before the
/// symbol: the path without its last part, which must be a plain label.
pub(crate) fn aimed(mut path: Rooted) -> Result<(Rooted, OemText), ParseFault>
    ensures { let found = spec.aimed (rooted_tree path) in
        Finds (λ aim. (rooted_tree aim.0, aim.1)) found result }
{
    let Some(last) = path.parts.pop() else {
        return Err(ParseFault::Syntax);
    };
    let Some(label) = plain_label(last) else {
        return Err(ParseFault::Syntax);
    };
    Ok((path, label))
}

// The text of a plain label.
fn plain_label(last: Path) -> Option<OemText>
    ensures { result ≡ spec.plain_label (path_tree last) }
{
    match last {
        Path::Step(Pattern::Plain(text)) => Some(text),
        _ => None,
    }
}
