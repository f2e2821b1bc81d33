ghost use Rattle.std.specs.Prelude.{◌≡◌, ◌↔◌, ◌≤◌, length, map, take, IsTrue};
ghost use Rattle.lore_base.specs.Paths.{path_tree};
ghost use Rattle.lorel_ranges.specs.Views.{root_tree, place_tree, prefix_of};

use lore_base::{OemText, Path, Pattern};

/// Where a path starts, by its text.
#[derive(Clone, Copy)]
pub enum Root<'q> {
    /// At a name, or at an identifier that isn't known.
    Named(&'q OemText),
    /// At the object variable of a from item.
    Ranged(&'q OemText),
    /// At the variable of the quantifier that so many others enclose.
    Quantified(u32),
}

/// An object that the text speaks of: a start and the parts of a path that lead on from it.
#[derive(Clone, Copy)]
pub struct Place<'q> {
    pub root: Root<'q>,
    pub parts: &'q [Path],
}

impl<'q> Place<'q> {
    /// The place of so many parts alone, counted from the start.
    pub fn prefix(self, len: usize) -> Place<'q>
        requires { len ≤ length self.parts.now }
        ensures root { result.root ≡ self.entry.root }
        ensures parts { result.parts.now ≡ take len self.entry.parts.now }
        ensures place { place_tree result ≡ prefix_of len (place_tree self.entry) }
    {
        Place {
            root: self.root,
            parts: &self.parts[..len],
        }
    }
}

/// Whether two places are the same: the same start and equal parts.
pub fn same_place(a: &Place, b: &Place) -> bool
    ensures { IsTrue result ↔ (place_tree a.now ≡ place_tree b.now) }
{
    same_root(a.root, b.root) && same_parts(a.parts, b.parts)
}

fn same_root(a: Root, b: Root) -> bool
    ensures { IsTrue result ↔ (root_tree a.entry ≡ root_tree b.entry) }
{
    match (a, b) {
        (Root::Named(a), Root::Named(b)) => a == b,
        (Root::Ranged(a), Root::Ranged(b)) => a == b,
        (Root::Quantified(a), Root::Quantified(b)) => a == b,
        _ => false,
    }
}

#[cycle(same)]
fn same_parts(a: &[Path], b: &[Path]) -> bool
    ensures { IsTrue result ↔ (map path_tree a.now ≡ map path_tree b.now) }
{
    if a.len() != b.len() {
        return false;
    }
    'parts: for (number, part) in a.iter().enumerate() {
        if !same_path(part, &b[number]) {
            return false;
        }
    }
    true
}

#[cycle(same)]
fn same_path(a: &Path, b: &Path) -> bool
    ensures { IsTrue result ↔ (path_tree a.now ≡ path_tree b.now) }
{
    match (a, b) {
        (Path::Step(a), Path::Step(b)) => same_pattern(a, b),
        (Path::Any, Path::Any) => true,
        (Path::Seq(a), Path::Seq(b)) => same_parts(a.as_slice(), b.as_slice()),
        (Path::Alt(a), Path::Alt(b)) => same_parts(a.as_slice(), b.as_slice()),
        (Path::Opt(a), Path::Opt(b)) => same_path(a, b),
        (Path::Star(a), Path::Star(b)) => same_path(a, b),
        (Path::Plus(a), Path::Plus(b)) => same_path(a, b),
        _ => false,
    }
}

fn same_pattern(a: &Pattern, b: &Pattern) -> bool
    ensures { IsTrue result ↔ (a.now ≡ b.now) }
{
    match (a, b) {
        (Pattern::Plain(a), Pattern::Plain(b)) => a == b,
        (Pattern::Wild(a), Pattern::Wild(b)) => a == b,
        _ => false,
    }
}
