ghost use Rattle.std.specs.Prelude.{◌≡◌, ◌↔◌, ℕ, List, [], ◌∷◌, ◌++◌, length, map, slice_get, IfOk};
ghost use Rattle.std.specs.Prelude.{OnOk, OnErr, MatchOption, IsTrue};
ghost use Rattle.std.specs.Option.{option_copied};
ghost use Rattle.lore_base.specs.Types.{Pattern as ThePattern};
ghost use Rattle.lore_base.specs.Paths.{PathTree, path_tree, path_trees, parts_of, Fits};

use crate::edges::Label;
use lore_lists::{NoMemory, OemText, TryCopy};
use std::alloc::Global;

/// Which labels one step of a path takes.
#[derive(Debug, Drop)]
pub enum Pattern {
    /// The label with this text.
    Plain(OemText),
    /// Each label that the text matches, where every `%` stands for zero or more characters.
    Wild(OemText),
}

/// A table of labels that tells whether a label fits a pattern.
pub trait LabelTest {
    /// The texts of the labels, in the order of their numbers.
    ghost texts: { Self → List (List ℕ) };

    /// Whether the label is in the table and its text is that of the pattern, or is matched by it.
    /// Takes no memory.
    fn matches(&self, label: Label, pattern: &Pattern) -> bool
        ensures { IsTrue result ↔ Fits (texts self.now) pattern.now label };
}

impl TryCopy for Pattern {
    ghost Seen = { ThePattern };

    ghost seen = { λ pattern. pattern };

    fn try_copy(&self, alloc: Global) -> Result<Self, NoMemory> {
        match self {
            Pattern::Plain(text) => Ok(Pattern::Plain(text.try_copy(alloc)?)),
            Pattern::Wild(text) => Ok(Pattern::Wild(text.try_copy(alloc)?)),
        }
    }
}

/// A general path expression (Abiteboul et al. 1997): it spells words of labels.
#[cycle(path)]
#[derive(Drop)]
pub enum Path {
    /// One label.
    Step(Pattern),
    /// `#`: any word of labels, the empty one too.
    Any,
    /// A word of each part, one after another.
    Seq(PathList),
    /// A word of one of the parts.
    Alt(PathList),
    /// The empty word, or one of the part.
    Opt(Box<Path>),
    /// Zero or more words of the part, one after another.
    Star(Box<Path>),
    /// One or more words of the part, one after another.
    Plus(Box<Path>),
}

/// The parts of a path, in text order.
#[cycle(path)]
#[derive(Drop)]
pub struct PathList {
    items: Vec<Path>,
}

impl TryCopy for Path {
    ghost Seen = { PathTree };

    ghost seen = { path_tree };

    fn try_copy(&self, alloc: Global) -> Result<Self, NoMemory> {
        copy_path(alloc, self)
    }
}

impl TryCopy for PathList {
    ghost Seen = { List PathTree };

    ghost seen = { path_trees };

    fn try_copy(&self, alloc: Global) -> Result<Self, NoMemory> {
        copy_parts(alloc, self)
    }
}

impl PathList {
    /// The list of no part. Takes no memory.
    pub fn new(alloc: Global) -> PathList
        ensures parts { parts_of result ≡ [] }
        ensures trees { path_trees result ≡ [] }
    {
        PathList {
            items: Vec::new(alloc),
        }
    }

    /// The number of parts.
    pub fn len(&self) -> usize
        ensures parts { result ≡ length (parts_of self.now) }
        ensures trees { result ≡ length (path_trees self.now) }
    {
        self.items.len()
    }

    /// The part at place `i`, counted from 0; None exactly where there are not so many.
    pub fn get(&self, i: usize) -> Option<&Path>
        ensures { option_copied result ≡ slice_get (parts_of self.now) i }
    {
        self.items.get(i)
    }

    /// The parts as a slice.
    pub fn as_slice(&self) -> &[Path]
        ensures parts { result.now ≡ parts_of self.now }
        ensures trees { map path_tree result.now ≡ path_trees self.now }
    {
        self.items.as_slice()
    }

    /// Puts a part behind those that are there. Where memory is refused the list stays as it is.
    pub fn push(&mut self, item: Path) -> Result<(), NoMemory>
        ensures ok { OnOk result (parts_of self.new ≡ parts_of self.old ++ item ∷ []) }
        ensures trees { OnOk result
            (path_trees self.new ≡ path_trees self.old ++ path_tree item ∷ []) }
        ensures err { OnErr result (parts_of self.new ≡ parts_of self.old) }
    {
        self.items.push(item)?;
        Ok(())
    }

    /// Takes the last part away; None exactly where there is none.
    pub fn pop(&mut self) -> Option<Path>
        ensures { let old = path_trees self.old in
            MatchOption result ((old ≡ []) × (path_trees self.new ≡ []))
            (λ last. old ≡ path_trees self.new ++ path_tree last ∷ []) }
    {
        self.items.pop()
    }
}

#[cycle(copy)]
fn copy_path(alloc: Global, path: &Path) -> Result<Path, NoMemory>
    ensures { IfOk result (λ copy. path_tree copy ≡ path_tree path.now) }
{
    match path {
        Path::Step(pattern) => Ok(Path::Step(pattern.try_copy(alloc)?)),
        Path::Any => Ok(Path::Any),
        Path::Seq(parts) => Ok(Path::Seq(copy_parts(alloc, parts)?)),
        Path::Alt(parts) => Ok(Path::Alt(copy_parts(alloc, parts)?)),
        Path::Opt(part) => Ok(Path::Opt(Box::new(alloc, copy_path(alloc, part)?)?)),
        Path::Star(part) => Ok(Path::Star(Box::new(alloc, copy_path(alloc, part)?)?)),
        Path::Plus(part) => Ok(Path::Plus(Box::new(alloc, copy_path(alloc, part)?)?)),
    }
}

#[cycle(copy)]
fn copy_parts(alloc: Global, parts: &PathList) -> Result<PathList, NoMemory>
    ensures { IfOk result (λ copy. path_trees copy ≡ path_trees parts.now) }
{
    let mut items = Vec::with_capacity(alloc, parts.items.len())?;
    'parts: for part in &parts.items {
        items.push(copy_path(alloc, part)?)?;
    }
    Ok(PathList { items })
}
