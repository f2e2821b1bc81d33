ghost use Rattle.std.specs.Prelude.{◌↔◌, ◌≤◌, IsTrue, IfOk};
ghost use Rattle.lore_base.specs.Databases.{AreAscendingEdges};
ghost use Rattle.lore_base.specs.Paths.{path_tree, leaves};

use index_traits::NaiveEdges;
use lore_base::{
    Edge, EdgeBuf, Label, LabelTest, NoMemory, OemText, Oid, Path, PathList, Pattern, TextList,
    is_matched, leaf_count,
};
use path_expr::Automaton;
use std::alloc::Global;
use std::test::Fail;

fn plain(alloc: Global, letter: u8) -> Result<Path, NoMemory> {
    Ok(Path::Step(Pattern::Plain(OemText::from_bytes(alloc, &[letter])?)))
}

fn star(alloc: Global, path: Path) -> Result<Path, NoMemory> {
    Ok(Path::Star(Box::new(alloc, path)?))
}

// The path that a sign stands for: `n` and `v` are labels, and `N` is any number of `n`.
fn part(alloc: Global, sign: u8) -> Result<Path, NoMemory> {
    match sign {
        b'#' => Ok(Path::Any),
        b'%' => Ok(Path::Step(Pattern::Wild(OemText::from_bytes(alloc, b"%")?))),
        b'N' => star(alloc, plain(alloc, b'n')?),
        letter => plain(alloc, letter),
    }
}

fn put_parts(alloc: Global, text: &[u8], paths: &mut PathList) -> Result<(), NoMemory> {
    for sign in text {
        paths.push(part(alloc, *sign)?)?;
    }
    Ok(())
}

// The paths that the signs of a text stand for.
pub(crate) fn paths_of(alloc: Global, text: &[u8]) -> Result<PathList, NoMemory> {
    let mut paths = PathList::new(alloc);
    put_parts(alloc, text, &mut paths)?;
    Ok(paths)
}

// They make one path, in turn.
pub(crate) fn path_in_turn(alloc: Global, text: &[u8]) -> Result<Path, Fail>
    ensures { IfOk result (λ path. leaves (path_tree path) ≤ 64) }
{
    let paths = paths_of(alloc, text)?;
    if leaf_count(&paths) <= 64 {
        return Ok(Path::Seq(paths));
    }
    drop(paths);
    Err(Fail::new("the path has too many leaves"))
}

fn in_turn(alloc: Global, paths: &PathList) -> Result<Automaton, Fail> {
    if leaf_count(paths) > 64 {
        return Err(Fail::new("the path has too many leaves"));
    }
    Ok(Automaton::in_turn(alloc, paths)?)
}

// The automaton of the paths of a text, one after another.
pub(crate) fn automaton_of(alloc: Global, text: &[u8]) -> Result<Automaton, Fail> {
    let paths = paths_of(alloc, text)?;
    let automaton = in_turn(alloc, &paths);
    drop(paths);
    automaton
}

// A table of labels as the plain list of its texts.
#[derive(Drop)]
pub(crate) struct LabelTexts {
    texts: TextList,
}

impl LabelTest for LabelTexts {
    ghost texts = { λ labels. labels.texts };

    fn matches(&self, label: Label, pattern: &Pattern) -> bool {
        match self.texts.get(label.0 as usize) {
            Some(text) => match pattern {
                Pattern::Plain(plain) => plain == text,
                Pattern::Wild(wild) => is_matched(wild.as_bytes(), text.as_bytes()),
            },
            None => false,
        }
    }
}

// The table of the labels `n` and `v`.
fn two_labels(alloc: Global) -> Result<LabelTexts, NoMemory> {
    let mut texts = TextList::new(alloc);
    texts.push(OemText::from_bytes(alloc, b"n")?)?;
    texts.push(OemText::from_bytes(alloc, b"v")?)?;
    Ok(LabelTexts { texts })
}

fn put_edges(numbers: &[[u32; 3]], edges: &mut EdgeBuf) -> Result<(), NoMemory> {
    for [parent, label, child] in numbers {
        edges.push(Edge {
            parent: Oid(*parent),
            label: Label(*label),
            child: Oid(*child),
        })?;
    }
    Ok(())
}

// Edges written as parent, label and child.
pub(crate) fn edges_of(alloc: Global, numbers: &[[u32; 3]]) -> Result<EdgeBuf, NoMemory>
    ensures { IfOk result AreAscendingEdges }
{
    let mut edges = EdgeBuf::new(alloc);
    put_edges(numbers, &mut edges)?;
    edges.sort_set();
    Ok(edges)
}

fn graph_of(alloc: Global, numbers: &[[u32; 3]]) -> Result<NaiveEdges, NoMemory> {
    Ok(NaiveEdges::new(edges_of(alloc, numbers)?))
}

// A graph with the texts of its labels. It is made once and lent, since a value that is let go is
// proved to be, in each place where it may be.
#[derive(Drop)]
pub(crate) struct Labelled {
    pub(crate) graph: NaiveEdges,
    pub(crate) labels: LabelTexts,
}

pub(crate) fn labelled_graph(alloc: Global, numbers: &[[u32; 3]]) -> Result<Labelled, NoMemory> {
    let graph = graph_of(alloc, numbers)?;
    let labels = two_labels(alloc)?;
    Ok(Labelled { graph, labels })
}

// 1 and 2 are a ring by `n`; 2 and 4 share 3 by `v`, and 4 leads to 1 and 3 by `n`.
pub(crate) const RING: [[u32; 3]; 6] = [
    [1, 0, 2],
    [2, 0, 1],
    [2, 1, 3],
    [4, 0, 1],
    [4, 0, 3],
    [4, 1, 3],
];
