use crate::shapes::{Labelled, paths_of};
use crate::walks::digits;
use index_traits::NaiveEdges;
use lore_base::{Label, NoMemory, OemText, Oid, Path, Steps};
use oem_labels::LabelTable;
use std::alloc::Global;
use std::sync::ledger::Ledger;
use std::test::Fail;
use word_walks::{OnlyWord, Reached, only_word};

// Puts the text into the table, where it isn't there yet.
fn put_text(labels: &mut LabelTable, text: &OemText) -> Result<(), NoMemory> {
    if labels.len() > 9 {
        return Ok(());
    }
    match labels.find(text) {
        Some(_) => Ok(()),
        None => labels.push(text),
    }
}

fn put_letter(alloc: Global, labels: &mut LabelTable, letter: u8) -> Result<(), NoMemory> {
    let text = OemText::from_bytes(alloc, &[letter])?;
    let put = put_text(labels, &text);
    drop(text);
    put
}

// The table of the labels `n` and `v`.
fn two_labels(alloc: Global) -> Result<LabelTable, NoMemory> {
    let mut labels = LabelTable::new(alloc);
    put_letter(alloc, &mut labels, b'n')?;
    put_letter(alloc, &mut labels, b'v')?;
    Ok(labels)
}

// The path of these signs, one after another.
fn path_of(alloc: Global, signs: &str) -> Result<Path, NoMemory> {
    Ok(Path::Seq(paths_of(alloc, signs.as_bytes())?))
}

// A path, and its word: the labels as digits behind a 1, a 0 where one is lacking, and a 9 where it
// is something else than a word.
const WORDS: [(&str, u64); 11] = [
    ("", 1),
    ("n", 10),
    ("v", 11),
    ("nv", 101),
    ("vnn", 1100),
    ("w", 0),
    ("nw", 0),
    ("N", 9),
    ("%", 9),
    ("n#", 9),
    ("n%v", 9),
];

// The labels as digits behind a 1.
fn sign(labels: &[Label]) -> u64 {
    let mut sign = 1_u64;
    for label in labels {
        sign = sign.wrapping_mul(10).wrapping_add(u64::from(label.0));
    }
    sign
}

// The sign of a word.
fn sign_of(word: &OnlyWord) -> u64 {
    match word {
        OnlyWord::Labels(labels) => sign(labels.as_slice()),
        OnlyWord::Lacking => 0,
    }
}

fn only_sign(word: Option<OnlyWord>) -> u64 {
    match word {
        Some(word) => {
            let sign = sign_of(&word);
            drop(word);
            sign
        }
        None => 9,
    }
}

fn word_of(alloc: Global, signs: &str, labels: &LabelTable) -> Result<Option<OnlyWord>, NoMemory> {
    let path = path_of(alloc, signs)?;
    let word = only_word(alloc, &path, labels);
    drop(path);
    word
}

fn check_only_words(
    alloc: Global,
    labels: &LabelTable,
    table: &[(&'static str, u64)],
) -> Result<(), Fail> {
    for (signs, wanted) in table {
        if only_sign(word_of(alloc, signs, labels)?) != *wanted {
            return Err(Fail::new(*signs));
        }
    }
    Ok(())
}

// An object, a path, and the objects that its word leads to from there.
type Along = (u32, &'static str, u64);

const ALONG: [Along; 10] = [
    (1, "", 1),
    (4, "n", 13),
    (4, "nn", 2),
    (2, "v", 3),
    (4, "nv", 0),
    (4, "nnv", 3),
    (1, "nnnn", 1),
    (3, "n", 0),
    (9, "n", 0),
    (4, "w", 0),
];

fn walk_twice<L: Ledger>(
    graph: &NaiveEdges,
    word: &OnlyWord,
    from: Oid,
    reached: &mut Reached,
    steps: &mut Steps<L>,
) -> Result<(), NoMemory> {
    reached.walk(graph, word, from, steps)?;
    reached.walk(graph, word, from, steps)
}

fn taken(reached: &mut Reached) -> u64 {
    let oids = reached.take();
    let digits = digits(&oids);
    drop(oids);
    digits
}

// The objects that the word leads to. They are walked to twice, and are those of one walk alone.
fn along<L: Ledger>(
    graph: &NaiveEdges,
    word: &OnlyWord,
    from: u32,
    reached: &mut Reached,
    steps: &mut Steps<L>,
) -> Result<u64, Fail> {
    walk_twice(graph, word, Oid(from), reached, steps)?;
    let digits = taken(reached);
    if !reached.as_slice().is_empty() {
        return Err(Fail::new("what was given out is still there"));
    }
    Ok(digits)
}

fn along_word<L: Ledger>(
    graph: &NaiveEdges,
    word: Option<OnlyWord>,
    from: u32,
    reached: &mut Reached,
    steps: &mut Steps<L>,
) -> Result<u64, Fail> {
    let Some(word) = word else {
        return Err(Fail::new("a path is no word"));
    };
    let found = along(graph, &word, from, reached, steps);
    drop(word);
    found
}

fn check_each<L: Ledger>(
    alloc: Global,
    graph: &NaiveEdges,
    labels: &LabelTable,
    table: &[Along],
    reached: &mut Reached,
    steps: &mut Steps<L>,
) -> Result<(), Fail> {
    for (from, signs, wanted) in table {
        let word = word_of(alloc, signs, labels)?;
        if along_word(graph, word, *from, reached, steps)? != *wanted {
            return Err(Fail::new(*signs));
        }
    }
    Ok(())
}

fn check_reached<L: Ledger>(
    alloc: Global,
    graph: &NaiveEdges,
    labels: &LabelTable,
    steps: &mut Steps<L>,
) -> Result<(), Fail> {
    let mut reached = Reached::new(alloc);
    let checked = check_each(alloc, graph, labels, &ALONG, &mut reached, steps);
    drop(reached);
    checked
}

fn check_with<L: Ledger>(
    alloc: Global,
    over: &Labelled,
    labels: &LabelTable,
    steps: &mut Steps<L>,
) -> Result<(), Fail> {
    check_only_words(alloc, labels, &WORDS)?;
    check_reached(alloc, &over.graph, labels, steps)
}

// Walks along words, with a table of the labels of the graph.
pub(crate) fn check_along<L: Ledger>(
    alloc: Global,
    over: &Labelled,
    steps: &mut Steps<L>,
) -> Result<(), Fail> {
    let labels = two_labels(alloc)?;
    let checked = check_with(alloc, over, &labels, steps);
    drop(labels);
    checked
}
