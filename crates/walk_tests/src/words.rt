use crate::shapes::{Labelled, automaton_of, labelled_graph};
use least_words::least_word;
use lore_base::{Label, Oid, Steps, Word};
use std::alloc::Global;
use std::sync::ledger::Ledger;
use std::test::Fail;

// The numbers of the labels as digits behind a 1.
fn digits(labels: &[Label]) -> u64 {
    let mut digits = 1_u64;
    for label in labels {
        digits = digits.wrapping_mul(10).wrapping_add(u64::from(label.0));
    }
    digits
}

fn digits_of(word: Option<Word>) -> u64 {
    match word {
        Some(word) => {
            let digits = digits(word.as_slice());
            drop(word);
            digits
        }
        None => 0,
    }
}

// The least word between two objects of the graph as digits behind a 1, or 0 where there is none.
fn spelled<L: Ledger>(
    alloc: Global,
    over: &Labelled,
    (from, to): (u32, u32),
    path: &str,
    steps: &mut Steps<L>,
) -> Result<u64, Fail> {
    let (graph, labels) = (&over.graph, &over.labels);
    let automaton = automaton_of(alloc, path.as_bytes())?;
    let word = least_word(alloc, graph, Oid(from), Oid(to), &automaton, labels, steps);
    drop(automaton);
    Ok(digits_of(word?))
}

// Two objects, a path and its least word between them.
type Between = ((u32, u32), &'static str, u64);

const OVER_RING: [Between; 15] = [
    ((1, 1), "", 1),
    ((1, 2), "", 0),
    ((1, 1), "N", 1),
    ((1, 1), "nN", 100),
    ((1, 2), "nnn", 1_000),
    // 2 is met by `n` and by `nnn`, under two states, and the later one reads `v`.
    ((1, 3), "nnnv", 10_001),
    ((1, 3), "#v", 101),
    ((4, 3), "#v", 11),
    ((4, 3), "#", 10),
    ((2, 3), "%", 11),
    ((4, 3), "%", 10),
    ((3, 1), "#", 0),
    ((1, 3), "nnnnnnnnnv", 10_000_000_001),
    ((9, 9), "N", 1),
    ((9, 1), "#", 0),
];

// From 1 the label 5 leads to 2 and 3, which lead on to 6 by words of two labels, the lower one
// from 3. From 7, label 3 leads to 9 and on to 1; the lower label 2 leads there too, through 8, by
// one label more.
const TWO_WAYS: [[u32; 3]; 10] = [
    [1, 5, 2],
    [1, 5, 3],
    [2, 9, 4],
    [3, 7, 5],
    [4, 1, 6],
    [5, 1, 6],
    [7, 2, 8],
    [7, 3, 9],
    [8, 0, 9],
    [9, 0, 1],
];

const OVER_TWO_WAYS: [Between; 5] = [
    ((1, 6), "#", 1_571),
    ((1, 4), "#", 159),
    ((7, 9), "#", 13),
    ((7, 1), "#", 130),
    ((7, 6), "#", 130_571),
];

fn check_each<L: Ledger>(
    alloc: Global,
    over: &Labelled,
    table: &[Between],
    steps: &mut Steps<L>,
) -> Result<(), Fail> {
    for (ends, path, wanted) in table {
        if spelled(alloc, over, *ends, path, steps)? != *wanted {
            return Err(Fail::new(*path));
        }
    }
    Ok(())
}

// Both tables, of which the first is over the ring.
pub(crate) fn check_words<L: Ledger>(
    alloc: Global,
    ring: &Labelled,
    steps: &mut Steps<L>,
) -> Result<(), Fail> {
    check_each(alloc, ring, &OVER_RING, steps)?;
    let over = labelled_graph(alloc, &TWO_WAYS)?;
    let checked = check_each(alloc, &over, &OVER_TWO_WAYS, steps);
    drop(over);
    checked
}
