use lore_base::limits::RANGES;
use member_clues::{MOST_ENDS, knows_some};
use std::cell::Cell;

// How many objects may be at the end of a clue for a row: it is asked only where at least as many
// stand for the slot.
const MOST_FOR_A_ROW: usize = 64;

/// How many rows the tests of a select were asked of, and how many ends they went back from: by
/// these they decide what to do next. No clause speaks of it, since what is told is so whatever is
/// decided.
#[derive(Drop)]
pub struct Pace {
    credit: Cell<usize>,
    counts: Cell<bool>,
}

impl Pace {
    /// Nothing was done yet. Takes no memory.
    pub fn new() -> Pace {
        Pace {
            credit: Cell::new(0),
            counts: Cell::new(false),
        }
    }

    /// A row was tested.
    pub(crate) fn note_tested(&self) {
        self.credit.set(self.credit.get().saturating_add(1));
    }

    /// So many ends were gone back from.
    pub(crate) fn note_ends(&self, count: usize) {
        self.credit.set(self.credit.get().saturating_sub(count));
    }

    /// How many more rows were tested than ends gone back from. To go back from as many ends costs
    /// about as much as the tests did.
    pub(crate) fn credit(&self) -> usize {
        self.credit.get()
    }

    /// Ends were listed in vain.
    pub(crate) fn note_too_many(&self) {
        self.counts.set(true);
    }

    /// Whether that happened, so that ends are counted before they are listed.
    pub(crate) fn counts_first(&self) -> bool {
        self.counts.get()
    }
}

/// How many objects may be at the end of a clue.
pub(crate) fn most_ends(known: &[bool; RANGES]) -> usize {
    if knows_some(known) {
        MOST_FOR_A_ROW
    } else {
        MOST_ENDS
    }
}

/// How many may be there where no clue has so few: for a row, as many as the rows that were tested
/// exceed the ends that were gone back from, so that no more ways back are begun than tests made.
pub(crate) fn more_ends(known: &[bool; RANGES], pace: &Pace) -> usize {
    if knows_some(known) {
        pace.credit().min(MOST_ENDS)
    } else {
        0
    }
}
