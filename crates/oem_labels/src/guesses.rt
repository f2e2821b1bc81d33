use lore_base::Label;

// A label's place is what this leaves of its number. The places are so few that they stay at hand;
// labels that share one only guess worse.
const SLOTS: usize = 64;

/// Guesses of which label comes next: the one that came behind the last one the time before, or
/// else the one with the next number. No clause speaks of a guess, since whoever takes it looks
/// whether it holds.
#[derive(Drop)]
pub struct Guesses {
    // What came behind the labels of a place.
    behind: [Option<Label>; SLOTS],
    last: u32,
}

impl Guesses {
    /// No label came yet. Takes no memory.
    pub fn new() -> Guesses {
        Guesses {
            behind: [None; SLOTS],
            last: 0,
        }
    }

    /// The number of the label that is likely to come.
    pub fn next(&self) -> usize {
        match self.behind[self.last as usize % SLOTS] {
            Some(label) => label.0 as usize,
            None => self.last as usize + 1,
        }
    }

    /// Notes which label came.
    pub fn note(&mut self, label: Label) {
        self.behind[self.last as usize % SLOTS] = Some(label);
        self.last = label.0;
    }
}
