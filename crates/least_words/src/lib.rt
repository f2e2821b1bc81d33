//! The least word of a path from one object to another: of the words that the path spells and that
//! are walked there, the shortest, and among those of one length the first by the numbers of its
//! labels.
//!
//! One search from an object serves all ends. It goes through the product of the graph with the
//! path's automaton (Mendelzon and Wood 1995), whose places are objects under states. Appending a
//! label keeps the order of words, so the least word of a place is the least word of the place
//! before it, and a label. That is why places stand in groups: what is first reached by one word is
//! expanded together, label by label, so groups are found in the order of their words. A group keeps
//! the group that it came from and the label, and a word is spelled back from these.
#![tactic(auto)]

pub use least::{LeastWords, least_word};

mod arcs;
mod groups;
mod least;
mod search;
mod spelling;
