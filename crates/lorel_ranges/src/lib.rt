//! Ranges: what the paths of a select stand for, and the ranges that it makes, fused.
//!
//! A select ranges over the objects that its paths reach. `text_of` finds what each path of the
//! text starts at and which identifiers the text ranges. `fused_ranges` makes a range of each
//! object variable, and of each prefix of the path of an item or of a from item without one, and
//! joins those whose objects nobody looks at with what follows (Abiteboul et al. 1997, range
//! variables and path expressions).
#![tactic(auto)]

pub use fusing::fused_ranges;
pub use places::{Place, Root, same_place};
pub use plain_places::PlainPlaces;
pub use select_ranges::{SelectRanges, TextRange};
pub use text::{Shown, ShownItems, Text, TextPart, quantifiers_around, text_of};
pub use variables::Variables;

mod fusing;
pub mod laws;
mod path_variables;
mod places;
mod plain_places;
mod select_ranges;
mod text;
mod variables;
