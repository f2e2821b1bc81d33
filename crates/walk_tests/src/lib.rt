//! Tests of searches along paths and against them, of walks along words, and of least words, on small
//! graphs with rings.
//!
//! Values are from outside the program. Whole scripts test what each form of path spells.
#![tactic(auto)]

#[cfg(test)]
mod along;
#[cfg(test)]
mod shapes;
#[cfg(test)]
mod walks;
#[cfg(test)]
mod words;
