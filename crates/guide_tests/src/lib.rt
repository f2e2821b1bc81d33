//! Tests of sets of objects, and of guides of small graphs: where they pass a limit, which node has
//! a set, and an edge that is planned.
//!
//! Values are from outside the program. Whole scripts test what a guide tells of paths, and what it
//! becomes after a change.
#![tactic(auto)]

#[cfg(test)]
mod guides;
#[cfg(test)]
mod sets;
