//! Tests of a database that is driven statement by statement: that it goes on where memory was refused,
//! and how little is read where one value is changed.
//!
//! In a run of the tests nothing is refused, so that the first show only what the statements come to:
//! `bench/faults session` refuses each allocation in turn.
#![tactic(auto)]

#[cfg(test)]
mod executing;
#[cfg(test)]
mod kept;
#[cfg(test)]
mod reads;
