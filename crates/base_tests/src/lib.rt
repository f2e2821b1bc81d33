//! Tests of sources and sinks in memory, of names in order, of the orders of values, and of probes
//! of a plain list of values.
//!
//! Values are from outside the program. Whole scripts test lists, texts, names and comparisons,
//! and how values and labels are printed.
#![tactic(auto)]

#[cfg(test)]
mod ends;
#[cfg(test)]
mod names;
#[cfg(test)]
mod orders;
#[cfg(test)]
mod passing;
#[cfg(test)]
mod values;
