//! Tests of runs whose source or sink fails, and over sources and sinks of the system.
//!
//! Values are from outside the program. Cases of whole scripts in which nothing fails are data of
//! `script_cases`.
#![tactic(auto)]

#[cfg(test)]
mod faults;
#[cfg(test)]
mod forms;
#[cfg(test)]
mod runs;
#[cfg(test)]
mod standard_ends;
