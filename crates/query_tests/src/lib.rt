//! Tests of copies that no other crate makes, and of a condition whose paths aren't made ready.
//!
//! Values are from outside the program. Whole scripts test what each form of condition holds of.
#![tactic(auto)]

#[cfg(test)]
mod conditions;
#[cfg(test)]
mod copies;
