//! Tests of the message texts of all faults, which no contract speaks of.
#![tactic(auto)]

#[cfg(test)]
mod messages;
