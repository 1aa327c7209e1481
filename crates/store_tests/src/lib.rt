//! Tests of the store, by hand: what it answers, and what it leaves on a disk.
//!
//! They are in a crate above the store, since a crate with tests is proved a second time together
//! with them. This crate has nothing else.
#![tactic(auto)]

#[cfg(test)]
mod tests;
