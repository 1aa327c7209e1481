//! Tests of trees in blocks and of the walks over them, and random changes of one tree, compared
//! with a sorted map of the same records.
//!
//! It stands on the crates of trees, since a crate with tests is proved a second time together with
//! them. It has nothing else.
#![tactic(auto)]

#[cfg(test)]
mod tests;
