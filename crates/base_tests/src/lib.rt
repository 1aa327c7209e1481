//! Tests of the crates below the trees: words, held blocks, block forms and slots.
//!
//! They are in a crate above those, since a crate with tests is proved a second time together with
//! them. This crate has nothing else.
#![tactic(auto)]

#[cfg(test)]
mod tests;
