//! Hostile use of the store: the device fails or stops at each of its calls, and each block of a
//! disk holds what no store wrote.
//!
//! The tests are in a crate above the store, since a crate with tests is proved a second time
//! together with them. This crate has nothing else.
#![tactic(auto)]

#[cfg(test)]
mod tests;
