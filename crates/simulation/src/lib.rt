//! Random sessions on the store over a memory disk and on the plain model, compared after each
//! command, with crashes at random moments, and scripts with a fault or a crash at each device
//! call.
//!
//! They are at the top, on the store and the plain model, since a crate with tests is proved a
//! second time together with them. This crate has nothing else.
#![tactic(auto)]

#[cfg(test)]
mod tests;
