//! Trees by hand, and random changes of one.
//!
//! Tests by hand are rows of text (`script.rt`): what is done, and the answer to each step.
mod answers;
mod bench;
mod blocks;
mod changes;
mod copies;
mod damage;
mod depths;
mod differences;
mod lengths;
mod marks;
mod parts;
mod places;
mod random;
mod reads;
mod records;
mod removals;
mod script;
mod splits;
mod verification;
mod walked_differences;
mod walks;
mod words;
