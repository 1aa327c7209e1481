//! Answers to lines: the text of an answer, how it is made, and how it is written.

pub mod listing;
pub mod lists;
pub mod mistakes;
pub mod output;
pub mod repeated;
pub mod reply;
pub mod text;
