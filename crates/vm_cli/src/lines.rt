//! Lines as they are read: their bytes, their words, and what the words say.

pub mod arguments;
pub mod command;
pub mod escape;
pub mod line;
pub mod list_query;
pub mod mistake;
pub mod number;
pub mod pieces;
pub mod request;
pub mod settlement;
pub mod versions;
