//! Texts of lines and words: what a line and a name are, and how each is found in bytes.
//!
//! A text is written as a list of lines, `text_of`, and read line by line, `lines_of`; lines that hold no line feed are
//! read as they were written. The crate names no type of the formats that are made of such lines. Nothing stands
//! below it.
#![tactic(auto)]

mod laws;
mod lines;
mod words;

pub use laws::{lines_are_read, numbers_are_told};
pub use lines::{first_place, next_line};
pub use words::{continues_name, is_free_name, is_keyword, is_name};
