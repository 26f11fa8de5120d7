//! Texts of lines with free spacing: words stand between blanks and tabs, and one carriage return before a line feed is
//! dropped.
//!
//! What a line, a word and a number in decimal digits are is defined here, and which line is the first bad one of any
//! text of lines. The readers take words in place, and tell exactly whether the first word is a number or a given
//! one. The crate names no format. Below it stand `line_text` and the kit's `memchr`.
#![tactic(auto)]

mod laws;
mod lines;
mod words;

pub use laws::{lines_are_read, words_are_read};
pub use lines::next_free_line;
pub use words::{after_word, is_blank, number, signed, whole_number};
