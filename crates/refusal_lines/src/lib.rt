//! Why nothing is made of an input, and the one line that says it.
//!
//! A refusal has a variant for each cause, and `refusal_line` is promised to give exactly its line. The making of an answer
//! stops with such an answer or with want of memory. Below it stands `cpog_base`.
#![tactic(auto)]

mod refusal;
mod stop;

pub use refusal::{Refusal, refusal_line};
pub use stop::{Answer, Stop, refuse};
