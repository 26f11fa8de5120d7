//! Gates in other forms that keep the values of references: normal gates, which are 0 where both of their signals are,
//! as many gates as are asked for, and gates over words that are combined with a mask. It stands on the gate lists of
//! `gate_core`. What each form keeps is promised on every word, and for the whole list of references.
#![tactic(auto)]

mod forms;
mod signs;
mod tables;
#[cfg(test)]
mod tests;

pub use forms::{Flipped, flip, normalise, pad};
