//! Two-input gates over the bits of a code, conditional graphs whose conditions are signals of these gates, and
//! encodings, which join both with a code for each scenario. It stands on the values of `cpog_base` and the
//! definitions of `cpog_defs`. Each type keeps what makes it meaningful (a gate reads earlier signals, a graph is
//! square, a condition speaks of a signal that is there), and `GateList::eval` is promised to give exactly the
//! signals' values on a word. `first_encode` makes an encoding of columns without a search, and is promised to answer
//! exactly the first encoding that is defined, with a bound on its gates.
#![tactic(auto)]

mod codes;
mod encoding;
mod first;
mod gate_list;
mod graph;
mod laws;
#[cfg(test)]
mod tests;

pub use codes::{CodesFault, free_patterns, least_codes};
pub use cpog_defs::types::{Gate, Ref};
pub use encoding::Encoding;
pub use first::{COLUMN_LIMIT, FirstEncoding, column_limit_is_this, first_encode};
pub use gate_list::GateList;
pub use graph::ConditionalGraph;
pub use laws::{
    agreeing_are_codes, first_encodings_agree, gate_signal, given_bits_may_be_left, input_signal,
    least_codes_agree, open_codes_are_numbers, signals_are_counted,
};
