//! The formula that asks whether scenarios have an encoding of at most so many gates: its variables by name, its
//! clauses family by family, and the values that codes, gates and references give to the variables. The clauses of
//! `clause_arena`, the gate lists of `gate_core` and `gate_forms` and the classes of `cpog_merge` stand below. It has
//! definitions and laws alone; `cnf_build` makes the formulas. It promises that a template is satisfiable exactly where
//! there is such an encoding, that the variable of each literal is one of the template's, and how large a template is.
#![tactic(auto)]

mod laws;
pub mod types;

pub use laws::{
    flipped_solutions_have_zeros, refuted_templates_bound, second_is_third_with_open_bits,
    template_is_counted, template_is_within, template_lifts, variables_are_few,
};
pub use types::{Shape, Template};
