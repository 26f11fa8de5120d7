//! The columns of a list of scenarios: what they ask of the condition of each operation and of each pair; and the
//! classes of these columns, which alone need a condition of their own. The orders of `cpog_base`, their covering pairs
//! of `order_reduce` and the definitions of `cpog_defs` stand below. It promises that each column is the one that is
//! defined, that an encoding fits the scenarios exactly where each of its conditions agrees with its column, that the
//! classes are exactly those that are defined, and that a graph agrees with all columns where its conditions are made of
//! references that serve the classes, and only where its own conditions serve them. Classes that need different signals
//! are counted, and it promises that this bounds the gates of every encoding from below.
#![tactic(auto)]

mod choosing;
mod class_list;
mod columns;
mod conditions;
mod counting;
mod filling;
mod laws;
mod serving;
#[cfg(test)]
mod tests;

pub use choosing::classes;
pub use class_list::{Belongs, ClassList};
pub use columns::Columns;
pub use conditions::graph_by_class;
pub use counting::{incompatible, incompatible_set};
pub use cpog_defs::types::Place;
pub use filling::merge;
pub use laws::{
    belongs_to_one, classes_are_one, classes_are_open, count_bounds, fits_is_agreeing,
    fits_is_fitting_scenarios, graph_by_class_agrees, graph_by_class_is_graph,
    graph_serves_classes, incompatible_sets_are_evidence, incompatible_sets_are_one,
    joining_is_bounded, one_graph_by_class, references_stay, same_columns_same_classes,
    served_agree, smaller_sets_are_few,
};
