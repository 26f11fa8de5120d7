//! Parameterised graphs (Mokhov and Khomenko, Algebra of Parameterised Graphs, 2014): the trees of conditions over named
//! parameters (`cond`), the trees of graphs over numbered operations (`expr`), and the values of a condition under all
//! valuations of six parameters (`table`, `tabling`). It stands above the base types and below the reader of the graph
//! text and everything that gives a tree a meaning. It promises that a list keeps its members, that graphs obey the laws
//! of the algebra, and that a table has the condition's value under each valuation.
#![tactic(auto)]

mod cond;
mod expr;
mod laws;
mod table;
mod tabling;
#[cfg(test)]
mod tests;

pub use cond::{Cond, CondList};
pub use expr::{Expr, ExprList};
pub use laws::{
    algebra_of_graphs, graphs_of_expressions, valuations_are_numbered, values_of_conditions,
};
pub use table::Table;
pub use tabling::table_of;
