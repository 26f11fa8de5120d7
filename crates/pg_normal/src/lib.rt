//! Normal forms of parameterised graphs (Mokhov and Khomenko, Algebra of Parameterised Graphs, 2014): the operations and
//! arcs of an expression, each with a table of the valuations under which it occurs (`form`). A form is made of tables
//! for all operations and pairs by their numbers (`row`, `tables`, `adding`, `appearance`, `making`), which the graphs of
//! earlier lines keep (`known`), and is written as a sum of its terms, each behind its condition (`writing`). The names
//! of a file are checked and found once (`naming`, `scope`). Over them its forms are made statement by statement
//! (`listing`), each with the bindings of its statement (`binding`) and where it comes from (`normal`), and written a
//! line for each (`lines`). A form gives a scenario where the bindings leave no choice (`instances`), and the forms of a
//! file give its scenarios (`denoting`). It stands above `pg_text` and below what makes orders of scenarios. It promises
//! that a form is the expression's graph under every valuation, with the operations in the order of their first
//! appearance, that a scenario is the graph under every valuation that agrees with its bindings, that the text of a form
//! is the one of its vertices, arcs and tables, that the forms of a file are those of its graphs and scenarios where its
//! names are in order and otherwise the first fault is told, that the scenarios of a file are those that it states or
//! else the first is told that leaves a parameter open, and that a file has one text of forms (`laws`).
#![tactic(auto)]

mod adding;
mod appearance;
mod binding;
mod denoting;
mod form;
mod instances;
mod known;
mod laws;
mod lines;
mod listing;
mod making;
mod naming;
mod normal;
mod row;
mod scope;
mod tables;
#[cfg(test)]
mod tests;
mod writing;

pub(crate) use appearance::Appearance;
pub use binding::Partial;
pub use denoting::{DenotingFault, scenarios_of};
pub use form::NormalForm;
pub use instances::{InstanceFault, instance};
pub(crate) use known::Known;
pub use laws::{forms_have_no_fault, one_name_fault, one_normal_text};
pub use lines::{write_forms, write_normal};
pub use listing::{forms_in, normals};
pub(crate) use making::{form_of, with_graph};
pub use naming::{NameFault, scope_of};
pub use normal::{Kind, Normal, NormalList, Origin};
pub(crate) use row::Row;
pub use scope::Scope;
pub(crate) use tables::Tables;
pub use writing::write_form;
