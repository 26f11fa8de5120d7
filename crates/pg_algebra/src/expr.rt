//! An expression is a tree whose leaves are operations and earlier graphs. Of graphs that are written in a row, one
//! list is made: a row of overlays is one `Overlay`, and a row of arrows is one `Sequence`.
ghost use Rattle.std.specs.Prelude.{◌≡◌, ◌≤◌, length};

use crate::Cond;
use cpog_base::Name;
use sqlite_items::{Boxed as Box, Items};

/// A parameterised graph over numbered operations (Mokhov and Khomenko 2014).
#[derive(Drop)]
#[cycle(expr)]
pub enum Expr {
    /// The graph without an operation.
    Empty,
    /// One operation, by its number.
    Op(u32),
    /// The earlier graph of this name.
    Graph(Name),
    /// The graph where the condition is true, else the empty one.
    When(Box<Cond>, Box<Expr>),
    /// All graphs of the list side by side, written with `+`.
    Overlay(ExprList),
    /// All graphs of the list, and arcs from each to the later ones, written with `->`.
    Sequence(ExprList),
}

/// The graphs that are joined: at least two.
#[derive(Drop)]
#[cycle(expr)]
pub struct ExprList {
    members: Items<Expr>,
}

impl ExprList {
    /// The list of these graphs.
    pub fn new(members: Vec<Expr>) -> ExprList
        requires { 2 ≤ length members.items }
        ensures { result.members ≡ members.items }
    {
        ExprList {
            members: Items::from_vec(members),
        }
    }

    /// Its graphs, in the order in which they are written.
    pub fn members(&self) -> &[Expr]
        ensures { result.now ≡ self.now.members }
    {
        self.members.as_slice()
    }
}
