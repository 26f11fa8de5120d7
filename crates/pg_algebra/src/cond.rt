//! A condition is a tree whose leaves are bits and parameters. Of conditions that are written in a row, one list is
//! made: a row of `&` is one `And`, and a row of `|` is one `Or`.
ghost use Rattle.std.specs.Prelude.{◌≡◌, ◌≤◌, length};

use cpog_base::Name;
use sqlite_items::{Boxed as Box, Items};

/// A condition over named parameters.
#[derive(Drop)]
#[cycle(cond)]
pub enum Cond {
    /// True or false whatever the parameters are.
    Bit(bool),
    /// True where this parameter is 1.
    Param(Name),
    /// True where the condition is false, written with `!`.
    Not(Box<Cond>),
    /// True where each of the list is, written with `&`.
    And(CondList),
    /// True where one of the list is, written with `|`.
    Or(CondList),
}

/// The conditions that are joined: at least two.
#[derive(Drop)]
#[cycle(cond)]
pub struct CondList {
    members: Items<Cond>,
}

impl CondList {
    /// The list of these conditions.
    pub fn new(members: Vec<Cond>) -> CondList
        requires { 2 ≤ length members.items }
        ensures { result.members ≡ members.items }
    {
        CondList {
            members: Items::from_vec(members),
        }
    }

    /// Its conditions, in the order in which they are written.
    pub fn members(&self) -> &[Cond]
        ensures { result.now ≡ self.now.members }
    {
        self.members.as_slice()
    }
}
