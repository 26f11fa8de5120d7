ghost use Rattle.std.specs.Prelude.{◌≡◌};

use cpog_base::Name;
use pg_algebra::Expr;
use sqlite_items::Items;
use std::marker::Model;

/// Names in a row.
#[derive(Drop)]
pub struct NameList {
    names: Items<Name>,
}

impl Model for NameList {
    ghost use Rattle.std.specs.Prelude.{List, ℕ};

    ghost Value = { List (List ℕ) };

    ghost view = { λ l. l.names };
}

impl NameList {
    pub(crate) fn new(mut names: Vec<Name>) -> NameList
        ensures { result ≡ names.items }
    {
        names.shrink_to_fit();
        NameList {
            names: Items::from_vec(names),
        }
    }

    /// The names, in the order in which they are written.
    pub fn as_slice(&self) -> &[Name]
        ensures { result.now ≡ self.now }
    {
        self.names.as_slice()
    }
}

/// Parameters with their bits.
#[derive(Drop)]
pub struct Bindings {
    bits: Items<(Name, bool)>,
}

impl Model for Bindings {
    ghost use Rattle.std.specs.Prelude.{List, ℕ, Bool};

    ghost Value = { List (List ℕ × Bool) };

    ghost view = { λ b. b.bits };
}

impl Bindings {
    pub(crate) fn new(mut bits: Vec<(Name, bool)>) -> Bindings
        ensures { result ≡ bits.items }
    {
        bits.shrink_to_fit();
        Bindings {
            bits: Items::from_vec(bits),
        }
    }

    /// The parameters with their bits, in the order in which they are written.
    pub fn as_slice(&self) -> &[(Name, bool)]
        ensures { result.now ≡ self.now }
    {
        self.bits.as_slice()
    }
}

/// What a line of the graph text states.
#[derive(Drop)]
pub enum Statement {
    /// Parameters: their names.
    Params {
        names: NameList,
    },
    /// A graph that later lines may refer to: its name, and what it is.
    Graph {
        name: Name,
        expr: Expr,
    },
    /// A scenario: its name, the graph of its operations, and the bits of parameters that it fixes.
    Scenario {
        name: Name,
        expr: Expr,
        bindings: Bindings,
    },
}

/// A statement and the number of its line, from 1.
#[derive(Drop)]
pub struct Numbered {
    pub line: u32,
    pub statement: Statement,
}
