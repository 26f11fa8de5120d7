//! What the lines before have stated.
ghost use Rattle.std.specs.Prelude.{◌≡◌, ◌++◌, ◌∷◌, [], false, IfOk};
ghost use Rattle.std.specs.Option.{option_copied};
ghost use Rattle.cpog_base.specs.Names.{has_text};
ghost use Rattle.pg_normal.specs.Known.{tables_named};

use crate::Tables;
use cpog_base::{Memory, Names};
use sqlite_items::Items;
use std::alloc::Global;

/// The parameters, and the graphs with their tables.
#[derive(Drop)]
pub(crate) struct Known {
    pub(crate) params: Names,
    pub(crate) graphs: Names,
    pub(crate) tables: Items<Tables>,
}

impl Known {
    /// These parameters, and no graph.
    pub(crate) fn new(alloc: Global, params: Names) -> Known
        ensures { result ≡ record { params = params; graphs = []; tables = [] } }
    {
        Known {
            params,
            graphs: Names::new(alloc),
            tables: Items::new(alloc),
        }
    }

    /// The tables of a graph.
    pub(crate) fn find(&self, name: &str) -> Option<&Tables>
        ensures { option_copied result ≡ tables_named self.now name.now }
    {
        let place = self.graphs.find(name)?;
        self.tables.get(place as usize)
    }

    /// With the tables of one more graph, under a new name.
    pub(crate) fn push(self, name: &str, more: Tables) -> Result<Known, Memory>
        requires { has_text self.graphs name.now ≡ false }
        ensures { IfOk result (λ known. known ≡ record { params = self.params; graphs = self.graphs ++ name.now ∷ []; tables = self.tables ++ more ∷ [] }) }
    {
        let Known {
            params,
            mut graphs,
            mut tables,
        } = self;
        if graphs.len() == u32::MAX {
            return Err(Memory);
        }
        graphs.insert(name)?;
        tables.push(more)?;
        Ok(Known {
            params,
            graphs,
            tables,
        })
    }
}
