//! The names of a file are found once, and handed on to what makes, writes and reports its forms.
ghost use Rattle.std.specs.Prelude.{◌≡◌};

use cpog_base::Names;

/// The names that a file defines, by their kinds, in the order of their definitions.
#[derive(Drop)]
pub struct Scope {
    pub(crate) params: Names,
    pub(crate) graphs: Names,
    pub(crate) scenarios: Names,
}

impl Scope {
    /// The parameters, by their numbers.
    pub fn params(&self) -> &Names
        ensures { result.now ≡ self.now.params }
    {
        &self.params
    }

    /// The scenarios, by their numbers.
    pub fn scenarios(&self) -> &Names
        ensures { result.now ≡ self.now.scenarios }
    {
        &self.scenarios
    }

    /// Gives up the other names and hands out those of the scenarios.
    pub fn into_scenarios(self) -> Names
        ensures { result ≡ self.scenarios }
    {
        let Scope {
            params: _,
            graphs: _,
            scenarios,
        } = self;
        scenarios
    }
}
