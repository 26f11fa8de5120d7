//! The values of all signals on each code.

ghost use Rattle.std.specs.Prelude.{◌≡◌, ◌+◌, ◌<◌, ◌≤◌, false, length, slice_index_or, IfOk};
ghost use Rattle.cpog_defs.specs.Gates.{signal_count, signal_values};
ghost use Rattle.gate_template.specs.Listed.{listed};
ghost use Rattle.gate_template.specs.Values.{code_of};

use crate::whole::Whole;
use cpog_base::Memory;
use gate_core::GateList;
use std::alloc::Global;
use std::marker::Model;

/// The values of signals.
#[derive(Debug, Drop)]
pub(crate) struct Row {
    values: Vec<bool>,
}

impl Model for Row {
    ghost use Rattle.std.specs.Prelude.{Bool, List};

    ghost Value = { List Bool };

    ghost view = { λ r. r.values.items };
}

impl Row {
    /// The values of all signals on a word.
    fn of(alloc: Global, gates: &GateList, word: u8) -> Result<Row, Memory>
        ensures { IfOk result (λ row. row ≡ signal_values gates.now word) }
    {
        let count = usize::from(gates.inputs()) + gates.len() as usize;
        let mut values = vec![in alloc; false; count]?;
        gates.eval(word, &mut values);
        Ok(Row { values })
    }

    /// The value of a signal.
    pub(crate) fn get(&self, n: u32) -> bool
        requires { n < length self.now }
        ensures { result ≡ slice_index_or self.now n false }
    {
        self.values[n as usize]
    }
}

/// The values of all signals on each code.
pub(crate) fn signal_rows(alloc: Global, whole: &Whole, scenarios: u32) -> Result<Vec<Row>, Memory>
    requires { length whole.now.codes ≡ scenarios }
    ensures { IfOk result (λ rows. rows.items ≡ listed
        (λ s. signal_values whole.now.gates (code_of whole.now s)) scenarios) }
{
    let mut rows = Vec::new(alloc);
    for s in 0..scenarios {
        rows.push(Row::of(alloc, whole.gates(), whole.code(s))?)?;
    }
    Ok(rows)
}
