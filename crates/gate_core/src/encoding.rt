ghost use Rattle.std.specs.Prelude.{◌≡◌, ◌^◌, ◌≤◌, length};
ghost use Rattle.cpog_defs.specs.Encodings.{IsEncoding};

use crate::{ConditionalGraph, GateList};
use cpog_base::BIT_LIMIT;
use sqlite_items::Items;
use std::marker::Model;

/// A code for each of at most 256 scenarios, gates over the bits of these codes, and a conditional graph whose
/// conditions are constants or speak of the gates' signals.
#[derive(Debug, Drop)]
pub struct Encoding {
    codes: Items<u8>,
    gates: GateList,
    graph: ConditionalGraph,
}

impl Model for Encoding {
    ghost use Rattle.std.specs.Prelude.{◌^◌, ◌≤◌, length};
    ghost use Rattle.cpog_base.specs.declared.limits.TheConstants.{BIT_LIMIT};
    ghost use Rattle.cpog_defs.specs.Encodings as encodings;

    ghost Value = { encodings.Encoding };

    ghost view = { λ e. record { codes = e.codes; gates = e.gates; graph = e.graph } };

    ghost invariant = { λ e. (length e.codes ≤ 2 ^ BIT_LIMIT) × (length e.graph.ops ≤ 128) × encodings.IsEncoding (length e.graph.ops) (record { codes = e.codes; gates = e.gates; graph = e.graph }) };
}

impl Encoding {
    /// These codes, gates and conditions together.
    pub fn new(codes: Vec<u8>, gates: GateList, graph: ConditionalGraph) -> Encoding
        requires few { length codes.items ≤ 2 ^ BIT_LIMIT }
        requires few_ops { length graph.ops ≤ 128 }
        requires encoding { IsEncoding (length graph.ops) (record { codes = codes.items; gates = gates; graph = graph }) }
        ensures { result ≡ record { codes = codes.items; gates = gates; graph = graph } }
    {
        Encoding {
            codes: Items::from_vec(codes),
            gates,
            graph,
        }
    }

    /// The codes, by the scenarios' numbers.
    pub fn codes(&self) -> &[u8]
        ensures codes { result.now ≡ self.now.codes }
        ensures few { length self.now.codes ≤ 2 ^ BIT_LIMIT }
        ensures encoding { IsEncoding (length self.now.graph.ops) self.now }
    {
        self.codes.as_slice()
    }

    /// The gates over the codes' bits.
    pub fn gates(&self) -> &GateList
        ensures gates { result.now ≡ self.now.gates }
        ensures encoding { IsEncoding (length self.now.graph.ops) self.now }
    {
        &self.gates
    }

    /// The conditions.
    pub fn graph(&self) -> &ConditionalGraph
        ensures graph { result.now ≡ self.now.graph }
        ensures few { length self.now.graph.ops ≤ 128 }
        ensures encoding { IsEncoding (length self.now.graph.ops) self.now }
    {
        &self.graph
    }
}
