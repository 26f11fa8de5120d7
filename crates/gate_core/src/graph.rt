ghost use Rattle.std.specs.Prelude.{◌≡◌, ◌≢◌, ◌<◌, ◌≤◌, false, [], length, replicate, slice_index_or, slice_set, IfOk};
ghost use Rattle.cpog_defs.specs.declared.types.Ref.TheVariants.{Const};
ghost use Rattle.cpog_defs.specs.Graphs.{op_ref, arc_ref};
ghost use Rattle.gate_core.specs.Square.{IsSquare};

use cpog_base::{Memory, OpId};
use cpog_defs::types::Ref;
use std::alloc::Global;
use std::marker::Model;

/// A conditional partial order graph (Mokhov and Yakovlev 2010): a condition for each of at most 128 operations, and
/// one for each ordered pair of different operations.
#[derive(Debug, Drop)]
pub struct ConditionalGraph {
    ops: Vec<Ref>,
    arcs: Vec<Vec<Ref>>,
}

impl Model for ConditionalGraph {
    ghost use Rattle.std.specs.Prelude.{map};
    ghost use Rattle.cpog_defs.specs.Graphs as graphs;
    ghost use Rattle.gate_core.specs.Square.{IsSquare};

    ghost Value = { graphs.ConditionalGraph };

    ghost view = { λ g. record { ops = g.ops.items; arcs = map (λ row. row.items) g.arcs.items } };

    ghost invariant = { λ g. IsSquare (record { ops = g.ops.items; arcs = map (λ row. row.items) g.arcs.items }) };
}

impl ConditionalGraph {
    /// The graph of so many operations in which every condition is the constant 0.
    ///
    /// # Errors
    ///
    /// `Memory` where none is left.
    pub fn new(alloc: Global, count: u8) -> Result<ConditionalGraph, Memory>
        requires { count ≤ 128 }
        ensures { IfOk result (λ graph. graph ≡ record { ops = replicate count (Const false); arcs = replicate count (replicate count (Const false)) }) }
    {
        let ops = row_of_zeros(alloc, count)?;
        let mut arcs = Vec::with_capacity(alloc, usize::from(count))?;
        for _u in 0..count {
            arcs.push(row_of_zeros(alloc, count)?)?;
        }
        Ok(ConditionalGraph { ops, arcs })
    }

    /// How many operations there are.
    pub fn count(&self) -> u8
        ensures count { result ≡ length self.now.ops }
        ensures square { IsSquare self.now }
    {
        self.ops.len() as u8
    }

    /// The condition of an operation.
    pub fn op(&self, v: OpId) -> Ref
        requires { v.0 < length self.now.ops }
        ensures { result ≡ op_ref self.now v.0 }
    {
        self.ops[usize::from(v.0)]
    }

    /// The condition of the pair from `u` to `v`.
    pub fn arc(&self, u: OpId, v: OpId) -> Ref
        requires first { u.0 < length self.now.ops }
        requires second { v.0 < length self.now.ops }
        ensures { result ≡ arc_ref self.now u.0 v.0 }
    {
        let row = &self.arcs[u.0 as usize];
        row[v.0 as usize]
    }

    /// Gives an operation this condition.
    pub fn set_op(&mut self, v: OpId, r: Ref)
        requires { v.0 < length self.old.ops }
        ensures { self.new ≡ record self.old { ops = slice_set self.old.ops v.0 r } }
    {
        self.ops[v.0 as usize] = r;
    }

    /// Gives the pair from `u` to `v` this condition.
    pub fn set_arc(&mut self, u: OpId, v: OpId, r: Ref)
        requires first { u.0 < length self.old.ops }
        requires second { v.0 < length self.old.ops }
        requires differ { u.0 ≢ v.0 }
        ensures { self.new ≡ record self.old { arcs = slice_set self.old.arcs u.0 (slice_set (slice_index_or self.old.arcs u.0 []) v.0 r) } }
    {
        self.arcs[u.0 as usize][v.0 as usize] = r;
    }
}

/// So many conditions that are the constant 0.
fn row_of_zeros(alloc: Global, count: u8) -> Result<Vec<Ref>, Memory>
    ensures { IfOk result (λ row. row.items ≡ replicate count (Const false)) }
{
    Ok(vec![in alloc; Ref::Const(false); usize::from(count)]?)
}
