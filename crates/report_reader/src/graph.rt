//! A conditional graph from the conditions of operations and of arcs.
ghost use Rattle.std.specs.Prelude.{◌≡◌, ◌≢◌, ◌<◌, ◌≤◌, length, IfOk};
ghost use Rattle.std.specs.List.{AllByRecursion};
ghost use Rattle.report_reader.specs.Entries.{EndsFit, arcs_set, graph_from};

use crate::gates::ArcLine;
use cpog_base::{Memory, OpId};
use cpog_defs::types::Ref;
use gate_core::ConditionalGraph;
use std::alloc::Global;

/// Gives each operation its condition.
fn set_ops(graph: &mut ConditionalGraph, ops: &[Ref])
    requires few { length ops.now ≤ 128 }
    requires count { length graph.old.ops ≡ length ops.now }
    ensures { graph.new ≡ record graph.old { ops = ops.now } }
{
    for v in 0..ops.len() {
        graph.set_op(OpId(v as u8), ops[v]);
    }
}

/// Gives the pairs these conditions, the last first.
fn set_arcs(graph: &mut ConditionalGraph, arcs: &[ArcLine])
    requires { AllByRecursion (EndsFit (length graph.old.ops)) arcs.now }
    ensures { graph.new ≡ record graph.old { arcs = arcs_set graph.old.arcs arcs.now } }
{
    let mut left = arcs.len();
    while left > 0 {
        left -= 1;
        let arc = arcs[left];
        graph.set_arc(OpId(arc.first), OpId(arc.second), arc.condition);
    }
}

/// The graph with these conditions.
pub fn graph_of(
    alloc: Global,
    count: u8,
    ops: &[Ref],
    arcs: &[ArcLine],
) -> Result<ConditionalGraph, Memory>
    requires few { count ≤ 128 }
    requires ops { length ops.now ≡ count }
    requires arcs { AllByRecursion (EndsFit count) arcs.now }
    ensures { IfOk result (λ graph. graph ≡ graph_from count ops.now arcs.now) }
{
    let mut graph = ConditionalGraph::new(alloc, count)?;
    set_arcs(&mut graph, arcs);
    set_ops(&mut graph, ops);
    Ok(graph)
}
