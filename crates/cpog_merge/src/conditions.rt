//! The conditional graph of which each condition is that of the class to which the column of its place belongs.
ghost use Rattle.std.specs.Prelude.{◌≡◌, ◌≢◌, ◌<◌, true, ℕ, length, IfOk};
ghost use Rattle.cpog_defs.specs.declared.types.Place.TheVariants.{Op, Arc};
ghost use Rattle.std.specs.List.{All};
ghost use Rattle.cpog_defs.specs.Gates.{IsRefOver};
ghost use Rattle.cpog_defs.specs.Graphs.{IsPlace, IsGraph, op_ref, arc_ref};
ghost use Rattle.cpog_merge.specs.ByClass.{signed_ref, condition_at, graph_by_class, IsGraphByClass, HaveReferences};

use crate::class_list::{Belongs, ClassList};
use cpog_base::{Memory, OpId};
use cpog_defs::types::Place;
use gate_core::{ConditionalGraph, Ref};
use std::alloc::Global;

/// The complement of a reference.
fn complement(reference: Ref) -> Ref
    ensures { result ≡ signed_ref true reference }
{
    match reference {
        Ref::Const(value) => Ref::Const(!value),
        Ref::Signal { number, negated } => Ref::Signal {
            number,
            negated: !negated,
        },
    }
}

/// The condition of a place: the reference that its column takes by what it belongs to.
fn condition_at(list: &ClassList, refs: &[Ref], p: Place) -> Ref
    requires place { IsPlace list.now.count p }
    requires refs { HaveReferences list.now refs.now }
    ensures { result ≡ condition_at list.now refs.now p }
{
    match list.belongs(p) {
        Belongs::Const(value) => Ref::Const(value),
        Belongs::Class {
            number,
            negated: false,
        } => refs[number as usize],
        Belongs::Class {
            number,
            negated: true,
        } => complement(refs[number as usize]),
    }
}

/// Gives each operation its condition.
fn set_operations(graph: &mut ConditionalGraph, list: &ClassList, refs: &[Ref])
    requires count { length graph.old.ops ≡ list.now.count }
    requires refs { HaveReferences list.now refs.now }
    ensures count { length graph.new.ops ≡ list.now.count }
    ensures ops { (v : ℕ) → v < list.now.count → op_ref graph.new v ≡ condition_at list.now refs.now (Op (record { 0 = v })) }
{
    for v in 0..graph.count() {
        graph.set_op(OpId(v), condition_at(list, refs, Place::Op(OpId(v))));
    }
}

/// Gives each pair with this first operation its condition.
fn set_arcs_from(graph: &mut ConditionalGraph, list: &ClassList, refs: &[Ref], u: OpId)
    requires count { length graph.old.ops ≡ list.now.count }
    requires below { u.0 < list.now.count }
    requires refs { HaveReferences list.now refs.now }
    ensures ops { graph.new.ops ≡ graph.old.ops }
    ensures row { (v : ℕ) → v < list.now.count → u.0 ≢ v → arc_ref graph.new u.0 v ≡ condition_at list.now refs.now (Arc u (record { 0 = v })) }
    ensures others { (a b : ℕ) → a ≢ u.0 → arc_ref graph.new a b ≡ arc_ref graph.old a b }
{
    for v in 0..graph.count() {
        if v != u.0 {
            graph.set_arc(u, OpId(v), condition_at(list, refs, Place::Arc(u, OpId(v))));
        }
    }
}

/// The graph of as many operations as the columns of the classes have, in which each condition is the reference that the
/// column of its place takes by what it belongs to.
///
/// # Errors
///
/// `Memory` where none is left.
pub fn graph_by_class(
    alloc: Global,
    list: &ClassList,
    refs: &[Ref],
) -> Result<ConditionalGraph, Memory>
    requires { HaveReferences list.now refs.now }
    ensures value { IfOk result (λ graph. graph ≡ graph_by_class list.now refs.now) }
    ensures conditions { IfOk result (IsGraphByClass list.now.count list.now refs.now) }
    ensures graph { IfOk result (λ graph. (signals : ℕ) → All (IsRefOver signals) refs.now → IsGraph list.now.count signals graph) }
{
    let count = list.operations();
    let mut graph = ConditionalGraph::new(alloc, count)?;
    set_operations(&mut graph, list, refs);
    for u in 0..count {
        set_arcs_from(&mut graph, list, refs, OpId(u));
    }
    // That no condition is missing is known once their count is read.
    let _count = graph.count();
    Ok(graph)
}
