//! A pair's column is filled from the sets of operations that the orders keep for the pair's second: those that it
//! covers and those before it. So each entry is a few steps on words.
ghost use Rattle.std.specs.Prelude.{◌≡◌, ◌<◌, ◌≤◌, ◌↔◌, ◌++◌, length, IfOk, OnOk};
ghost use Rattle.std.specs.List.{All};
ghost use Rattle.cpog_defs.specs.declared.types.Place.TheVariants.{Op, Arc};
ghost use Rattle.cpog_defs.specs.Orders.{IsOrderOf};
ghost use Rattle.cpog_defs.specs.Columns.{op_entry, arc_entry, column};
ghost use Rattle.cpog_defs.specs.Encodings.{Encoding, IsEncoding, Fits};
ghost use Rattle.cpog_merge.specs.Columns.{count_of, AreColumnsOf, AgreesWith};
ghost use Rattle.cpog_merge.specs.Filling.{op_columns_of, arc_columns_into, arc_columns_of};

use crate::Columns;
use cpog_base::{Bit3, Column, Memory, OpId, SCENARIO_LIMIT, ScenId};
use order_reduce::CoveredOrder;
use std::alloc::Global;

/// What a scenario asks of an operation's condition.
fn entry_of_op(order: &CoveredOrder, v: OpId) -> Bit3
    ensures { result ≡ op_entry v.0 order.now }
{
    if order.as_order().ops().contains(v) {
        Bit3::One
    } else {
        Bit3::Zero
    }
}

/// What a scenario asks of a pair's condition.
fn entry_of_arc(order: &CoveredOrder, u: OpId, v: OpId) -> Bit3
    requires { v.0 < order.now.count }
    ensures { result ≡ arc_entry u.0 v.0 order.now }
{
    let ops = order.as_order().ops();
    if !ops.contains(u) || !ops.contains(v) {
        Bit3::Free
    } else if order.covered_by(v).contains(u) {
        Bit3::One
    } else if order.as_order().before(v).contains(u) {
        Bit3::Free
    } else {
        Bit3::Zero
    }
}

fn op_column(orders: &[CoveredOrder], v: OpId) -> Column
    requires { length orders.now ≤ SCENARIO_LIMIT }
    ensures { result ≡ column orders.now (Op v) }
{
    let mut column = Column::new(orders.len() as u8);
    for s in 0..orders.len() as u8 {
        column.set(ScenId(s), entry_of_op(&orders[s as usize], v));
    }
    column
}

fn arc_column(orders: &[CoveredOrder], u: OpId, v: OpId) -> Column
    requires few { length orders.now ≤ SCENARIO_LIMIT }
    requires below { All (λ o. v.0 < o.count) orders.now }
    ensures { result ≡ column orders.now (Arc u v) }
{
    let mut column = Column::new(orders.len() as u8);
    for s in 0..orders.len() as u8 {
        column.set(ScenId(s), entry_of_arc(&orders[s as usize], u, v));
    }
    column
}

fn op_columns(alloc: Global, orders: &[CoveredOrder], count: u8) -> Result<Vec<Column>, Memory>
    requires { length orders.now ≤ SCENARIO_LIMIT }
    ensures { IfOk result (λ columns. columns.items ≡ op_columns_of orders.now count) }
{
    let mut columns = Vec::new(alloc);
    for v in 0..count {
        columns.push(op_column(orders, OpId(v)))?;
    }
    Ok(columns)
}

/// Appends the columns of the pairs into v, by their first.
fn push_arcs_into(
    columns: &mut Vec<Column>,
    orders: &[CoveredOrder],
    count: u8,
    v: OpId,
) -> Result<(), Memory>
    requires few { length orders.now ≤ SCENARIO_LIMIT }
    requires below { All (λ o. v.0 < o.count) orders.now }
    ensures { OnOk result (columns.new.items ≡ columns.old.items ++ arc_columns_into orders.now count v.0) }
{
    for u in 0..count {
        columns.push(arc_column(orders, OpId(u), v))?;
    }
    Ok(())
}

fn arc_columns(alloc: Global, orders: &[CoveredOrder], count: u8) -> Result<Vec<Column>, Memory>
    requires few { length orders.now ≤ SCENARIO_LIMIT }
    requires alike { All (λ o. o.count ≡ count) orders.now }
    ensures { IfOk result (λ columns. columns.items ≡ arc_columns_of orders.now count count) }
{
    let mut columns = Vec::new(alloc);
    for v in 0..count {
        push_arcs_into(&mut columns, orders, count, OpId(v))?;
    }
    Ok(columns)
}

/// The columns of some scenarios: for each operation, and for each ordered pair of them, what each scenario asks of its
/// condition.
///
/// # Errors
///
/// `Memory` where none is left.
pub fn merge(alloc: Global, orders: &[CoveredOrder]) -> Result<Columns, Memory>
    requires some { 0 < length orders.now }
    requires few { length orders.now ≤ SCENARIO_LIMIT }
    requires alike { All (IsOrderOf (count_of orders.now)) orders.now }
    ensures columns { IfOk result (AreColumnsOf orders.now) }

    // An encoding fits the scenarios exactly where its conditions agree with the columns of the result.
    ensures fits { IfOk result (λ t. (e : Encoding) → IsEncoding (count_of orders.now) e → Fits e orders.now ↔ AgreesWith e t) }
{
    let count = orders[0].as_order().count();
    let ops = op_columns(alloc, orders, count)?;
    let arcs = arc_columns(alloc, orders, count)?;
    Ok(Columns::from_vecs(count, orders.len() as u8, ops, arcs))
}
