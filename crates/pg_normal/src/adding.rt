//! The tables of an expression are made in one walk over its tree: a condition goes into the guard of what it governs, an
//! earlier graph is united with what is there, which is remembered, so that a graph that is named again and again is
//! united once, and of a sequence what came before is one row of tables.
ghost use Rattle.std.specs.Prelude.{◌≡◌, ◌<◌, ℕ, length, map, slice_get, IsTrue, OnOk, IfOk};
ghost use Rattle.std.specs.List.{flat_map};
ghost use Rattle.cpog_defs.specs.Codes.{bit};
ghost use Rattle.pg_algebra.specs.Graphs.{overlay, overlay_all, sequence_all, when};
ghost use Rattle.pg_normal.specs.Appearing.{appearing, first_appearing, with_numbers};
ghost use Rattle.pg_normal.specs.Known.{AreRowsOver, IsKnown, IsOver, graph_of_rows, graph_of_tables, graph_or_empty, graph_stated, orders_known};
ghost use Rattle.pg_normal.specs.Sound.{all_sound, is_sound};

use crate::tables::{join_once, take_up, unite_rows, zero_rows};
use crate::{Appearance, Known, Row, Tables};
use cpog_base::Memory;
use pg_algebra::{Expr, Table, table_of};
use sqlite_items::Items;
use std::alloc::Global;

/// Notes the operations of an expression as they stand in it.
#[cycle(note)]
fn note(expr: &Expr, known: &Known, order: &mut Appearance) -> Result<(), Memory>
    ensures { OnOk result (order.new ≡ with_numbers order.old (appearing (orders_known known.now) expr.now)) }
{
    match expr {
        Expr::Empty => Ok(()),
        Expr::Op(v) => order.note(*v),
        Expr::Graph(name) => match known.find(name.as_str()) {
            Some(tables) => order.note_all(&tables.order),
            None => Ok(()),
        },
        Expr::When(_, inner) => note(inner.get(), known, order),
        Expr::Overlay(list) | Expr::Sequence(list) => note_each(list.members(), known, order),
    }
}

/// Notes the operations of each expression as they stand in it.
#[cycle(note)]
fn note_each(members: &[Expr], known: &Known, order: &mut Appearance) -> Result<(), Memory>
    ensures { OnOk result (order.new ≡ with_numbers order.old (flat_map (appearing (orders_known known.now)) members.now)) }
{
    'members: for member in members {
        note(member, known, order)?;
    }
    Ok(())
}

/// Adds the graph of an earlier line, where the guard is 1, and its arcs only where they are not there yet.
fn add_earlier(
    known: &Known,
    place: usize,
    guard: Table,
    vertices: &mut Row,
    arcs: &mut [Row],
    united: &mut Row,
)
    requires place { place < length known.now.tables }
    requires rows { AreRowsOver known.now vertices.old arcs.old united.old }
    ensures rows { AreRowsOver known.now vertices.new arcs.new united.new }
    ensures graph { (n : ℕ) → n < 64 → graph_of_rows vertices.new arcs.new n ≡ overlay (graph_of_rows vertices.old arcs.old n) (when (bit guard.0 n) (graph_or_empty n (slice_get known.now.tables place))) }
{
    let tables = &known.tables.as_slice()[place];
    vertices.unite(&tables.vertices, guard);
    let left = guard.and(Table(united.get(place)).not());
    if left.0 != 0 {
        unite_rows(arcs, tables.arcs.as_slice(), guard);
        united.add(place, guard);
    }
}

/// Adds the graph of an expression, where the guard is 1.
#[cycle(add)]
fn add(
    alloc: Global,
    expr: &Expr,
    guard: Table,
    known: &Known,
    vertices: &mut Row,
    arcs: &mut [Row],
    united: &mut Row,
) -> Result<(), Memory>
    requires sound { IsTrue (is_sound (length arcs.old) known.now.params expr.now) }
    requires rows { AreRowsOver known.now vertices.old arcs.old united.old }
    ensures rows { OnOk result (AreRowsOver known.now vertices.new arcs.new united.new) }
    ensures graph { OnOk result ((n : ℕ) → n < 64 → graph_of_rows vertices.new arcs.new n ≡ overlay (graph_of_rows vertices.old arcs.old n) (when (bit guard.0 n) (graph_stated known.now n expr.now))) }
{
    match expr {
        Expr::Empty => Ok(()),
        Expr::Op(v) => {
            vertices.add(*v as usize, guard);
            Ok(())
        }
        Expr::Graph(name) => {
            if let Some(place) = known.graphs.find(name.as_str()) {
                add_earlier(known, place as usize, guard, vertices, arcs, united);
            }
            Ok(())
        }
        Expr::When(cond, inner) => {
            let table = table_of(cond.get(), &known.params).unwrap();
            let both = guard.and(table);
            add(alloc, inner.get(), both, known, vertices, arcs, united)
        }
        Expr::Overlay(list) => {
            add_overlay(alloc, list.members(), guard, known, vertices, arcs, united)
        }
        Expr::Sequence(list) => {
            add_sequence(alloc, list.members(), guard, known, vertices, arcs, united)
        }
    }
}

/// Adds the overlay of graphs, where the guard is 1.
#[cycle(add)]
fn add_overlay(
    alloc: Global,
    members: &[Expr],
    guard: Table,
    known: &Known,
    vertices: &mut Row,
    arcs: &mut [Row],
    united: &mut Row,
) -> Result<(), Memory>
    requires sound { IsTrue (all_sound (length arcs.old) known.now.params members.now) }
    requires rows { AreRowsOver known.now vertices.old arcs.old united.old }
    ensures rows { OnOk result (AreRowsOver known.now vertices.new arcs.new united.new) }
    ensures graph { OnOk result ((n : ℕ) → n < 64 → graph_of_rows vertices.new arcs.new n ≡ overlay (graph_of_rows vertices.old arcs.old n) (when (bit guard.0 n) (overlay_all (map (graph_stated known.now n) members.now)))) }
{
    'over: for member in members {
        add(alloc, member, guard, known, vertices, arcs, united)?;
    }
    Ok(())
}

/// Adds the sequence of graphs, where the guard is 1.
#[cycle(add)]
fn add_sequence(
    alloc: Global,
    members: &[Expr],
    guard: Table,
    known: &Known,
    vertices: &mut Row,
    arcs: &mut [Row],
    united: &mut Row,
) -> Result<(), Memory>
    requires sound { IsTrue (all_sound (length arcs.old) known.now.params members.now) }
    requires rows { AreRowsOver known.now vertices.old arcs.old united.old }
    ensures rows { OnOk result (AreRowsOver known.now vertices.new arcs.new united.new) }
    ensures graph { OnOk result ((n : ℕ) → n < 64 → graph_of_rows vertices.new arcs.new n ≡ overlay (graph_of_rows vertices.old arcs.old n) (when (bit guard.0 n) (sequence_all (map (graph_stated known.now n) members.now)))) }
{
    let mut before = Row::zeros(alloc, arcs.len())?;
    // a vertex is joined where it has an arc from each that came before
    let mut joined = Row::zeros(alloc, arcs.len())?;
    let mut here = Row::zeros(alloc, arcs.len())?;
    'line: for member in members {
        here.clear();
        add(alloc, member, guard, known, &mut here, arcs, united)?;
        join_once(arcs, &before, &mut joined, &here);
        take_up(&mut before, &mut joined, &here);
    }
    vertices.unite(&before, Table::constant(true));
    Ok(())
}

/// The tables of an expression over so many operations.
///
/// # Errors
///
/// `Memory` where none is left.
pub(crate) fn tables_of(
    alloc: Global,
    expr: &Expr,
    known: &Known,
    count: usize,
) -> Result<Tables, Memory>
    requires known { IsKnown count known.now }
    requires sound { IsTrue (is_sound count known.now.params expr.now) }
    ensures over { IfOk result (IsOver count) }
    ensures graph { IfOk result (λ t. (n : ℕ) → n < 64 → graph_of_tables t n ≡ graph_stated known.now n expr.now) }
    ensures order { IfOk result (λ t. t.order ≡ first_appearing (orders_known known.now) expr.now) }
{
    let mut vertices = Row::zeros(alloc, count)?;
    let mut arcs = zero_rows(alloc, count)?;
    // for each earlier graph, where its arcs are there already
    let mut united = Row::zeros(alloc, known.tables.len())?;
    add(
        alloc,
        expr,
        Table::constant(true),
        known,
        &mut vertices,
        &mut arcs,
        &mut united,
    )?;
    let mut order = Appearance::new(alloc);
    note(expr, known, &mut order)?;
    Ok(Tables {
        order,
        vertices,
        arcs: Items::from_vec(arcs),
    })
}
