//! A normal form is made of tables: the vertices in the order of their first appearance, and then the arcs, without those that never occur.
ghost use Rattle.std.specs.Prelude.{◌≡◌, ◌<◌, ◌==◌, ◌++◌, ◌∷◌, ℕ, false, List, [], IsTrue, IfOk, OnOk, if◌then◌else◌, filter, map, slice_index};
ghost use Rattle.std.specs.Str.{bytes_eq};
ghost use Rattle.cpog_base.specs.Names.{has_text};
ghost use Rattle.cpog_defs.specs.Codes.{bit};
ghost use Rattle.pg_algebra.specs.Conditions.{valuation};
ghost use Rattle.pg_algebra.specs.Meaning.{graph_of};
ghost use Rattle.pg_normal.specs.Appearing.{has, first_appearing};
ghost use Rattle.pg_normal.specs.Forms.{vertex_table, arc_table, sometimes, IsFormOf};
ghost use Rattle.pg_normal.specs.Known.{IsKnown, IsOver, entry, graph_of_tables, graphs_known, orders_known};
ghost use Rattle.pg_normal.specs.Sound.{is_sound};

use crate::adding::tables_of;
use crate::{Known, NormalForm, Tables};
use cpog_base::Memory;
use pg_algebra::{Expr, Table};
use std::alloc::Global;

/// Puts the vertices that occur into a form, in their order.
fn add_vertices(form: &mut NormalForm, tables: &Tables) -> Result<(), Memory>
    requires empty { form.old ≡ record { vertices = []; arcs = [] } }
    ensures vertices { OnOk result (map (λ e. e.0) form.new.vertices ≡ filter (λ v. sometimes (bit (slice_index tables.now.vertices v))) tables.now.order) }
    ensures tables { OnOk result ((v : ℕ) → vertex_table form.new v ≡ (if has tables.now.order v then slice_index tables.now.vertices v else 0)) }
    ensures arcs { OnOk result (form.new.arcs ≡ []) }
{
    'places: for i in 0..tables.order.len() {
        let v = tables.order.get(i);
        let table = tables.vertices.get(v as usize);
        if table != 0 {
            form.add_vertex(v, Table(table))?;
        }
    }
    Ok(())
}

/// Puts the arcs that occur from one vertex into a form.
fn add_arcs_from(form: &mut NormalForm, tables: &Tables, u: u32, count: u32) -> Result<(), Memory>
    requires over { IsOver count tables.now }
    requires vertices { (v n : ℕ) → n < 64 → bit (vertex_table form.old v) n ≡ bit (slice_index tables.now.vertices v) n }
    requires fresh { (v : ℕ) → arc_table form.old u v ≡ 0 }
    ensures vertices { OnOk result (form.new.vertices ≡ form.old.vertices) }
    ensures arcs { OnOk result ((a b : ℕ) → arc_table form.new a b ≡ (if a == u then entry tables.now.arcs a b else arc_table form.old a b)) }
{
    'seconds: for v in 0..count {
        let table = tables.arcs.as_slice()[v as usize].get(u as usize);
        if table != 0 {
            form.add_arc(u, v, Table(table))?;
        }
    }
    Ok(())
}

/// Puts the arcs that occur into a form.
fn add_arcs(form: &mut NormalForm, tables: &Tables, count: u32) -> Result<(), Memory>
    requires over { IsOver count tables.now }
    requires vertices { (v n : ℕ) → n < 64 → bit (vertex_table form.old v) n ≡ bit (slice_index tables.now.vertices v) n }
    requires none { form.old.arcs ≡ [] }
    ensures vertices { OnOk result (form.new.vertices ≡ form.old.vertices) }
    ensures arcs { OnOk result ((a b : ℕ) → arc_table form.new a b ≡ entry tables.now.arcs a b) }
{
    'firsts: for u in 0..count {
        add_arcs_from(form, tables, u, count)?;
    }
    Ok(())
}

/// The normal form of tables over so many operations.
pub(crate) fn form_of_tables(
    alloc: Global,
    tables: &Tables,
    count: u32,
) -> Result<NormalForm, Memory>
    requires over { IsOver count tables.now }
    ensures { IfOk result (IsFormOf (graph_of_tables tables.now) tables.now.order) }
{
    let mut form = NormalForm::new(alloc);
    add_vertices(&mut form, tables)?;
    add_arcs(&mut form, tables, count)?;
    // that it is a form is told with the number of its arcs
    let _arcs = form.arcs();
    Ok(form)
}

/// The normal form of an expression over so many operations.
///
/// # Errors
///
/// `Memory` where none is left.
pub(crate) fn form_of(
    alloc: Global,
    expr: &Expr,
    known: &Known,
    count: u32,
) -> Result<NormalForm, Memory>
    requires known { IsKnown count known.now }
    requires sound { IsTrue (is_sound count known.now.params expr.now) }
    ensures { IfOk result (IsFormOf (λ n. graph_of (graphs_known known.now n) (valuation known.now.params n) expr.now) (first_appearing (orders_known known.now) expr.now)) }
{
    let tables = tables_of(alloc, expr, known, count as usize)?;
    form_of_tables(alloc, &tables, count)
}

/// Keeps the graph of an expression under a new name, and makes its normal form.
///
/// # Errors
///
/// `Memory` where none is left.
pub(crate) fn with_graph(
    alloc: Global,
    known: Known,
    name: &str,
    expr: &Expr,
    count: u32,
) -> Result<(Known, NormalForm), Memory>
    requires known { IsKnown count known }
    requires sound { IsTrue (is_sound count known.params expr.now) }
    requires new { has_text known.graphs name.now ≡ false }
    ensures form { IfOk result (λ r. IsFormOf (λ n. graph_of (graphs_known known n) (valuation known.params n) expr.now) (first_appearing (orders_known known) expr.now) r.1) }
    ensures known { IfOk result (λ r. IsKnown count r.0) }
    ensures params { IfOk result (λ r. r.0.params ≡ known.params) }
    ensures names { IfOk result (λ r. r.0.graphs ≡ known.graphs ++ name.now ∷ []) }
    ensures graphs { IfOk result (λ r. (n : ℕ) (other : List ℕ) → n < 64 → graphs_known r.0 n other ≡ (if bytes_eq other name.now then graph_of (graphs_known known n) (valuation known.params n) expr.now else graphs_known known n other)) }
    ensures orders { IfOk result (λ r. (other : List ℕ) → orders_known r.0 other ≡ (if bytes_eq other name.now then first_appearing (orders_known known) expr.now else orders_known known other)) }
{
    let tables = tables_of(alloc, expr, &known, count as usize)?;
    let form = form_of_tables(alloc, &tables, count)?;
    let known = known.push(name, tables)?;
    Ok((known, form))
}
