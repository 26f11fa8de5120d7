//! A form is written as its terms, each behind the condition under which it occurs.
ghost use Rattle.std.specs.Prelude.{◌≡◌, ◌++◌, ◌<◌, codes, map, IfOk, OnOk};
ghost use Rattle.std.specs.List.{flat_map};
ghost use Rattle.pg_text.specs.Writing.{rest_text, row_text};
ghost use Rattle.pg_normal.specs.Writing.{depends, needed, sets_needed, chosen, literal_text, valuation_text, valuations_text, prefix_text, arc_text, vertex_term, arc_terms, arc_terms_from, vertices_of, form_text};

use crate::NormalForm;
use crate::instances::{is_set, value_at};
use cpog_base::{Memory, Names, PARAM_LIMIT};
use pg_algebra::Table;
use pg_text::{name_of, put, put_if};
use std::alloc::Global;

/// Whether the value of the table changes with parameter k.
fn depends_on(table: Table, k: u8) -> bool
    requires { k < PARAM_LIMIT }
    ensures { result ≡ depends table.0 k }
{
    table.depends(k)
}

/// Whether a valuation sets no other parameter than those on which the table depends.
#[tactic(auto, unfolding(crate::specs::Writing::sets_needed))]
fn sets_needed(table: Table, n: u8) -> bool
    ensures { result ≡ sets_needed table.0 n }
{
    let mut all = true;
    'parameters: for k in 0..6 {
        all = (!is_set(n, k) || depends_on(table, k)) && all;
    }
    all
}

/// The parameters on which the table depends.
#[tactic(auto, unfolding(crate::specs::Writing::needed))]
fn needed(alloc: Global, table: Table) -> Result<Vec<u8>, Memory>
    ensures { IfOk result (λ ks. ks.items ≡ needed table.0) }
{
    let mut numbers = Vec::new(alloc);
    'parameters: for k in 0..6 {
        if depends_on(table, k) {
            numbers.push(k)?;
        }
    }
    Ok(numbers)
}

/// The valuations of those parameters under which the table is 1.
#[tactic(auto, unfolding(crate::specs::Writing::chosen))]
fn chosen(alloc: Global, table: Table) -> Result<Vec<u8>, Memory>
    ensures { IfOk result (λ ns. ns.items ≡ chosen table.0) }
{
    let mut numbers = Vec::new(alloc);
    'valuations: for n in 0..64 {
        if value_at(table, n) && sets_needed(table, n) {
            numbers.push(n)?;
        }
    }
    Ok(numbers)
}

/// Puts a parameter last, with a sign before it where it is 0.
fn put_literal(out: &mut Vec<u8>, params: &Names, n: u8, k: u8) -> Result<(), Memory>
    ensures { OnOk result (out.new.items ≡ out.old.items ++ literal_text params.now n k) }
{
    put_if(out, !is_set(n, k), b"!")?;
    put(out, name_of(params, u32::from(k)).as_bytes())
}

/// Puts the bits of these parameters under a valuation last.
fn put_valuation(out: &mut Vec<u8>, params: &Names, numbers: &[u8], n: u8) -> Result<(), Memory>
    ensures { OnOk result (out.new.items ≡ out.old.items ++ valuation_text params.now numbers.now n) }
{
    'parameters: for (i, k) in numbers.iter().enumerate() {
        put_if(out, i > 0, b" & ")?;
        put_literal(out, params, n, *k)?;
    }
    Ok(())
}

/// Puts the bits of these parameters under one of these valuations last.
fn put_valuations(
    out: &mut Vec<u8>,
    params: &Names,
    numbers: &[u8],
    valuations: &[u8],
) -> Result<(), Memory>
    ensures { OnOk result (out.new.items ≡ out.old.items ++ valuations_text params.now numbers.now valuations.now) }
{
    'valuations: for (i, n) in valuations.iter().enumerate() {
        put_if(out, i > 0, b" | ")?;
        put_valuation(out, params, numbers, *n)?;
    }
    Ok(())
}

/// Puts the condition before a term last, where the table is not constant 1.
#[tactic(auto, unfolding(crate::specs::Writing::prefix_text))]
fn put_prefix(alloc: Global, out: &mut Vec<u8>, params: &Names, table: Table) -> Result<(), Memory>
    ensures { OnOk result (out.new.items ≡ out.old.items ++ prefix_text params.now table.0) }
{
    if table.0 == u64::MAX {
        return Ok(());
    }
    put(out, b"[")?;
    let numbers = needed(alloc, table)?;
    let valuations = chosen(alloc, table)?;
    put_valuations(out, params, &numbers, &valuations)?;
    put(out, b"] ")
}

/// Puts a vertex last.
fn put_vertex(
    alloc: Global,
    out: &mut Vec<u8>,
    form: &NormalForm,
    names: &Names,
    params: &Names,
    v: u32,
) -> Result<(), Memory>
    ensures { OnOk result (out.new.items ≡ out.old.items ++ vertex_term form.now names.now params.now v) }
{
    put_prefix(alloc, out, params, form.vertex_table(v))?;
    put(out, name_of(names, v).as_bytes())
}

/// Puts an arc between two names last.
fn put_arc(out: &mut Vec<u8>, first: &str, second: &str) -> Result<(), Memory>
    ensures { OnOk result (out.new.items ≡ out.old.items ++ arc_text first.now second.now) }
{
    put(out, b"(")?;
    put(out, first.as_bytes())?;
    put(out, b" -> ")?;
    put(out, second.as_bytes())?;
    put(out, b")")
}

/// Puts the arc of a pair last behind a sign, if the form has it.
fn put_pair(
    alloc: Global,
    out: &mut Vec<u8>,
    form: &NormalForm,
    names: &Names,
    params: &Names,
    u: u32,
    v: u32,
) -> Result<(), Memory>
    ensures { OnOk result (out.new.items ≡ out.old.items ++ rest_text (codes " + ") (arc_terms form.now names.now params.now u v)) }
{
    let table = form.arc_table(u, v);
    if table.0 == 0 {
        return Ok(());
    }
    put(out, b" + ")?;
    put_prefix(alloc, out, params, table)?;
    put_arc(out, name_of(names, u), name_of(names, v))
}

/// Puts the vertices last.
fn put_vertices(
    alloc: Global,
    out: &mut Vec<u8>,
    form: &NormalForm,
    names: &Names,
    params: &Names,
    vertices: &[u32],
) -> Result<(), Memory>
    ensures { OnOk result (out.new.items ≡ out.old.items ++ row_text (codes " + ") (map (vertex_term form.now names.now params.now) vertices.now)) }
{
    'vertices: for (i, v) in vertices.iter().enumerate() {
        put_if(out, i > 0, b" + ")?;
        put_vertex(alloc, out, form, names, params, *v)?;
    }
    Ok(())
}

/// Puts the arcs from a vertex last, each behind a sign.
fn put_arcs_from(
    alloc: Global,
    out: &mut Vec<u8>,
    form: &NormalForm,
    names: &Names,
    params: &Names,
    vertices: &[u32],
    u: u32,
) -> Result<(), Memory>
    ensures { OnOk result (out.new.items ≡ out.old.items ++ rest_text (codes " + ") (arc_terms_from form.now names.now params.now vertices.now u)) }
{
    'seconds: for v in vertices.iter() {
        put_pair(alloc, out, form, names, params, u, *v)?;
    }
    Ok(())
}

/// Puts the arcs last, each behind a sign.
fn put_arcs(
    alloc: Global,
    out: &mut Vec<u8>,
    form: &NormalForm,
    names: &Names,
    params: &Names,
    vertices: &[u32],
) -> Result<(), Memory>
    ensures { OnOk result (out.new.items ≡ out.old.items ++ rest_text (codes " + ") (flat_map (arc_terms_from form.now names.now params.now vertices.now) vertices.now)) }
{
    'firsts: for u in vertices.iter() {
        put_arcs_from(alloc, out, form, names, params, vertices, *u)?;
    }
    Ok(())
}

/// The vertices of a form, in their order.
fn vertices_of(alloc: Global, form: &NormalForm) -> Result<Vec<u32>, Memory>
    ensures { IfOk result (λ vs. vs.items ≡ vertices_of form.now) }
{
    let mut vertices = Vec::new(alloc);
    'vertices: for i in 0..form.vertices() {
        vertices.push(form.vertex(i))?;
    }
    Ok(vertices)
}

/// Puts the text of a form last.
pub(crate) fn put_form(
    alloc: Global,
    out: &mut Vec<u8>,
    form: &NormalForm,
    names: &Names,
    params: &Names,
) -> Result<(), Memory>
    ensures { OnOk result (out.new.items ≡ out.old.items ++ form_text form.now names.now params.now) }
{
    let vertices = vertices_of(alloc, form)?;
    put_if(out, vertices.len() == 0, b"empty")?;
    put_vertices(alloc, out, form, names, params, &vertices)?;
    put_arcs(alloc, out, form, names, params, &vertices)
}

/// The text of a form: its vertices in their order and then its arcs, by the places of their first and then their second
/// ends, each behind the valuations under which it occurs.
///
/// # Errors
///
/// `Memory` where none is left.
pub fn write_form(
    alloc: Global,
    form: &NormalForm,
    names: &Names,
    params: &Names,
) -> Result<Vec<u8>, Memory>
    ensures { IfOk result (λ text. text.items ≡ form_text form.now names.now params.now) }
{
    let mut out = Vec::new(alloc);
    put_form(alloc, &mut out, form, names, params)?;
    Ok(out)
}
