//! The values of a template's variables under codes, gates and references, in the printed order.

ghost use Rattle.std.specs.Prelude.{◌≡◌, ◌+◌, ◌<◌, ◌≤◌, ◌++◌, ◌∷◌, [], map, length, IfOk, OnOk};
ghost use Rattle.cpog_defs.specs.Gates.{signal_values};
ghost use Rattle.cpog_defs.specs.Orders.{each_below};
ghost use Rattle.gate_template.specs.Variables.{X, D, Sel, T, V, O, P, pairs_from, each_pair, x_block, d_block, sel_block, t_block, v_block, o_block, p_block, variables};
ghost use Rattle.gate_template.specs.Values.{code_of, value_of};
ghost use Rattle.gate_template.specs.Listed.{listed};
ghost use Rattle.cnf_build.specs.Decoded.{IsWhole};

use crate::rows::{Row, signal_rows};
use crate::whole::Whole;
use cpog_base::Memory;
use gate_template::Shape;
use std::alloc::Global;

/// The bits of the code of s.
fn push_code(values: &mut Vec<bool>, whole: &Whole, shape: Shape, s: u32) -> Result<(), Memory>
    requires fits { IsWhole shape whole.now }
    requires scenario { s < shape.scenarios }
    ensures { OnOk result (values.new.items ≡ values.old.items ++ map (value_of whole.now) (each_below
        (λ i. X s i ∷ []) shape.bits)) }
{
    for i in 0..shape.bits {
        values.push(whole.x(s, i))?;
    }
    Ok(())
}

/// The bits of all codes.
fn push_x(values: &mut Vec<bool>, whole: &Whole, shape: Shape) -> Result<(), Memory>
    requires fits { IsWhole shape whole.now }
    ensures { OnOk result (values.new.items ≡ values.old.items ++ map (value_of whole.now) (x_block shape)) }
{
    for s in 0..shape.scenarios {
        push_code(values, whole, shape, s)?;
    }
    Ok(())
}

/// Where the codes of s and t differ.
fn push_d_pair(
    values: &mut Vec<bool>,
    whole: &Whole,
    shape: Shape,
    s: u32,
    t: u32,
) -> Result<(), Memory>
    requires fits { IsWhole shape whole.now }
    requires first { s < shape.scenarios }
    requires second { t < shape.scenarios }
    ensures { OnOk result (values.new.items ≡ values.old.items ++ map (value_of whole.now) (each_below
        (λ i. D s t i ∷ []) shape.bits)) }
{
    for i in 0..shape.bits {
        values.push(whole.d(s, t, i))?;
    }
    Ok(())
}

/// Where the code of s and later ones differ.
fn push_d_from(values: &mut Vec<bool>, whole: &Whole, shape: Shape, s: u32) -> Result<(), Memory>
    requires fits { IsWhole shape whole.now }
    requires scenario { s < shape.scenarios }
    ensures { OnOk result (values.new.items ≡ values.old.items ++ map (value_of whole.now) (pairs_from
        (λ s t. each_below (λ i. D s t i ∷ []) shape.bits) shape.scenarios s)) }
{
    let scenarios = shape.scenarios;
    for t in s + 1..scenarios {
        push_d_pair(values, whole, shape, s, t)?;
    }
    Ok(())
}

/// Where any two codes differ.
fn push_d(values: &mut Vec<bool>, whole: &Whole, shape: Shape) -> Result<(), Memory>
    requires fits { IsWhole shape whole.now }
    ensures { OnOk result (values.new.items ≡ values.old.items ++ map (value_of whole.now) (d_block shape)) }
{
    for s in 0..shape.scenarios {
        push_d_from(values, whole, shape, s)?;
    }
    Ok(())
}

/// Which signals above j gate g reads with it.
fn push_sel_from(
    values: &mut Vec<bool>,
    whole: &Whole,
    shape: Shape,
    g: u32,
    j: u32,
) -> Result<(), Memory>
    requires fits { IsWhole shape whole.now }
    requires gate { g < shape.gates }
    requires earlier { j < shape.bits + g }
    ensures { OnOk result (values.new.items ≡ values.old.items ++ map (value_of whole.now) (pairs_from
        (λ j k. Sel g j k ∷ []) (shape.bits + g) j)) }
{
    let signals = shape.bits + g;
    for k in j + 1..signals {
        values.push(whole.sel(g, j, k))?;
    }
    Ok(())
}

/// Which pair gate g reads.
fn push_sel_of(values: &mut Vec<bool>, whole: &Whole, shape: Shape, g: u32) -> Result<(), Memory>
    requires fits { IsWhole shape whole.now }
    requires gate { g < shape.gates }
    ensures { OnOk result (values.new.items ≡ values.old.items ++ map (value_of whole.now) (each_pair
        (λ j k. Sel g j k ∷ []) (shape.bits + g))) }
{
    let signals = shape.bits + g;
    for j in 0..signals {
        push_sel_from(values, whole, shape, g, j)?;
    }
    Ok(())
}

/// Which pairs the gates read.
fn push_sel(values: &mut Vec<bool>, whole: &Whole, shape: Shape) -> Result<(), Memory>
    requires fits { IsWhole shape whole.now }
    ensures { OnOk result (values.new.items ≡ values.old.items ++ map (value_of whole.now) (sel_block shape)) }
{
    for g in 0..shape.gates {
        push_sel_of(values, whole, shape, g)?;
    }
    Ok(())
}

/// The table of gate g.
fn push_table_of(values: &mut Vec<bool>, whole: &Whole, shape: Shape, g: u32) -> Result<(), Memory>
    requires fits { IsWhole shape whole.now }
    requires gate { g < shape.gates }
    ensures { OnOk result (values.new.items ≡ values.old.items
        ++ map (value_of whole.now) (T g 1 ∷ T g 2 ∷ T g 3 ∷ [])) }
{
    values.push(whole.t(g, 1))?;
    values.push(whole.t(g, 2))?;
    values.push(whole.t(g, 3))?;
    Ok(())
}

/// The tables of the gates.
fn push_t(values: &mut Vec<bool>, whole: &Whole, shape: Shape) -> Result<(), Memory>
    requires fits { IsWhole shape whole.now }
    ensures { OnOk result (values.new.items ≡ values.old.items ++ map (value_of whole.now) (t_block shape)) }
{
    for g in 0..shape.gates {
        push_table_of(values, whole, shape, g)?;
    }
    Ok(())
}

/// The value of gate g in scenario s.
fn gate_signal_value(whole: &Whole, rows: &[Row], shape: Shape, g: u32, s: u32) -> bool
    requires fits { IsWhole shape whole.now }
    requires rows { rows.now ≡ listed (λ s. signal_values whole.now.gates (code_of whole.now s)) shape.scenarios }
    requires gate { g < shape.gates }
    requires scenario { s < shape.scenarios }
    ensures { result ≡ value_of whole.now (V g s) }
{
    rows[s as usize].get(shape.bits + g)
}

/// The values of gate g.
fn push_v_of(
    values: &mut Vec<bool>,
    whole: &Whole,
    rows: &[Row],
    shape: Shape,
    g: u32,
) -> Result<(), Memory>
    requires fits { IsWhole shape whole.now }
    requires rows { rows.now ≡ listed (λ s. signal_values whole.now.gates (code_of whole.now s)) shape.scenarios }
    requires gate { g < shape.gates }
    ensures { OnOk result (values.new.items ≡ values.old.items ++ map (value_of whole.now) (each_below
        (λ s. V g s ∷ []) shape.scenarios)) }
{
    for s in 0..shape.scenarios {
        values.push(gate_signal_value(whole, rows, shape, g, s))?;
    }
    Ok(())
}

/// The values of the gates.
fn push_v(values: &mut Vec<bool>, whole: &Whole, rows: &[Row], shape: Shape) -> Result<(), Memory>
    requires fits { IsWhole shape whole.now }
    requires rows { rows.now ≡ listed (λ s. signal_values whole.now.gates (code_of whole.now s)) shape.scenarios }
    ensures { OnOk result (values.new.items ≡ values.old.items ++ map (value_of whole.now) (v_block shape)) }
{
    for g in 0..shape.gates {
        push_v_of(values, whole, rows, shape, g)?;
    }
    Ok(())
}

/// Which signal class c is taken from.
fn push_o_of(values: &mut Vec<bool>, whole: &Whole, shape: Shape, c: u32) -> Result<(), Memory>
    requires fits { IsWhole shape whole.now }
    requires class { c < shape.classes }
    ensures { OnOk result (values.new.items ≡ values.old.items ++ map (value_of whole.now) (each_below
        (λ n. O c n ∷ []) (shape.bits + shape.gates))) }
{
    for n in 0..shape.bits + shape.gates {
        values.push(whole.o(c, n))?;
    }
    Ok(())
}

/// Which signals the classes are taken from.
fn push_o(values: &mut Vec<bool>, whole: &Whole, shape: Shape) -> Result<(), Memory>
    requires fits { IsWhole shape whole.now }
    ensures { OnOk result (values.new.items ≡ values.old.items ++ map (value_of whole.now) (o_block shape)) }
{
    for c in 0..shape.classes {
        push_o_of(values, whole, shape, c)?;
    }
    Ok(())
}

/// Which classes are complemented.
fn push_p(values: &mut Vec<bool>, whole: &Whole, shape: Shape) -> Result<(), Memory>
    requires fits { IsWhole shape whole.now }
    ensures { OnOk result (values.new.items ≡ values.old.items ++ map (value_of whole.now) (p_block shape)) }
{
    for c in 0..shape.classes {
        values.push(whole.p(c))?;
    }
    Ok(())
}

/// The values of all variables, in order.
pub(crate) fn values_in_order(
    alloc: Global,
    whole: &Whole,
    shape: Shape,
) -> Result<Vec<bool>, Memory>
    requires { IsWhole shape whole.now }
    ensures { IfOk result (λ values. values.items ≡ map (value_of whole.now) (variables shape)) }
{
    let rows = signal_rows(alloc, whole, shape.scenarios)?;
    let mut values = Vec::new(alloc);
    push_x(&mut values, whole, shape)?;
    push_d(&mut values, whole, shape)?;
    push_sel(&mut values, whole, shape)?;
    push_t(&mut values, whole, shape)?;
    push_v(&mut values, whole, &rows, shape)?;
    push_o(&mut values, whole, shape)?;
    push_p(&mut values, whole, shape)?;
    Ok(values)
}
