//! The lines of a module's equations.
ghost use Rattle.std.specs.Prelude.{◌<◌, ◌∷◌, [], true, length, Some, OnOk};
ghost use Rattle.std.specs.FinSet as set;
ghost use Rattle.cpog_defs.specs.Orders.{each_below};
ghost use Rattle.handshake_eqs.specs.Netlists.{condition_of, wire_of, waits_of};
ghost use Rattle.line_text.specs.Lines.{text_of};
ghost use Rattle.netlist_verilog.specs.Wires.{Acknowledge};
ghost use Rattle.netlist_verilog.specs.Formulas.{Not, Read, formula_text};
ghost use Rattle.netlist_verilog.specs.Equations.{gate_at, gate_equation, gate_equations, ref_formula, condition_equation, arc_equation, arc_equations_from, arc_formula, through_formula, request_equation, done_equation, idle_equation};
ghost use Rattle.netlist_verilog.specs.Rows.{function_text, and_text, equation_rows};
ghost use Rattle.netlist_verilog.specs.Writes.{Writes};

use crate::Module;
use crate::signal_name::SignalName;
use cpog_base::OpId;
use gate_core::{Gate, Ref};
use std::alloc::AllocError;
use std::fmt::Write;

pub(crate) fn put_gates(out: &mut String, design: &Module) -> Result<(), AllocError>
    ensures { OnOk result (Writes out.old out.new (text_of (equation_rows design.now (gate_equations design.now.netlist.gates)))) }
{
    'gates: for g in 0..design.netlist().gates().len() {
        put_gate(out, design, g)?;
    }
    Ok(())
}

fn put_gate(out: &mut String, design: &Module, g: u32) -> Result<(), AllocError>
    requires { g < length design.now.netlist.gates.gates }
    ensures { OnOk result (Writes out.old out.new (text_of (equation_rows design.now (gate_equation design.now.netlist.gates.inputs g (gate_at design.now.netlist.gates g) ∷ [])))) }
{
    let inputs = design.netlist().bits();
    let gates = design.netlist().gates().gates();
    let gate = gates[g as usize];
    let signal = SignalName {
        inputs,
        number: u32::from(inputs) + g,
    };
    write!(out, "  assign {signal} = ")?;
    put_function(out, design, gate)?;
    out.push_str(";\n")?;
    Ok(())
}

/// Writes the function of a gate by its table, and a comment with both signals where it doesn't read both.
fn put_function(out: &mut String, design: &Module, gate: Gate) -> Result<(), AllocError>
    requires { gate.table < 16 }
    ensures { OnOk result (Writes out.old out.new (function_text design.now gate)) }
{
    let inputs = design.netlist().bits();
    let p = SignalName {
        inputs,
        number: gate.j,
    };
    let q = SignalName {
        inputs,
        number: gate.k,
    };
    match gate.table {
        0b0000 => write!(out, "1'b0 /* {p} {q} */"),
        0b0001 => write!(out, "~{p} & ~{q}"),
        0b0010 => write!(out, "~{p} & {q}"),
        0b0011 => write!(out, "~{p} /* {p} {q} */"),
        0b0100 => write!(out, "{p} & ~{q}"),
        0b0101 => write!(out, "~{q} /* {p} {q} */"),
        0b0110 => write!(out, "{p} ^ {q}"),
        0b0111 => write!(out, "~{p} | ~{q}"),
        0b1000 => write!(out, "{p} & {q}"),
        0b1001 => write!(out, "{p} ^ ~{q}"),
        0b1010 => write!(out, "{q} /* {p} {q} */"),
        0b1011 => write!(out, "~{p} | {q}"),
        0b1100 => write!(out, "{p} /* {p} {q} */"),
        0b1101 => write!(out, "{p} | ~{q}"),
        0b1110 => write!(out, "{p} | {q}"),
        _ => write!(out, "1'b1 /* {p} {q} */"),
    }
}

pub(crate) fn put_conditions(out: &mut String, design: &Module) -> Result<(), AllocError>
    ensures { OnOk result (Writes out.old out.new (text_of (equation_rows design.now (each_below (λ v. condition_equation v (condition_of design.now.netlist v) ∷ []) (length design.now.netlist.conditions))))) }
{
    'conditions: for v in 0..design.netlist().count() {
        put_condition(out, design, OpId(v))?;
    }
    Ok(())
}

fn put_condition(out: &mut String, design: &Module, v: OpId) -> Result<(), AllocError>
    requires { v.0 < length design.now.netlist.conditions }
    ensures { OnOk result (Writes out.old out.new (text_of (equation_rows design.now (condition_equation v.0 (condition_of design.now.netlist v.0) ∷ [])))) }
{
    let name = design.names().get(u32::from(v.0));
    write!(out, "  assign c_{name} = ")?;
    put_ref(out, design, design.netlist().condition(v))?;
    out.push_str(";\n")?;
    Ok(())
}

/// Writes a constant, a signal or its complement.
fn put_ref(out: &mut String, design: &Module, r: Ref) -> Result<(), AllocError>
    ensures { OnOk result (Writes out.old out.new (formula_text design.now.netlist.gates.inputs design.now.names (ref_formula r))) }
{
    let inputs = design.netlist().bits();
    match r {
        Ref::Const(false) => out.push_str("1'b0"),
        Ref::Const(true) => out.push_str("1'b1"),
        Ref::Signal {
            number,
            negated: false,
        } => {
            let signal = SignalName { inputs, number };
            write!(out, "{signal}")
        }
        Ref::Signal {
            number,
            negated: true,
        } => {
            let signal = SignalName { inputs, number };
            write!(out, "~{signal}")
        }
    }
}

pub(crate) fn put_arcs(out: &mut String, design: &Module) -> Result<(), AllocError>
    ensures { OnOk result (Writes out.old out.new (text_of (equation_rows design.now (each_below (λ u. arc_equations_from design.now.netlist u (length design.now.netlist.conditions)) (length design.now.netlist.conditions))))) }
{
    'firsts: for u in 0..design.netlist().count() {
        put_arcs_from(out, design, OpId(u))?;
    }
    Ok(())
}

fn put_arcs_from(out: &mut String, design: &Module, u: OpId) -> Result<(), AllocError>
    requires { u.0 < length design.now.netlist.conditions }
    ensures { OnOk result (Writes out.old out.new (text_of (equation_rows design.now (arc_equations_from design.now.netlist u.0 (length design.now.netlist.conditions))))) }
{
    'seconds: for v in 0..design.netlist().count() {
        put_arc(out, design, u, OpId(v))?;
    }
    Ok(())
}

fn put_arc(out: &mut String, design: &Module, u: OpId, v: OpId) -> Result<(), AllocError>
    requires first { u.0 < length design.now.netlist.conditions }
    requires second { v.0 < length design.now.netlist.conditions }
    ensures { OnOk result (Writes out.old out.new (text_of (equation_rows design.now (arc_equation u.0 v.0 (wire_of design.now.netlist u.0 v.0))))) }
{
    match design.netlist().arc_wire(u, v) {
        Some(r) => put_arc_condition(out, design, u, v, r),
        None => Ok(()),
    }
}

fn put_arc_condition(
    out: &mut String,
    design: &Module,
    u: OpId,
    v: OpId,
    r: Ref,
) -> Result<(), AllocError>
    ensures { OnOk result (Writes out.old out.new (text_of (equation_rows design.now (arc_equation u.0 v.0 (Some r))))) }
{
    write!(out, "  assign e{}_{} = ", u.0, v.0)?;
    put_ref(out, design, r)?;
    out.push_str(";\n")
}

pub(crate) fn put_requests(out: &mut String, design: &Module) -> Result<(), AllocError>
    ensures { OnOk result (Writes out.old out.new (text_of (equation_rows design.now (each_below (λ v. request_equation design.now.netlist v ∷ []) (length design.now.netlist.conditions))))) }
{
    'requests: for v in 0..design.netlist().count() {
        put_request(out, design, OpId(v))?;
    }
    Ok(())
}

fn put_request(out: &mut String, design: &Module, v: OpId) -> Result<(), AllocError>
    requires { v.0 < length design.now.netlist.conditions }
    ensures { OnOk result (Writes out.old out.new (text_of (equation_rows design.now (request_equation design.now.netlist v.0 ∷ [])))) }
{
    let name = design.names().get(u32::from(v.0));
    write!(out, "  assign r_{name} = go & c_{name}")?;
    put_waits(out, design, v)?;
    out.push_str(";\n")?;
    Ok(())
}

/// Writes what the operation waits for, each behind `&`.
fn put_waits(out: &mut String, design: &Module, v: OpId) -> Result<(), AllocError>
    requires { v.0 < length design.now.netlist.conditions }
    ensures { OnOk result (Writes out.old out.new (each_below (λ u. and_text design.now (set.contains (waits_of design.now.netlist v.0) u) (arc_formula v.0 u)) (length design.now.netlist.conditions))) }
{
    'waits: for u in 0..design.netlist().count() {
        put_wait(out, design, OpId(u), v)?;
    }
    Ok(())
}

fn put_wait(out: &mut String, design: &Module, u: OpId, v: OpId) -> Result<(), AllocError>
    requires first { u.0 < length design.now.netlist.conditions }
    requires second { v.0 < length design.now.netlist.conditions }
    ensures { OnOk result (Writes out.old out.new (and_text design.now (set.contains (waits_of design.now.netlist v.0) u.0) (arc_formula v.0 u.0))) }
{
    let name = design.names().get(u32::from(u.0));
    if design.netlist().waits(v).contains(u) {
        write!(out, " & (a_{name} | ~c_{name} | ~e{}_{})", u.0, v.0)?;
    }
    Ok(())
}

pub(crate) fn put_done(out: &mut String, design: &Module) -> Result<(), AllocError>
    ensures { OnOk result (Writes out.old out.new (text_of (equation_rows design.now (done_equation (length design.now.netlist.conditions) ∷ [])))) }
{
    out.push_str("  assign done = go")?;
    put_each_through(out, design)?;
    out.push_str(";\n")?;
    Ok(())
}

/// Writes for each operation that it is acknowledged or has the condition 0, behind `&`.
fn put_each_through(out: &mut String, design: &Module) -> Result<(), AllocError>
    ensures { OnOk result (Writes out.old out.new (each_below (λ v. and_text design.now true (through_formula v)) (length design.now.netlist.conditions))) }
{
    let names = design.names();
    'operations: for v in 0..names.len() {
        let name = names.get(v);
        write!(out, " & (a_{name} | ~c_{name})")?;
    }
    Ok(())
}

pub(crate) fn put_idle(out: &mut String, design: &Module) -> Result<(), AllocError>
    ensures { OnOk result (Writes out.old out.new (text_of (equation_rows design.now (idle_equation (length design.now.netlist.conditions) ∷ [])))) }
{
    out.push_str("  assign idle = ~go")?;
    put_each_unacknowledged(out, design)?;
    out.push_str(";\n")?;
    Ok(())
}

/// Writes for each operation that it isn't acknowledged, behind `&`.
fn put_each_unacknowledged(out: &mut String, design: &Module) -> Result<(), AllocError>
    ensures { OnOk result (Writes out.old out.new (each_below (λ v. and_text design.now true (Not (Read (Acknowledge v)))) (length design.now.netlist.conditions))) }
{
    let names = design.names();
    'operations: for v in 0..names.len() {
        let name = names.get(v);
        write!(out, " & ~a_{name}")?;
    }
    Ok(())
}
