//! The lines that declare a module's wires.
ghost use Rattle.std.specs.Prelude.{◌≡◌, ◌+◌, ◌^◌, ◌<◌, ◌++◌, ◌∷◌, [], true, false, length, OnOk};
ghost use Rattle.cpog_defs.specs.Orders.{each_below};
ghost use Rattle.handshake_eqs.specs.Netlists.{wire_of};
ghost use Rattle.line_text.specs.Lines.{text_of};
ghost use Rattle.netlist_verilog.specs.Wires.{signal_text, name_of};
ghost use Rattle.netlist_verilog.specs.Rows as rows;
ghost use Rattle.netlist_verilog.specs.Rows.{joined, wire_texts, input_wires, output_wires, arc_wire, arc_wires_from, arc_wires, inner_wires, wire_lines, port_lines};
ghost use Rattle.netlist_verilog.specs.Writes.{Writes};

use crate::Module;
use crate::signal_name::SignalName;
use cpog_base::{Names, OpId};
use std::alloc::AllocError;
use std::fmt::Write;

/// Writes the header and the lines of inputs and outputs.
pub(crate) fn put_ports(out: &mut String, design: &Module) -> Result<(), AllocError>
    ensures { OnOk result (Writes out.old out.new (text_of (port_lines design.now))) }
{
    out.push_str("module cpog(")?;
    put_inputs(out, design)?;
    out.push_str(", ")?;
    put_outputs(out, design)?;
    out.push_str(");\n  input ")?;
    put_inputs(out, design)?;
    out.push_str(";\n  output ")?;
    put_outputs(out, design)?;
    out.push_str(";\n")?;
    Ok(())
}

fn put_inputs(out: &mut String, design: &Module) -> Result<(), AllocError>
    ensures { OnOk result (Writes out.old out.new (joined true (wire_texts design.now (input_wires design.now.netlist)))) }
{
    let bits = design.netlist().bits();
    put_signals(out, bits, 0, u32::from(bits))?;
    out.push_str(", go")?;
    put_names(out, false, "a_", design.names())?;
    Ok(())
}

fn put_outputs(out: &mut String, design: &Module) -> Result<(), AllocError>
    ensures { OnOk result (Writes out.old out.new (joined true (wire_texts design.now (output_wires design.now.netlist)))) }
{
    let names = design.names();
    put_names(out, true, "r_", names)?;
    let first = names.len() == 0;
    write!(out, "{}done, idle", separator(first))?;
    Ok(())
}

/// Writes the line of the wires that are no ports, where there is one.
pub(crate) fn put_wires(out: &mut String, design: &Module) -> Result<(), AllocError>
    ensures { OnOk result (Writes out.old out.new (text_of (wire_lines (wire_texts design.now (inner_wires design.now.netlist))))) }
{
    let names = design.names().len();
    let netlist = design.netlist();
    let wires = netlist.gates().len() + names;
    if wires > 0 {
        put_wire_line(out, design)?;
    }
    Ok(())
}

fn put_wire_line(out: &mut String, design: &Module) -> Result<(), AllocError>
    requires { 0 < length design.now.netlist.gates.gates + length design.now.netlist.conditions }
    ensures { OnOk result (Writes out.old out.new (text_of (wire_lines (wire_texts design.now (inner_wires design.now.netlist))))) }
{
    let bits = design.netlist().bits();
    let gates = design.netlist().gates().len();
    out.push_str("  wire ")?;
    put_signals(out, bits, u32::from(bits), gates)?;
    let first = gates == 0;
    put_names(out, first, "c_", design.names())?;
    put_arc_wires(out, design)?;
    out.push_str(";\n")?;
    Ok(())
}

/// Writes so many signals from this one on, with commas between them.
fn put_signals(out: &mut String, inputs: u8, start: u32, count: u32) -> Result<(), AllocError>
    requires { start + count < 2 ^ 32 }
    ensures { OnOk result (Writes out.old out.new (joined true (each_below (λ k. signal_text inputs (start + k) ∷ []) count))) }
{
    let mut first = true;
    'signals: for k in 0..count {
        let signal = SignalName {
            inputs,
            number: start + k,
        };
        write!(out, "{}{signal}", separator(first))?;
        first = false;
    }
    Ok(())
}

/// Writes the wires that begin so, one for each name, with commas between them, and before them where something is.
fn put_names(out: &mut String, first: bool, prefix: &str, names: &Names) -> Result<(), AllocError>
    ensures { OnOk result (Writes out.old out.new (joined first (each_below (λ v. (prefix.now ++ name_of names.now v) ∷ []) (length names.now)))) }
{
    let mut first_left = first;
    'names: for v in 0..names.len() {
        let name = names.get(v);
        write!(out, "{}{prefix}{name}", separator(first_left))?;
        first_left = false;
    }
    Ok(())
}

/// What stands before a text of a list.
fn separator(first: bool) -> &'static str
    ensures { result.now ≡ rows.separator first }
{
    if first { "" } else { ", " }
}

/// Writes the wires of the arcs, each behind a comma.
fn put_arc_wires(out: &mut String, design: &Module) -> Result<(), AllocError>
    ensures { OnOk result (Writes out.old out.new (joined false (wire_texts design.now (arc_wires design.now.netlist)))) }
{
    'firsts: for u in 0..design.netlist().count() {
        put_arc_wires_from(out, design, OpId(u))?;
    }
    Ok(())
}

fn put_arc_wires_from(out: &mut String, design: &Module, u: OpId) -> Result<(), AllocError>
    requires { u.0 < length design.now.netlist.conditions }
    ensures { OnOk result (Writes out.old out.new (joined false (wire_texts design.now (arc_wires_from design.now.netlist u.0 (length design.now.netlist.conditions))))) }
{
    'seconds: for v in 0..design.netlist().count() {
        put_arc_wire(out, design, u, OpId(v))?;
    }
    Ok(())
}

fn put_arc_wire(out: &mut String, design: &Module, u: OpId, v: OpId) -> Result<(), AllocError>
    requires first { u.0 < length design.now.netlist.conditions }
    requires second { v.0 < length design.now.netlist.conditions }
    ensures { OnOk result (Writes out.old out.new (joined false (wire_texts design.now (arc_wire u.0 v.0 (wire_of design.now.netlist u.0 v.0))))) }
{
    match design.netlist().arc_wire(u, v) {
        Some(_) => write!(out, ", e{}_{}", u.0, v.0),
        None => Ok(()),
    }
}
