//! The lines that the names alone determine, as they are printed.
ghost use Rattle.std.specs.Prelude.{◌≡◌, ◌+◌, ◌^◌, ◌<◌, ◌≤◌, ◌++◌, ◌∷◌, [], true, length, codes, string_bytes, IfOk, OnOk};
ghost use Rattle.cpog_defs.specs.Orders.{each_below};
ghost use Rattle.netlist_verilog.specs.Wires.{Acknowledge, signal_text, name_of};
ghost use Rattle.netlist_verilog.specs.Formulas.{Not, Read};
ghost use Rattle.netlist_verilog.specs.Equations.{through_formula};
ghost use Rattle.netlist_verilog.specs.Rows as rows;
ghost use Rattle.netlist_verilog.specs.Rows.{joined, and_text};
ghost use Rattle.netlist_verilog.specs.Writes.{Writes};
ghost use Rattle.module_reader.specs.Modules as lines;
ghost use Rattle.module_reader.specs.Modules.{inputs_text, outputs_text, condition_names, plain_module};

use crate::ports::Ports;
use cpog_base::{Memory, Names};
use netlist_verilog::SignalName;
use std::alloc::{AllocError, Global};
use std::fmt::Write;

/// What stands before a text of a list.
fn separator(first: bool) -> &'static str
    ensures { result.now ≡ rows.separator first }
{
    if first { "" } else { ", " }
}

/// Writes the inputs of the gates, with commas between them.
fn put_inputs(out: &mut String, inputs: u8) -> Result<(), AllocError>
    ensures { OnOk result (Writes out.old out.new (joined true (each_below (λ k. signal_text inputs (0 + k) ∷ []) inputs))) }
{
    let mut first = true;
    'signals: for k in 0..u32::from(inputs) {
        let signal = SignalName { inputs, number: k };
        write!(out, "{}{signal}", separator(first))?;
        first = false;
    }
    Ok(())
}

/// Writes the wires that begin so, one for each name, with commas between them, and before them where something is.
fn put_names(out: &mut String, first: bool, prefix: &str, names: &Names) -> Result<(), AllocError>
    ensures { OnOk result (Writes out.old out.new (joined first (each_below (λ v. (prefix.now ++ name_of names.now v) ∷ []) (length names.now)))) }
{
    let mut first_left = first;
    'names: for v in 0..names.len() {
        let name = names.get(v);
        write!(out, "{}{prefix}{name}", separator(first_left))?;
        first_left = false;
    }
    Ok(())
}

/// Writes the names of the outputs.
fn put_outputs(out: &mut String, names: &Names) -> Result<(), AllocError>
    ensures { OnOk result (Writes out.old out.new (outputs_text 0 names.now)) }
{
    put_names(out, true, "r_", names)?;
    let first = names.len() == 0;
    write!(out, "{}done, idle", separator(first))?;
    Ok(())
}

/// What the header has behind its inputs.
pub(crate) fn header_end(alloc: Global, names: &Names) -> Result<String, Memory>
    ensures { IfOk result (λ text. string_bytes text ≡ lines.header_end names.now) }
{
    let mut out = String::new(alloc);
    out.push_str(", ")?;
    put_outputs(&mut out, names)?;
    out.push_str(");")?;
    Ok(out)
}

/// The line that declares the inputs.
pub(crate) fn inputs_line(alloc: Global, ports: &Ports) -> Result<String, Memory>
    requires { 1 ≤ ports.now.inputs }
    ensures { IfOk result (λ text. string_bytes text ≡ lines.inputs_line ports.now.inputs ports.now.names) }
{
    let mut out = String::new(alloc);
    out.push_str("  input ")?;
    put_inputs(&mut out, ports.inputs)?;
    out.push_str(", go")?;
    put_names(&mut out, false, "a_", &ports.names)?;
    out.push_str(";")?;
    Ok(out)
}

/// The line that declares the outputs.
pub(crate) fn outputs_line(alloc: Global, ports: &Ports) -> Result<String, Memory>
    ensures { IfOk result (λ text. string_bytes text ≡ lines.outputs_line ports.now.inputs ports.now.names) }
{
    let mut out = String::new(alloc);
    out.push_str("  output ")?;
    put_outputs(&mut out, &ports.names)?;
    out.push_str(";")?;
    Ok(out)
}

/// The wires of the conditions, as the line of the inner wires has them.
pub(crate) fn conditions_text(alloc: Global, first: bool, names: &Names) -> Result<String, Memory>
    ensures { IfOk result (λ text. string_bytes text ≡ condition_names first names.now) }
{
    let mut out = String::new(alloc);
    put_names(&mut out, first, "c_", names)?;
    Ok(out)
}

/// Writes for each operation that it is acknowledged or has the condition 0, behind `&`.
fn put_each_through(out: &mut String, ports: &Ports) -> Result<(), AllocError>
    ensures { OnOk result (Writes out.old out.new (each_below (λ v. and_text (plain_module ports.now.inputs ports.now.names) true (through_formula v)) (length ports.now.names))) }
{
    let names = &ports.names;
    'operations: for v in 0..names.len() {
        let name = names.get(v);
        write!(out, " & (a_{name} | ~c_{name})")?;
    }
    Ok(())
}

/// The line of the wire that says that all are done.
pub(crate) fn done_line(alloc: Global, ports: &Ports) -> Result<String, Memory>
    ensures { IfOk result (λ text. string_bytes text ≡ lines.done_line ports.now.inputs ports.now.names) }
{
    let mut out = String::new(alloc);
    out.push_str("  assign done = go")?;
    put_each_through(&mut out, ports)?;
    out.push_str(";")?;
    Ok(out)
}

/// Writes for each operation that it isn't acknowledged, behind `&`.
fn put_each_unacknowledged(out: &mut String, ports: &Ports) -> Result<(), AllocError>
    ensures { OnOk result (Writes out.old out.new (each_below (λ v. and_text (plain_module ports.now.inputs ports.now.names) true (Not (Read (Acknowledge v)))) (length ports.now.names))) }
{
    let names = &ports.names;
    'operations: for v in 0..names.len() {
        let name = names.get(v);
        write!(out, " & ~a_{name}")?;
    }
    Ok(())
}

/// The line of the wire that says that nothing goes on.
pub(crate) fn idle_line(alloc: Global, ports: &Ports) -> Result<String, Memory>
    ensures { IfOk result (λ text. string_bytes text ≡ lines.idle_line ports.now.inputs ports.now.names) }
{
    let mut out = String::new(alloc);
    out.push_str("  assign idle = ~go")?;
    put_each_unacknowledged(&mut out, ports)?;
    out.push_str(";")?;
    Ok(out)
}
