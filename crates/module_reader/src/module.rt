//! A module is read, in a longer text or as a whole one.
ghost use Rattle.std.specs.Prelude.{◌≡◌, ◌≤◌, ◌<◌, ◌^◌, IfOk, IfErr, length, map};
ghost use Rattle.cpog_base.specs.declared.limits.TheConstants.{BIT_LIMIT};
ghost use Rattle.line_text.specs.Lines.{lines_of};
ghost use Rattle.netlist_verilog.specs.Rows.{module_lines};
ghost use Rattle.line_rows.specs.Reading.{Gives, whole};
ghost use Rattle.module_reader.specs.Fits.{IsWires};
ghost use Rattle.module_reader.specs.Modules.{IsPorts, netlist_at, no_netlist, declared_at, undeclared_at, body_at, module_at};
ghost use Rattle.module_reader.specs.Rows.{arcs_at};
ghost use Rattle.module_reader.specs.Modules as modules;
ghost use Rattle.module_reader.specs.Values.{ports_value, declared_value};
ghost use Rattle.module_reader.specs.Faults.{IsFaultOf};

use crate::assembly::netlist_of;
use crate::ends::{ends_rows, last_rows};
use crate::ports::{Ports, ports_rows};
use crate::printed::done_line;
use crate::requests::requests_rows;
use crate::rows::{arcs_rows, conditions_rows, gates_rows};
use crate::wires::{Declared, wires_of};
use cpog_base::{Memory, Names, OpSet};
use gate_core::{GateList, Ref};
use handshake_eqs::Netlist;
use line_rows::{Cursor, ReadError, behind};
use netlist_verilog::Module;
use std::alloc::Global;

/// Why a module could not be read.
#[derive(Clone, Copy, Debug, PartialEq, Eq)]
pub enum ModuleFault {
    /// The number of the first bad line.
    BadLine(u32),
    Memory,
}

/// The arc wires, a line for each that was declared.
fn wires_rows(
    alloc: Global,
    cursor: &mut Cursor<'_>,
    ports: &Ports,
    declared: &Declared,
) -> Result<Vec<Vec<Option<Ref>>>, ReadError>
    requires ports { IsPorts (ports_value ports.now) }
    requires wires { IsWires ports.now.inputs ports.now.names (declared_value declared.now) }
    ensures { Gives (λ rows. (map (λ row. row.items) rows.items, cursor.new)) result (arcs_at ports.now.inputs declared.now.gates (modules.is_declared (map (λ row. row.items) declared.now.arcs.items)) (length ports.now.names) cursor.old) }
{
    arcs_rows(alloc, cursor, ports.inputs, declared.gates, &declared.arcs)
}

/// The requests, where the arc wires were declared so.
fn waits_rows(
    alloc: Global,
    cursor: &mut Cursor<'_>,
    ports: &Ports,
    declared: &Declared,
) -> Result<Vec<OpSet>, ReadError>
    requires ports { IsPorts (ports_value ports.now) }
    requires wires { IsWires ports.now.inputs ports.now.names (declared_value declared.now) }
    ensures { Gives (λ sets. (sets.items, cursor.new)) result (modules.requests_at ports.now.names (map (λ row. row.items) declared.now.arcs.items) cursor.old) }
{
    requests_rows(alloc, cursor, &ports.names, &declared.arcs)
}

/// The netlist, where the inner wires were declared so.
#[tactic(auto, unfolding(crate::specs::Modules::netlist_at))]
fn netlist_rows(
    alloc: Global,
    cursor: &mut Cursor<'_>,
    ports: &Ports,
    declared: &Declared,
) -> Result<Netlist, ReadError>
    requires ports { IsPorts (ports_value ports.now) }
    requires wires { IsWires ports.now.inputs ports.now.names (declared_value declared.now) }
    ensures { Gives (λ n. (n, cursor.new)) result (netlist_at ports.now.inputs ports.now.names (declared_value declared.now) cursor.old) }
{
    let inputs = ports.inputs;
    let gates = gates_rows(alloc, cursor, inputs, declared.gates)?;
    let conditions = conditions_rows(alloc, cursor, inputs, declared.gates, &ports.names)?;
    let wires = wires_rows(alloc, cursor, ports, declared)?;
    let waits = waits_rows(alloc, cursor, ports, declared)?;
    ends_rows(alloc, cursor, ports)?;
    let Ok(netlist) = netlist_of(alloc, gates, &conditions, &wires, &waits) else {
        return Err(ReadError::Memory);
    };
    Ok(netlist)
}

/// The netlist, from the line of its inner wires on.
fn declared_rows(
    alloc: Global,
    cursor: &mut Cursor<'_>,
    ports: &Ports,
    line: &[u8],
) -> Result<Netlist, ReadError>
    requires { IsPorts (ports_value ports.now) }
    ensures { Gives (λ n. (n, cursor.new)) result (declared_at ports.now.inputs ports.now.names line.now cursor.old) }
{
    let Ok(found) = wires_of(alloc, line, ports) else {
        return Err(ReadError::Memory);
    };
    let Some(declared) = found else {
        return Err(cursor.bad());
    };
    netlist_rows(alloc, cursor, ports, &declared)
}

/// The netlist with nothing in it.
fn empty_netlist(alloc: Global, inputs: u8) -> Result<Netlist, Memory>
    requires some { 1 ≤ inputs }
    requires few { inputs ≤ BIT_LIMIT }
    ensures { IfOk result (λ n. n ≡ no_netlist inputs) }
{
    let gates = GateList::new(alloc, inputs);
    Netlist::new(alloc, gates, 0)
}

/// The netlist with no inner wire, from the line of done on.
fn undeclared_rows(
    alloc: Global,
    cursor: &mut Cursor<'_>,
    ports: &Ports,
    line: &[u8],
) -> Result<Netlist, ReadError>
    requires { IsPorts (ports_value ports.now) }
    ensures { Gives (λ n. (n, cursor.new)) result (undeclared_at ports.now.inputs ports.now.names line.now cursor.old) }
{
    let Ok(text) = done_line(alloc, ports) else {
        return Err(ReadError::Memory);
    };
    if line != text.as_bytes() {
        return Err(cursor.bad());
    }
    last_rows(alloc, cursor, ports)?;
    let Ok(netlist) = empty_netlist(alloc, ports.inputs) else {
        return Err(ReadError::Memory);
    };
    Ok(netlist)
}

/// Whether the line declares inner wires: with an operation there are some.
fn declares(names: &Names, line: &[u8]) -> bool
    ensures { result ≡ modules.declares names.now line.now }
{
    names.len() > 0 || behind(line, b"  wire ").is_some()
}

#[tactic(auto, unfolding(crate::specs::Modules::body_at))]
fn body_rows(alloc: Global, cursor: &mut Cursor<'_>, ports: &Ports) -> Result<Netlist, ReadError>
    requires { IsPorts (ports_value ports.now) }
    ensures { Gives (λ n. (n, cursor.new)) result (body_at ports.now.inputs ports.now.names cursor.old) }
{
    let line = cursor.line()?;
    if declares(&ports.names, line) {
        return declared_rows(alloc, cursor, ports, line);
    }
    undeclared_rows(alloc, cursor, ports, line)
}

/// The module that the next lines are the text of, whatever follows them.
///
/// # Errors
///
/// `BadLine` with the number of the first line that can't stand there, `Memory` where none is left.
#[tactic(auto, unfolding(crate::specs::Modules::module_at))]
pub fn module_rows(alloc: Global, cursor: &mut Cursor<'_>) -> Result<Module, ReadError>
    ensures { Gives (λ m. (m, cursor.new)) result (module_at cursor.old) }
{
    let ports = ports_rows(alloc, cursor)?;
    let netlist = body_rows(alloc, cursor, &ports)?;
    let module = Module::new(ports.names, netlist);
    Ok(module)
}

fn whole_module(alloc: Global, bytes: &[u8]) -> Result<Module, ReadError>
    requires { length bytes.now < 2 ^ 31 }
    ensures { Gives (λ m. m) result (whole module_at (lines_of bytes.now)) }
{
    let mut cursor = Cursor::new(bytes);
    let module = module_rows(alloc, &mut cursor)?;
    cursor.ended()?;
    Ok(module)
}

/// The module that the bytes are the text of.
///
/// # Errors
///
/// `BadLine` with the number of the first bad line, `Memory` where none is left.
pub fn read_module(alloc: Global, bytes: &[u8]) -> Result<Module, ModuleFault>
    requires { length bytes.now < 2 ^ 31 }
    ensures found { IfOk result (λ m. lines_of bytes.now ≡ module_lines m) }
    ensures bad { IfErr result (IsFaultOf (lines_of bytes.now)) }
{
    match whole_module(alloc, bytes) {
        Ok(module) => Ok(module),
        Err(ReadError::BadLine(number)) => Err(ModuleFault::BadLine(number)),
        Err(ReadError::Memory) => Err(ModuleFault::Memory),
    }
}
