//! The text of a module, line by line into one buffer.
ghost use Rattle.std.specs.Prelude.{◌≡◌, IfOk};
ghost use Rattle.line_text.specs.Lines.{text_of};
ghost use Rattle.netlist_verilog.specs.Rows.{module_lines};
ghost use Rattle.netlist_verilog.specs.Writes.{Writes};

use crate::Module;
use crate::declarations::{put_ports, put_wires};
use crate::equations::{put_arcs, put_conditions, put_done, put_gates, put_idle, put_requests};
use cpog_base::Memory;
use std::alloc::Global;

/// The text of a module, in the time of its length and of the pairs of its operations.
///
/// # Errors
///
/// `Memory` where none is left.
pub fn write_module(alloc: Global, design: &Module) -> Result<Vec<u8>, Memory>
    ensures { IfOk result (λ text. text.items ≡ text_of (module_lines design.now)) }
{
    let out = append_module(String::new(alloc), design)?;
    Ok(out.into_bytes())
}

/// This text with the text of a module behind it, in one buffer. After `Memory` the text is given up.
///
/// # Errors
///
/// `Memory` where none is left.
pub fn append_module(mut text: String, design: &Module) -> Result<String, Memory>
    ensures { IfOk result (λ whole. Writes text whole (text_of (module_lines design.now))) }
{
    put_ports(&mut text, design)?;
    put_wires(&mut text, design)?;
    put_gates(&mut text, design)?;
    put_conditions(&mut text, design)?;
    put_arcs(&mut text, design)?;
    put_requests(&mut text, design)?;
    put_done(&mut text, design)?;
    put_idle(&mut text, design)?;
    text.push_str("endmodule\n")?;
    Ok(text)
}
