//! The Verilog text of a controller's netlist (a small subset of IEEE 1364-2005).
//!
//! A module is a netlist with a name for each operation. Its text is a list of lines, `module_lines`: what it
//! declares, and its equations, each an assignment of a formula to a wire. A formula has a text and a value: by the
//! grammar of Verilog's expressions the text is read as this formula alone, and each wire has a name of its own.
//! Each wire is declared once, and each but the inputs is assigned once, by an equation that reads only inputs and inner
//! wires that are assigned before it.
//! `write_module` is promised to give exactly these lines, no two modules have the same text, and wherever the printed
//! equations hold, the outputs are those that the netlist settles to.
//! Names and lines are those of `line_text`, netlists those of `handshake_eqs`.
#![tactic(auto)]

mod declarations;
mod equations;
mod laws;
mod module;
mod signal_name;
#[cfg(test)]
mod tests;
mod writing;

pub use laws::{
    assignment_is_one, equations_are_read, equations_give_outputs, equations_settle,
    formulas_are_read, formulas_are_tables, lines_hold_no_feed, modules_have_their_wires,
    reading_is_one, text_tells_module, wires_are_told, wires_have_one_driver,
};
pub use module::Module;
pub use signal_name::SignalName;
pub use writing::{append_module, write_module};
