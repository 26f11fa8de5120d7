ghost use Rattle.std.specs.Prelude.{◌≡◌, ◌<◌, length};
ghost use Rattle.netlist_verilog.specs.Module.{AreNames, IsModule, module_gate_limit};

use cpog_base::Names;
use handshake_eqs::Netlist;
use std::marker::Model;

/// The netlist of a controller with a name for each of its operations, which has fewer than 262144 gates.
#[derive(Drop)]
pub struct Module {
    names: Names,
    netlist: Netlist,
}

impl Model for Module {
    ghost use Rattle.netlist_verilog.specs.Module.{ModuleValue, IsModule};
    ghost use Rattle.netlist_verilog.specs.Stored.{module_code};

    ghost Value = { ModuleValue };

    ghost coded = { module_code };

    ghost view = { λ m. record { names = m.names; netlist = m.netlist } };

    ghost invariant = { λ m. IsModule (record { names = m.names; netlist = m.netlist }) };
}

impl Module {
    /// The module of a netlist whose operations have these names, in number order.
    pub fn new(names: Names, netlist: Netlist) -> Module
        requires names { AreNames names }
        requires one_name_each { length names ≡ length netlist.conditions }
        requires few_gates { length netlist.gates.gates < module_gate_limit }
        ensures { result ≡ record { names = names; netlist = netlist } }
    {
        // What is asked of a module beyond the clauses above, each of these parts keeps by itself.
        let _named = names.len();
        let _operations = netlist.count();
        let gates = netlist.gates();
        let _inputs = gates.inputs();
        let _gates = gates.gates();
        Module { names, netlist }
    }

    /// The names of the operations, in number order.
    pub fn names(&self) -> &Names
        ensures names { result.now ≡ self.now.names }
        ensures module { IsModule self.now }
    {
        &self.names
    }

    /// The netlist.
    pub fn netlist(&self) -> &Netlist
        ensures { result.now ≡ self.now.netlist }
    {
        &self.netlist
    }
}
