ghost use Rattle.netlist_verilog.specs.Laws.{FormulasAreTables, EquationsGiveOutputs, EquationsSettle, LinesHoldNoFeed, TextTellsModule, WiresAreTold, ModulesHaveTheirWires, WiresHaveOneDriver, FormulasAreRead, ReadingIsOne, EquationsAreRead, AssignmentIsOne};

/// The value of a gate's formula is the gate's value by its table.
pub fn formulas_are_tables()
    ensures { FormulasAreTables }
{}

/// Wherever the equations of a module hold, its outputs are those of its netlist.
pub fn equations_give_outputs()
    ensures { EquationsGiveOutputs }
{}

/// On all inputs there are values of the wires under which the equations of a module hold.
pub fn equations_settle()
    ensures { EquationsSettle }
{}

/// No line of a module holds a line feed.
pub fn lines_hold_no_feed()
    ensures { LinesHoldNoFeed }
{}

/// Two modules with the same text are the same module.
pub fn text_tells_module()
    ensures { TextTellsModule }
{}

/// Two wires of a module that are called alike are the same wire.
pub fn wires_are_told()
    ensures { WiresAreTold }
{}

/// What a module declares, assigns and reads are wires of it.
pub fn modules_have_their_wires()
    ensures { ModulesHaveTheirWires }
{}

/// A module declares each wire once. It assigns each inner wire and each output once and no input, and each equation reads only inputs and
/// inner wires that are assigned before it.
pub fn wires_have_one_driver()
    ensures { WiresHaveOneDriver }
{}

/// The text of a formula over the wires of a module is read as this formula, by the grammar of Verilog's expressions.
pub fn formulas_are_read()
    ensures { FormulasAreRead }
{}

/// No text is read as two formulas.
pub fn reading_is_one()
    ensures { ReadingIsOne }
{}

/// The line of an equation over the wires of a module is read as this equation, by the grammar of Verilog's assignments.
pub fn equations_are_read()
    ensures { EquationsAreRead }
{}

/// No line is read as two equations.
pub fn assignment_is_one()
    ensures { AssignmentIsOne }
{}
