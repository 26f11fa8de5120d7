ghost use Rattle.module_reader.specs.Laws.{ModulesAreRows};

/// Modules are read by rows.
pub fn modules_are_rows()
    ensures { ModulesAreRows }
{}
