ghost use Rattle.handshake_eqs.specs.Laws.{NetlistAgreesOverRuns, RunsKeep, StepsAreUnique};

/// Over every run of lawful events, the netlist of an encoding that fits agrees with the state.
pub fn netlist_agrees_over_runs()
    ensures { NetlistAgreesOverRuns }
{}

/// Every run keeps the acknowledged operations closed while running, and some of the scenario's while returning.
pub fn runs_keep()
    ensures { RunsKeep }
{}

/// With distinct codes an event gives one state.
pub fn steps_are_unique()
    ensures { StepsAreUnique }
{}
