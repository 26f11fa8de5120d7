//! What is promised of first assignments.
ghost use Rattle.opcode_assign.specs.Laws.{FirstAssignmentsAgree};

/// Two first assignments of the same orders and as many bits are one.
pub fn first_assignments_agree()
    ensures { FirstAssignmentsAgree }
{}
