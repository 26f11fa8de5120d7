ghost use Rattle.cpog_outside.specs.Laws.{HasRoomToCapacity, SourceIsSteady};

/// In memory, where no call is told to fail: a sink takes without a fault as many bytes as it still holds, and no read
/// of a source fails.
pub fn memory_is_quiet()
    ensures sink { HasRoomToCapacity }
    ensures source { SourceIsSteady }
{}
