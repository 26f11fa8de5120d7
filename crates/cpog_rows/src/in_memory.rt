//! What a caller of the program's one call gets from its clauses: over ends in memory a run fails only where its
//! output has no room.
ghost use Rattle.std.specs.Prelude.{◌≡◌, ◌≢◌, ◌⊎◌, ◌≤◌, [], length, map, true, Some};
ghost use Rattle.std.specs.String.{string_bytes};
ghost use Rattle.cpog_outside.specs.Stores.{room_of};
ghost use Rattle.command_words.specs.Words.{command_of};
ghost use Rattle.cpog_app.specs.Allowed.{Ends};
ghost use Rattle.cpog_app.specs.Complete.{IsGoodRun, IsAnswered};

use cpog_app::run_cpog;
use cpog_base::Status;
use cpog_outside::{MemSink, PlainSource};
use std::alloc::Global;

/// Runs the words on bytes in memory that they refuse for no cause, into a sink in memory.
pub fn run_in_memory(
    alloc: Global,
    words: &[String],
    source: &mut PlainSource,
    sink: &mut MemSink,
) -> Status
    requires good { IsGoodRun (map string_bytes words.now) source.old }

    // What was printed is what the words and these bytes allow: whole, or a front of it for which the sink had no room.
    ensures ends { Ends (map string_bytes words.now)
        (record { left = Some source.old; left_after = Some source.new; faults = 0; faults_after = 0; steady = true })
        (record { taken = Some sink.old.bytes; taken_after = Some sink.new.bytes; faults = sink.old.plan.faults; faults_after = sink.new.plan.faults; room = room_of sink.old })
        result }

    // But for that, it is the whole answer or want of memory, and no fault is counted where what the sink then has fits.
    ensures complete { result ≢ Status.WriteFault → IsAnswered (command_of (map string_bytes words.now)) result ⊎ (result ≡ Status.Memory) }
    ensures quiet { result ≢ Status.WriteFault → sink.old.plan.failing ≡ [] → length sink.new.bytes ≤ sink.old.capacity →
        sink.new.plan.faults ≡ sink.old.plan.faults }
{
    run_cpog(alloc, words, source, sink)
}
