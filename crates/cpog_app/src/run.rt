//! The one call that the program makes.
ghost use Rattle.std.specs.Prelude.{◌≡◌, ◌≢◌, ◌⊎◌, ℕ, List, IsTrue, Some, map};
ghost use Rattle.std.specs.String.{string_bytes};
ghost use Rattle.cpog_outside.specs.Causes.{Rose};
ghost use Rattle.cpog_outside.specs.Told.{LosesFront};
ghost use Rattle.cpog_app.specs.Allowed.{Ends};
ghost use Rattle.cpog_app.specs.Complete.{IsGoodRun, IsAnswered};
ghost use Rattle.command_words.specs.Words.{command_of};

use crate::answer::make_answer;
use cpog_base::Status;
use cpog_outside::{Sink, Source, write_all};
use std::alloc::Global;

/// Runs the command that the words name, which are the arguments without the program's name. It reads the source where
/// the command does, and builds its whole output before the first write.
///
/// The status is `Ok` with what the command prints, `Budget` with a report whose bounds are not equal although the words
/// say `--exact`, and `Usage`, `Text`, `Names`, `Cyclic`, `Equal` or `Limit` with the
/// line that says why. It is `ReadFault` where the source failed, `WriteFault` where the sink did, and `Memory` where none
/// is left.
pub fn run_cpog<S: Source, K: Sink>(
    alloc: Global,
    words: &[String],
    source: &mut S,
    sink: &mut K,
) -> Status
    // What was printed is what the words and the input allow at this status: whole, or a front of it where the sink failed.
    // A sink with room for it doesn't fail.
    ensures ends { Ends (map string_bytes words.now)
        (record { left = S.left source.old; left_after = S.left source.new; faults = S.faults source.old; faults_after = S.faults source.new; steady = S.steady source.old })
        (record { taken = K.taken sink.old; taken_after = K.taken sink.new; faults = K.faults sink.old; faults_after = K.faults sink.new; room = K.room sink.old })
        result }

    // A fault comes only where the outside failed in this call.
    ensures read_fault { result ≡ Status.ReadFault → Rose (S.faults source.old) (S.faults source.new) }
    ensures write_fault { result ≡ Status.WriteFault → Rose (K.faults sink.old) (K.faults sink.new) }

    // What is left of the input ended it before.
    ensures left { LosesFront (S.left source.old) (S.left source.new) }

    // A steady source doesn't fail.
    ensures steady { IsTrue (S.steady source.old) → result ≢ Status.ReadFault }
    ensures quiet_source { IsTrue (S.steady source.old) → S.faults source.new ≡ S.faults source.old }

    // Where no refusal has a cause and no count rises, it is the whole answer or want of memory.
    ensures complete { (told : List ℕ) → S.left source.old ≡ Some told → IsGoodRun (map string_bytes words.now) told →
        ¬ Rose (S.faults source.old) (S.faults source.new) → ¬ Rose (K.faults sink.old) (K.faults sink.new) →
        IsAnswered (command_of (map string_bytes words.now)) result ⊎ (result ≡ Status.Memory) }
{
    run(alloc, words, source, sink)
}

/// The same, without what follows of it.
fn run<S: Source, K: Sink>(alloc: Global, words: &[String], source: &mut S, sink: &mut K) -> Status
    ensures ends { Ends (map string_bytes words.now)
        (record { left = S.left source.old; left_after = S.left source.new; faults = S.faults source.old; faults_after = S.faults source.new; steady = S.steady source.old })
        (record { taken = K.taken sink.old; taken_after = K.taken sink.new; faults = K.faults sink.old; faults_after = K.faults sink.new; room = K.room sink.old })
        result }
    ensures read_fault { result ≡ Status.ReadFault → Rose (S.faults source.old) (S.faults source.new) }
    ensures write_fault { result ≡ Status.WriteFault → Rose (K.faults sink.old) (K.faults sink.new) }
    ensures left { LosesFront (S.left source.old) (S.left source.new) }
    ensures steady { IsTrue (S.steady source.old) → result ≢ Status.ReadFault }
    ensures quiet_source { IsTrue (S.steady source.old) → S.faults source.new ≡ S.faults source.old }
{
    match make_answer(alloc, words, source) {
        Ok(answer) => match write_all(sink, answer.output.as_slice()) {
            Ok(()) => answer.status,
            Err(_) => Status::WriteFault,
        },
        Err(_) => Status::Memory,
    }
}
