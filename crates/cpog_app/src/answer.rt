//! The whole answer to words and an input, before anything is written. Each step gives what the next one needs, or stops.
ghost use Rattle.std.specs.Prelude.{◌≡◌, ◌≤◌, IfOk, IfErr, IsTrue, map, length};
ghost use Rattle.std.specs.String.{string_bytes};
ghost use Rattle.cpog_outside.specs.Told.{IsAllOf, LosesFront};
ghost use Rattle.command_words.specs.Ranges.{MayBeNamed};
ghost use Rattle.cpog_app.specs.Allowed.{IsReadRefusal, IsCommandAnswer, IsAllowed};
ghost use Rattle.refusal_lines.specs.Stops.{IsStop};

use command_words::{Command, read_words};
use cpog_base::{Counted, INPUT_LIMIT, LONG_INPUT_LIMIT, Memory, Status};
use cpog_outside::{ReadAllFault, Source, read_all};
use formula_answers::{answer_lrat, answer_solve};
use graph_answers::{answer_cnf, answer_normal, answer_synth};
use refusal_lines::{Answer, Refusal, Stop, refuse};
use report_answers::{answer_check, answer_verilog};
use std::alloc::Global;

/// All that the source has left, where it is within the limit.
fn read_input<S: Source>(alloc: Global, source: &mut S, limit: u32) -> Result<Vec<u8>, Stop>
    ensures all { IfOk result (λ v. IsAllOf (S.left source.old) (S.left source.new) v.items) }
    ensures within { IfOk result (λ v. length v.items ≤ limit) }
    ensures err { IfErr result (IsStop (IsReadRefusal limit
        (record { left = S.left source.old; left_after = S.left source.new; faults = S.faults source.old; faults_after = S.faults source.new; steady = S.steady source.old }))) }
    ensures left { LosesFront (S.left source.old) (S.left source.new) }
    ensures quiet { IsTrue (S.steady source.old) → S.faults source.new ≡ S.faults source.old }
{
    match read_all(alloc, source, limit) {
        Ok(bytes) => Ok(bytes),
        Err(ReadAllFault::ReadFault) => {
            Err(refuse(alloc, Status::ReadFault, &Refusal::ReadFault))
        }
        Err(ReadAllFault::TooLong) => {
            let refusal = Refusal::Limit {
                what: Counted::Input,
                number: limit,
            };
            Err(refuse(alloc, Status::Limit, &refusal))
        }
        Err(ReadAllFault::Memory) => Err(Stop::Memory),
    }
}

/// The answer of a command to what the source has left.
fn answer_command<S: Source>(
    alloc: Global,
    command: Command,
    source: &mut S,
) -> Result<Answer, Stop>
    requires { MayBeNamed command }
    ensures ok { IfOk result (λ a. IsCommandAnswer command
        (record { left = S.left source.old; left_after = S.left source.new; faults = S.faults source.old; faults_after = S.faults source.new; steady = S.steady source.old })
        a.status a.output.items) }
    ensures err { IfErr result (IsStop (IsCommandAnswer command
        (record { left = S.left source.old; left_after = S.left source.new; faults = S.faults source.old; faults_after = S.faults source.new; steady = S.steady source.old }))) }
    ensures left { LosesFront (S.left source.old) (S.left source.new) }
    ensures quiet { IsTrue (S.steady source.old) → S.faults source.new ≡ S.faults source.old }
{
    match command {
        Command::Synth { options } => {
            let bytes = read_input(alloc, source, INPUT_LIMIT)?;
            answer_synth(alloc, options, &bytes)
        }
        Command::Normal => {
            let bytes = read_input(alloc, source, INPUT_LIMIT)?;
            answer_normal(alloc, &bytes)
        }
        Command::Cnf { options } => {
            let bytes = read_input(alloc, source, INPUT_LIMIT)?;
            answer_cnf(alloc, options, &bytes)
        }
        Command::Lrat => {
            let bytes = read_input(alloc, source, LONG_INPUT_LIMIT)?;
            answer_lrat(alloc, &bytes)
        }
        Command::Solve { budget } => {
            let bytes = read_input(alloc, source, LONG_INPUT_LIMIT)?;
            answer_solve(alloc, budget, &bytes)
        }
        Command::Check => {
            let bytes = read_input(alloc, source, LONG_INPUT_LIMIT)?;
            answer_check(alloc, &bytes)
        }
        Command::Verilog => {
            let bytes = read_input(alloc, source, LONG_INPUT_LIMIT)?;
            answer_verilog(alloc, &bytes)
        }
    }
}

/// The answer to the words and the source.
fn answer_words<S: Source>(alloc: Global, words: &[String], source: &mut S) -> Result<Answer, Stop>
    ensures ok { IfOk result (λ a. IsAllowed (map string_bytes words.now)
        (record { left = S.left source.old; left_after = S.left source.new; faults = S.faults source.old; faults_after = S.faults source.new; steady = S.steady source.old })
        a.status a.output.items) }
    ensures err { IfErr result (IsStop (IsAllowed (map string_bytes words.now)
        (record { left = S.left source.old; left_after = S.left source.new; faults = S.faults source.old; faults_after = S.faults source.new; steady = S.steady source.old }))) }
    ensures left { LosesFront (S.left source.old) (S.left source.new) }
    ensures quiet { IsTrue (S.steady source.old) → S.faults source.new ≡ S.faults source.old }
{
    match read_words(words) {
        Some(command) => answer_command(alloc, command, source),
        None => Err(refuse(alloc, Status::Usage, &Refusal::Usage)),
    }
}

/// What is printed for the words and the source, a refusal or not.
pub(crate) fn make_answer<S: Source>(
    alloc: Global,
    words: &[String],
    source: &mut S,
) -> Result<Answer, Memory>
    ensures allowed { IfOk result (λ a. IsAllowed (map string_bytes words.now)
        (record { left = S.left source.old; left_after = S.left source.new; faults = S.faults source.old; faults_after = S.faults source.new; steady = S.steady source.old })
        a.status a.output.items) }
    ensures left { LosesFront (S.left source.old) (S.left source.new) }
    ensures quiet { IsTrue (S.steady source.old) → S.faults source.new ≡ S.faults source.old }
{
    match answer_words(alloc, words, source) {
        Ok(answer) => Ok(answer),
        Err(Stop::Refused(answer)) => Ok(answer),
        Err(Stop::Memory) => Err(Memory),
    }
}
