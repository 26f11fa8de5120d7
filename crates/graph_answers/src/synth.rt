//! What `synth` answers to a graph text.
ghost use Rattle.std.specs.Prelude.{◌≡◌, ◌≤◌, IfOk, IfErr, length};
ghost use Rattle.graph_answers.specs.Answers.{IsSynthAnswer, IsGraphTextAnswer};
ghost use Rattle.command_words.specs.Ranges.{MayBeAsked};
ghost use Rattle.refusal_lines.specs.Stops.{IsStop};
ghost use Rattle.graph_answers.specs.Synthesis.{report_status};

use crate::encodable::{CodeLength, encodable_of};
use crate::graph_text::file_of;
use crate::synthesis::report_of;
use command_words::SynthOptions;
use cpog_base::{INPUT_LIMIT, Status};
use refusal_lines::{Answer, Stop};
use report_text::{Bound, write_report};
use std::alloc::Global;

/// The status of a report with this bound: the budget was spent where the bound is to be exact and isn't.
fn report_status(exact: bool, bound: Bound) -> Status
    ensures { result ≡ report_status exact bound }
{
    match bound {
        Bound::Between(_, _) if exact => Status::Budget,
        _ => Status::Ok,
    }
}

/// The answer to a graph text: the report of its file.
pub fn answer_synth(alloc: Global, options: SynthOptions, bytes: &[u8]) -> Result<Answer, Stop>
    requires options { MayBeAsked options }
    requires few { length bytes.now ≤ INPUT_LIMIT }
    ensures ok { IfOk result (λ a. IsGraphTextAnswer (IsSynthAnswer options) bytes.now a.status a.output.items) }
    ensures err { IfErr result (IsStop (IsGraphTextAnswer (IsSynthAnswer options) bytes.now)) }
{
    let file = file_of(alloc, bytes)?;
    let asked = CodeLength {
        least: 1,
        said: options.bits,
    };
    let encodable = encodable_of(alloc, asked, file)?;
    let report = report_of(alloc, options, encodable)?;
    let status = report_status(options.exact, report.bound());
    let output = write_report(alloc, &report)?;
    Ok(Answer { status, output })
}
