//! What `normal` answers to a graph text.
ghost use Rattle.std.specs.Prelude.{◌≤◌, IfOk, IfErr, length};
ghost use Rattle.graph_answers.specs.Answers.{IsNormalAnswer, IsGraphTextAnswer};
ghost use Rattle.refusal_lines.specs.Stops.{IsStop};

use crate::graph_text::{file_of, names_of};
use cpog_base::{INPUT_LIMIT, Status};
use pg_normal::{forms_in, write_forms};
use refusal_lines::{Answer, Stop};
use std::alloc::Global;

/// The answer to a graph text: the normal forms of its file.
pub fn answer_normal(alloc: Global, bytes: &[u8]) -> Result<Answer, Stop>
    requires { length bytes.now ≤ INPUT_LIMIT }
    ensures ok { IfOk result (λ a. IsGraphTextAnswer IsNormalAnswer bytes.now a.status a.output.items) }
    ensures err { IfErr result (IsStop (IsGraphTextAnswer IsNormalAnswer bytes.now)) }
{
    let file = file_of(alloc, bytes)?;
    let scope = names_of(alloc, &file)?;
    let forms = forms_in(alloc, &file, &scope)?;
    let output = write_forms(alloc, &file, &scope, &forms)?;
    Ok(Answer {
        status: Status::Ok,
        output,
    })
}
