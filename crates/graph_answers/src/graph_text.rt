//! The file of a graph text, or the refusal of the text or of the names in it.
ghost use Rattle.std.specs.Prelude.{◌≡◌, ◌≤◌, IfOk, IfErr, length};
ghost use Rattle.pg_text.specs.Text.{IsFileOf};
ghost use Rattle.pg_normal.specs.Denoting.{scenario_names_of};
ghost use Rattle.pg_normal.specs.Naming.{IsScopeOf};
ghost use Rattle.graph_answers.specs.Refusals.{IsTextRefusal, IsNamesRefusal};
ghost use Rattle.refusal_lines.specs.Stops.{IsStop};

use crate::refusing::refuse_names;
use cpog_base::{INPUT_LIMIT, Status};
use pg_normal::{Scope, scope_of};
use pg_text::{File, FileFault, read_file};
use refusal_lines::{Refusal, Stop, refuse};
use std::alloc::Global;

/// The file that a graph text spells.
pub(crate) fn file_of(alloc: Global, bytes: &[u8]) -> Result<File, Stop>
    requires { length bytes.now ≤ INPUT_LIMIT }
    ensures ok { IfOk result (IsFileOf bytes.now) }
    ensures err { IfErr result (IsStop (IsTextRefusal bytes.now)) }
{
    match read_file(alloc, bytes) {
        Ok(file) => Ok(file),
        Err(FileFault::BadLine(line)) => Err(refuse(alloc, Status::Text, &Refusal::Text(line))),
        Err(FileFault::Limit(what, number)) => {
            Err(refuse(alloc, Status::Limit, &Refusal::Limit { what, number }))
        }
        Err(FileFault::Memory) => Err(Stop::Memory),
    }
}

/// The names of a file, where they are in order.
pub(crate) fn names_of(alloc: Global, file: &File) -> Result<Scope, Stop>
    ensures ok { IfOk result (IsScopeOf file.now) }
    ensures scenarios { IfOk result (λ scope. scope.scenarios ≡ scenario_names_of file.now) }
    ensures err { IfErr result (IsStop (IsNamesRefusal file.now)) }
{
    match scope_of(alloc, file) {
        Ok(scope) => Ok(scope),
        Err(fault) => Err(refuse_names(alloc, fault)),
    }
}
