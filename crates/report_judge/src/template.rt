//! The templates that logs are about.
ghost use Rattle.std.specs.Prelude.{◌≡◌, ◌↔◌, ◌+◌, ◌≤◌, ℕ, IsTrue, length, IfOk};
ghost use Rattle.clause_arena.specs.Arenas.{literals};
ghost use Rattle.cnf_build.specs.Sizes.{IsAsked};
ghost use Rattle.gate_template.specs.Templates.{template};
ghost use Rattle.proof_check.specs.Verdicts.{IsLogVerdict};
ghost use Rattle.report_judge.specs.Known.{template_variables};

use cnf_build::{Template, build, template_size};
use cpog_base::{Memory, Pattern, TEMPLATE_LIMIT};
use cpog_merge::ClassList;
use proof_check::{Log, LogVerdict, check_log};
use std::alloc::Global;

/// Whether a template is small enough to be made.
pub(crate) fn is_small(
    kind: Template,
    classes: &ClassList,
    given: &[Pattern],
    bits: u8,
    gates: u32,
) -> bool
    requires { IsAsked given.now bits gates classes.now.columns }
    ensures { IsTrue result ↔ (literals (template kind given.now bits gates classes.now.columns) ≤ TEMPLATE_LIMIT) }
{
    template_size(kind, classes, given, bits, gates).literals <= u64::from(TEMPLATE_LIMIT)
}

/// What a log says of a template. The formula is gone when it returns.
pub(crate) fn follow(
    alloc: Global,
    kind: Template,
    classes: &ClassList,
    given: &[Pattern],
    bits: u8,
    gates: u32,
    log: &Log,
) -> Result<LogVerdict, Memory>
    requires asked { IsAsked given.now bits gates classes.now.columns }
    requires size { literals (template kind given.now bits gates classes.now.columns) ≤ TEMPLATE_LIMIT }
    ensures { IfOk result (λ v. IsLogVerdict (template_variables given.now bits gates classes.now.columns) (template kind given.now bits gates classes.now.columns) log.now.lines v) }
{
    let formula = build(alloc, kind, classes, given, bits, gates)?;
    check_log(alloc, &formula, log)
}
