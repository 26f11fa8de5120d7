//! What the check of a log keeps between lines.
ghost use Rattle.std.specs.Prelude.{◌≡◌, ◌+◌, ◌*◌, ◌<◌, ◌≤◌, ℕ, IfOk, length, slice_index_or};
ghost use Rattle.proof_check.specs.Lives.{Fits};
ghost use Rattle.proof_check.specs.Marks.{IsTable};
ghost use Rattle.proof_check.specs.Verdicts.{IsLineVerdict};

use crate::adding::add_break;
use crate::live::remove;
use crate::log::{LineRef, Log};
use crate::near::Near;
use crate::verdict::LineVerdict;
use clause_arena::Cnf;
use cpog_base::Memory;
use std::alloc::Global;
use std::marker::Model;

/// How many lines of a log were done, which of the formula's clauses and of the additions are live, and the marks of
/// literals that are false. It fits one formula and one log.
#[derive(Drop)]
pub struct Scratch {
    variables: u32,
    done: u32,
    clauses_live: Vec<bool>,
    lines_live: Vec<bool>,
    marks: Vec<u32>,
    stamp: u32,
    near: Near,
}

impl Model for Scratch {
    ghost use Rattle.proof_check.specs.Lives as lives;
    ghost use Rattle.proof_check.specs.Marks as tables;

    ghost Value = { lives.ScratchState };

    ghost view = { λ s. record { variables = s.variables; done = s.done; clauses_live = s.clauses_live.items; lines_live = s.lines_live.items } };

    ghost invariant = { λ s. tables.IsTable s.variables s.marks.items s.stamp };
}

impl Scratch {
    /// Before the first line.
    ///
    /// # Errors
    ///
    /// `Memory` where none is left.
    pub fn new(alloc: Global, formula: &Cnf, log: &Log) -> Result<Scratch, Memory>
        ensures { IfOk result (λ s. Fits formula.now.variables formula.now.clauses.clauses log.now.lines s 0) }
    {
        let clauses = formula.clauses.len();
        let mut clauses_live = Vec::new(alloc);
        clauses_live.resize(clauses as usize, true)?;
        let mut lines_live = Vec::new(alloc);
        lines_live.resize(log.len() as usize, false)?;
        let mut marks = Vec::new(alloc);
        marks.resize(2 * formula.variables as usize + 2, 0)?;
        let near = Near::new(alloc, clauses, log)?;
        Ok(Scratch {
            variables: formula.variables,
            done: 0,
            clauses_live,
            lines_live,
            marks,
            stamp: 0,
            near,
        })
    }
}

/// A stamp that no mark has. The marks are cleared once in 2 ^ 32 lines.
fn next_stamp(marks: &mut Vec<u32>, stamp: u32) -> u32
    requires { (k : ℕ) → slice_index_or marks.old.items k 0 ≤ stamp }
    ensures size { length marks.new.items ≡ length marks.old.items }
    ensures fresh { (k : ℕ) → slice_index_or marks.new.items k 0 < result }
{
    if stamp < u32::MAX {
        return stamp + 1;
    }
    for i in 0..marks.len() {
        marks[i] = 0;
    }
    1
}

/// Whether the next line follows; if not, the first hint that breaks the rule. It takes no memory, and its cost is that of
/// the line's own literals and hints. A refused line leaves the scratch fit to try the line again.
pub fn check_line(formula: &Cnf, log: &Log, scratch: &mut Scratch, index: u32) -> LineVerdict
    requires fits { Fits formula.now.variables formula.now.clauses.clauses log.now.lines scratch.old index }
    requires inside { index < length log.now.lines }
    ensures { IsLineVerdict formula.now.variables formula.now.clauses.clauses log.now.lines index scratch.new result }
{
    match log.line(index) {
        LineRef::Del { ids } => {
            remove(
                formula,
                log,
                &mut scratch.clauses_live,
                &mut scratch.lines_live,
                &scratch.near,
                ids,
            );
            scratch.done += 1;
            LineVerdict::Follows
        }
        LineRef::Add { id, lits, hints } => {
            let stamp = next_stamp(&mut scratch.marks, scratch.stamp);
            scratch.stamp = stamp;
            match add_break(
                formula,
                log,
                &scratch.clauses_live,
                &scratch.lines_live,
                &scratch.near,
                &mut scratch.marks,
                stamp,
                id,
                lits,
                hints,
            ) {
                Some(hint) => LineVerdict::Refused(hint),
                None => {
                    scratch.lines_live[index as usize] = true;
                    scratch.done += 1;
                    LineVerdict::Follows
                }
            }
        }
    }
}
