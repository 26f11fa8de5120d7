//! Evidence and what is left open, read together: places of a count end where the open part begins.
ghost use Rattle.std.specs.Prelude.{◌≡◌, ◌≤◌, length};
ghost use Rattle.cnf_build.specs.Evidence.{open_of};
ghost use Rattle.line_rows.specs.Reading.{Gives};
ghost use Rattle.evidence_reader.specs.Shown.{shown_value, after_open, open_at, after_evidence, shown_at};

use crate::heads::{EvidenceHead, OpenHead, evidence_head_of, open_head_of};
use crate::log::log_rows;
use crate::places::places_of;
use cnf_build::{Evidence, OpenPart};
use cpog_base::Names;
use line_rows::{Cursor, ReadError};
use std::alloc::Global;

/// What a report shows of the least number of gates, and what it leaves open.
#[derive(Drop)]
pub struct Shown {
    pub evidence: Evidence,
    pub open_part: OpenPart,
}

/// What is left open, behind its first line.
fn open_behind(
    alloc: Global,
    cursor: &mut Cursor<'_>,
    head: OpenHead,
) -> Result<OpenPart, ReadError>
    ensures { Gives (λ o. (open_of o, cursor.new)) result (after_open head cursor.old) }
{
    match head {
        OpenHead::Closed => Ok(OpenPart::Closed),
        OpenHead::Log(template, gates) => {
            let log = log_rows(alloc, cursor)?;
            Ok(OpenPart::Log {
                template,
                gates,
                log,
            })
        }
        OpenHead::Size(template, gates) => Ok(OpenPart::Size { template, gates }),
    }
}

/// What is left open.
#[tactic(auto, unfolding(crate::specs::Shown::open_at))]
fn open_rows(alloc: Global, cursor: &mut Cursor<'_>, limit: u32) -> Result<OpenPart, ReadError>
    ensures { Gives (λ o. (open_of o, cursor.new)) result (open_at limit cursor.old) }
{
    let line = cursor.line()?;
    let Some(head) = open_head_of(line, limit) else {
        return Err(cursor.bad());
    };
    open_behind(alloc, cursor, head)
}

/// The evidence behind its first line, and what is left open.
fn shown_behind(
    alloc: Global,
    cursor: &mut Cursor<'_>,
    names: &Names,
    limit: u32,
    head: EvidenceHead,
) -> Result<Shown, ReadError>
    requires { length names.now ≤ 256 }
    ensures { Gives (λ s. (shown_value s, cursor.new)) result (after_evidence names.now limit head cursor.old) }
{
    match head {
        EvidenceHead::Zero => {
            let open_part = open_rows(alloc, cursor, limit)?;
            Ok(Shown {
                evidence: Evidence::Zero,
                open_part,
            })
        }
        EvidenceHead::Count => {
            let (places, opening) = places_of(alloc, cursor, names, limit)?;
            let open_part = open_behind(alloc, cursor, opening)?;
            Ok(Shown {
                evidence: Evidence::Count(places),
                open_part,
            })
        }
        EvidenceHead::Refutation(template, gates) => {
            let log = log_rows(alloc, cursor)?;
            let open_part = open_rows(alloc, cursor, limit)?;
            Ok(Shown {
                evidence: Evidence::Refutation {
                    template,
                    gates,
                    log,
                },
                open_part,
            })
        }
    }
}

/// The evidence and the open part that the next lines spell, with names of operations and numbers of gates below the
/// limit.
///
/// # Errors
///
/// `BadLine` with the first line that may not stand there, and `Memory` where none is left.
#[tactic(auto, unfolding(crate::specs::Shown::shown_at))]
pub fn shown_rows(
    alloc: Global,
    cursor: &mut Cursor<'_>,
    names: &Names,
    limit: u32,
) -> Result<Shown, ReadError>
    requires { length names.now ≤ 256 }
    ensures { Gives (λ s. (shown_value s, cursor.new)) result (shown_at names.now limit cursor.old) }
{
    let line = cursor.line()?;
    let Some(head) = evidence_head_of(line, limit) else {
        return Err(cursor.bad());
    };
    shown_behind(alloc, cursor, names, limit, head)
}
