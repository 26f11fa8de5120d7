//! The first lines of evidence and of what is left open.
ghost use Rattle.std.specs.Prelude.{◌≡◌, codes};
ghost use Rattle.line_rows.specs.Words.{behind_of, made_of};
ghost use Rattle.evidence_reader.specs.Rows.{kind_in, template_in, evidence_head_in, open_head_in, open_log_of, open_size_of};

use gate_template::Template;
use line_rows::{behind, number_of, word_at};

/// What the first line of evidence says.
#[derive(Clone, Copy, Debug, PartialEq, Eq)]
pub enum EvidenceHead {
    Zero,
    Count,
    Refutation(Template, u32),
}

/// What the first line of an open part says.
#[derive(Clone, Copy, Debug, PartialEq, Eq)]
pub enum OpenHead {
    Closed,
    Log(Template, u32),
    Size(Template, u32),
}

/// The template of a number.
#[tactic(auto, unfolding(crate::specs::Rows::kind_in))]
fn kind_of(word: &[u8]) -> Option<Template>
    ensures { result ≡ kind_in word.now }
{
    let n = number_of(word, 4)?;
    if n == 1 {
        return Some(Template::First);
    }
    if n == 2 {
        return Some(Template::Second);
    }
    if n == 3 {
        return Some(Template::Third);
    }
    None
}

/// A template and its number of gates, below the limit.
#[tactic(auto, unfolding(crate::specs::Rows::template_in))]
fn template_of(text: &[u8], limit: u32) -> Option<(Template, u32)>
    ensures { result ≡ template_in limit text.now }
{
    let (word, rest) = word_at(text)?;
    let template = kind_of(word)?;
    let gates = number_of(rest, u64::from(limit))?;
    Some((template, gates as u32))
}

/// What a first line of evidence says.
#[tactic(auto, unfolding(crate::specs::Rows::evidence_head_in))]
pub fn evidence_head_of(line: &[u8], limit: u32) -> Option<EvidenceHead>
    ensures { result ≡ evidence_head_in limit line.now }
{
    if line == b"evidence zero".as_slice() {
        return Some(EvidenceHead::Zero);
    }
    if line == b"evidence count".as_slice() {
        return Some(EvidenceHead::Count);
    }
    let rest = behind(line, b"evidence refutation ")?;
    let (template, gates) = template_of(rest, limit)?;
    Some(EvidenceHead::Refutation(template, gates))
}

/// A first line of a log that is open.
fn open_log_head_of(line: &[u8], limit: u32) -> Option<OpenHead>
    ensures { result ≡ behind_of (codes "open log ") (made_of open_log_of (template_in limit)) line.now }
{
    let rest = behind(line, b"open log ")?;
    let (template, gates) = template_of(rest, limit)?;
    Some(OpenHead::Log(template, gates))
}

/// A first line of a template that is too large.
fn open_size_head_of(line: &[u8], limit: u32) -> Option<OpenHead>
    ensures { result ≡ behind_of (codes "open size ") (made_of open_size_of (template_in limit)) line.now }
{
    let rest = behind(line, b"open size ")?;
    let (template, gates) = template_of(rest, limit)?;
    Some(OpenHead::Size(template, gates))
}

/// What a first line of an open part says.
#[tactic(auto, unfolding(crate::specs::Rows::open_head_in))]
pub fn open_head_of(line: &[u8], limit: u32) -> Option<OpenHead>
    ensures { result ≡ open_head_in limit line.now }
{
    if line == b"open none".as_slice() {
        return Some(OpenHead::Closed);
    }
    if let Some(head) = open_log_head_of(line, limit) {
        return Some(head);
    }
    open_size_head_of(line, limit)
}
