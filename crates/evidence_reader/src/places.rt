//! The places of a count, by the names of their operations.
ghost use Rattle.std.specs.Prelude.{◌≡◌, ◌≤◌, ◌<◌, true, codes, length, IfSome};
ghost use Rattle.line_text.specs.Words as words;
ghost use Rattle.line_rows.specs.Words.{behind_of, pair_of, made_of};
ghost use Rattle.line_rows.specs.Reading.{Gives};
ghost use Rattle.evidence_reader.specs.Rows.{known_in, op_of, arc_of, place_in};
ghost use Rattle.evidence_reader.specs.Rows as rows;
ghost use Rattle.evidence_reader.specs.Shown.{places_at};

use crate::heads::{OpenHead, open_head_of};
use cpog_base::Names;
use cpog_defs::types::{OpId, Place};
use line_rows::{Cursor, ReadError, behind, word_at};
use line_text::is_free_name;
use std::alloc::Global;
use std::str;

/// A name as text.
fn text_of(word: &[u8]) -> &str
    requires { words.is_free_name word.now ≡ true }
    ensures { result.now ≡ word.now }
{
    match str::from_utf8(word) {
        Ok(text) => text,
        Err(_) => unreachable!(),
    }
}

/// The number of an operation by its name.
#[tactic(auto, unfolding(crate::specs::Rows::known_in))]
fn known_of(word: &[u8], names: &Names) -> Option<u32>
    ensures number { result ≡ known_in names.now word.now }
    ensures below { IfSome result (λ v. v < length names.now) }
{
    if !is_free_name(word) {
        return None;
    }
    names.find(text_of(word))
}

/// An operation by its name.
fn op_place_of(line: &[u8], names: &Names) -> Option<Place>
    requires { length names.now ≤ 256 }
    ensures { result ≡ behind_of (codes "op ") (made_of op_of (known_in names.now)) line.now }
{
    let word = behind(line, b"op ")?;
    let v = known_of(word, names)?;
    Some(Place::Op(OpId(v as u8)))
}

/// Two different operations by their names.
fn arc_place_of(line: &[u8], names: &Names) -> Option<Place>
    requires { length names.now ≤ 256 }
    ensures { result ≡ behind_of (codes "arc ") (made_of arc_of (pair_of (known_in names.now) (λ _. known_in names.now))) line.now }
{
    let text = behind(line, b"arc ")?;
    let (first, second) = word_at(text)?;
    let u = known_of(first, names)?;
    let v = known_of(second, names)?;
    if u == v {
        return None;
    }
    Some(Place::Arc(OpId(u as u8), OpId(v as u8)))
}

/// The place on its line.
#[tactic(auto, unfolding(crate::specs::Rows::place_in))]
pub fn place_of(line: &[u8], names: &Names) -> Option<Place>
    requires { length names.now ≤ 256 }
    ensures { result ≡ place_in names.now line.now }
{
    if let Some(place) = op_place_of(line, names) {
        return Some(place);
    }
    arc_place_of(line, names)
}

/// Whether a line may be a place: it doesn't begin what is left open.
#[tactic(auto, unfolding(line_rows::specs::Words::behind))]
fn is_member_row(line: &[u8]) -> bool
    ensures { result ≡ rows.is_member_row line.now }
{
    behind(line, b"open ").is_none()
}

/// The places that the next lines spell, up to the first line of what is left open, and what that line says.
pub fn places_of(
    alloc: Global,
    cursor: &mut Cursor<'_>,
    names: &Names,
    limit: u32,
) -> Result<(Vec<Place>, OpenHead), ReadError>
    requires { length names.now ≤ 256 }
    ensures { Gives (λ x. ((x.0.items, x.1), cursor.new)) result (places_at names.now limit cursor.old) }
{
    let mut places = Vec::new(alloc);
    'lines: loop {
        let line = match cursor.line() {
            Ok(line) => line,
            Err(fault) => return Err(fault),
        };
        if !is_member_row(line) {
            let Some(head) = open_head_of(line, limit) else {
                return Err(cursor.bad());
            };
            return Ok((places, head));
        }
        let Some(place) = place_of(line, names) else {
            return Err(cursor.bad());
        };
        let Ok(()) = places.push(place) else {
            return Err(ReadError::Memory);
        };
    }
}
