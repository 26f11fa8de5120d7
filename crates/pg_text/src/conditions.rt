//! Conditions are read from the front of a line. `room` is how many levels of nesting are left.
ghost use Rattle.std.specs.Prelude.{◌≡◌, ◌<◌, ◌≤◌, [], length, IfOk, IfErr, MatchOption, IfSome};
ghost use Rattle.pg_text.specs.declared.sign.Sign.TheVariants as signs;
ghost use Rattle.pg_text.specs.Faults.{IsDue};
ghost use Rattle.pg_text.specs.Tokens.{sign as sign_token};
ghost use Rattle.pg_text.specs.Grammar.{condition, row, product, sum, factor, join};
ghost use Rattle.pg_text.specs.Reading.{Lacks, Reads, ReadsMore, ReadsNone};

use crate::fault::LineFault;
use crate::sign::Sign;
use crate::tokens::{after_sign, bit_at, name_at};
use cpog_base::Name;
use pg_algebra::{Cond, CondList};
use sqlite_items::Boxed;
use std::alloc::Global;

/// The condition that each of two or more holds.
fn all_of(mut members: Vec<Cond>) -> Cond
    requires { 2 ≤ length members.items }
    ensures { result ≡ join condition (row product) members.items }
{
    members.shrink_to_fit();
    Cond::And(CondList::new(members))
}

/// The condition that one of two or more holds.
fn any_of(mut members: Vec<Cond>) -> Cond
    requires { 2 ≤ length members.items }
    ensures { result ≡ join condition (row sum) members.items }
{
    members.shrink_to_fit();
    Cond::Or(CondList::new(members))
}

/// The negated operand, where `!` comes next.
#[cycle(condition)]
fn negation_at<'a>(
    alloc: Global,
    bytes: &'a [u8],
    room: u32,
) -> Result<Option<(Cond, &'a [u8])>, LineFault>
    ensures found { IfOk result (λ o. MatchOption o (Lacks (sign_token signs.Not) bytes.now) (λ p. Reads condition factor room [] bytes.now p.0 [] p.1.now)) }
    ensures shorter { IfOk result (λ o. IfSome o (λ p. length p.1.now < length bytes.now)) }
    ensures err { IfErr result (IsDue (ReadsNone condition factor room bytes.now)) }
{
    let Some(after) = after_sign(bytes, Sign::Not) else {
        return Ok(None);
    };
    if room == 0 {
        return Err(LineFault::Bad);
    }
    let (operand, rest) = operand_at(alloc, after, room - 1)?;
    let negated = Boxed::new(alloc, operand)?;
    Ok(Some((Cond::Not(negated), rest)))
}

/// The condition in parentheses, where `(` comes next.
#[cycle(condition)]
fn group_at<'a>(
    alloc: Global,
    bytes: &'a [u8],
    room: u32,
) -> Result<Option<(Cond, &'a [u8])>, LineFault>
    ensures found { IfOk result (λ o. MatchOption o (Lacks (sign_token signs.Open) bytes.now) (λ p. Reads condition factor room [] bytes.now p.0 [] p.1.now)) }
    ensures shorter { IfOk result (λ o. IfSome o (λ p. length p.1.now < length bytes.now)) }
    ensures err { IfErr result (IsDue (ReadsNone condition factor room bytes.now)) }
{
    let Some(after) = after_sign(bytes, Sign::Open) else {
        return Ok(None);
    };
    if room == 0 {
        return Err(LineFault::Bad);
    }
    let (inside, left) = condition_at(alloc, after, room - 1)?;
    let Some(rest) = after_sign(left, Sign::Close) else {
        return Err(LineFault::Bad);
    };
    Ok(Some((inside, rest)))
}

/// The operand at the front, and what follows it.
#[cycle(condition)]
fn operand_at<'a>(alloc: Global, bytes: &'a [u8], room: u32) -> Result<(Cond, &'a [u8]), LineFault>
    ensures found { IfOk result (λ p. Reads condition factor room [] bytes.now p.0 [] p.1.now) }
    ensures shorter { IfOk result (λ p. length p.1.now < length bytes.now) }
    ensures err { IfErr result (IsDue (ReadsNone condition factor room bytes.now)) }
{
    if let Some((name, rest)) = name_at(bytes) {
        let name = Name::new(alloc, name)?;
        return Ok((Cond::Param(name), rest));
    }
    if let Some((bit, rest)) = bit_at(bytes) {
        return Ok((Cond::Bit(bit), rest));
    }
    if let Some(negation) = negation_at(alloc, bytes, room)? {
        return Ok(negation);
    }
    if let Some(group) = group_at(alloc, bytes, room)? {
        return Ok(group);
    }
    Err(LineFault::Bad)
}

/// The row of `&` that begins with `first`: the others at the front, and what follows them.
#[cycle(condition)]
fn more_operands_at<'a>(
    alloc: Global,
    first: Cond,
    bytes: &'a [u8],
    room: u32,
) -> Result<(Cond, &'a [u8]), LineFault>
    ensures found { IfOk result (λ p. ReadsMore condition product room [] first bytes.now p.0 [] p.1.now) }
    ensures shorter { IfOk result (λ p. length p.1.now < length bytes.now) }
    ensures err { IfErr result (IsDue (ReadsNone condition (row product) room bytes.now)) }
{
    let mut members = Vec::with_capacity(alloc, 2)?;
    members.push(first)?;
    let mut left = bytes;
    'members: loop {
        let (member, after) = operand_at(alloc, left, room)?;
        members.push(member)?;
        match after_sign(after, Sign::And) {
            Some(rest) => left = rest,
            None => return Ok((all_of(members), after)),
        }
    }
}

/// The row of `&` at the front, and what follows it.
#[cycle(condition)]
fn conjunction_at<'a>(
    alloc: Global,
    bytes: &'a [u8],
    room: u32,
) -> Result<(Cond, &'a [u8]), LineFault>
    ensures found { IfOk result (λ p. Reads condition (row product) room [] bytes.now p.0 [] p.1.now) }
    ensures shorter { IfOk result (λ p. length p.1.now < length bytes.now) }
    ensures err { IfErr result (IsDue (ReadsNone condition (row product) room bytes.now)) }
{
    let (first, after) = operand_at(alloc, bytes, room)?;
    let Some(others) = after_sign(after, Sign::And) else {
        return Ok((first, after));
    };
    let (whole, rest) = more_operands_at(alloc, first, others, room)?;
    Ok((whole, rest))
}

/// The row of `|` that begins with `first`: the others at the front, and what follows them.
#[cycle(condition)]
fn more_conjunctions_at<'a>(
    alloc: Global,
    first: Cond,
    bytes: &'a [u8],
    room: u32,
) -> Result<(Cond, &'a [u8]), LineFault>
    ensures found { IfOk result (λ p. ReadsMore condition sum room [] first bytes.now p.0 [] p.1.now) }
    ensures shorter { IfOk result (λ p. length p.1.now < length bytes.now) }
    ensures err { IfErr result (IsDue (ReadsNone condition (row sum) room bytes.now)) }
{
    let mut members = Vec::with_capacity(alloc, 2)?;
    members.push(first)?;
    let mut left = bytes;
    'members: loop {
        let (member, after) = conjunction_at(alloc, left, room)?;
        members.push(member)?;
        match after_sign(after, Sign::Or) {
            Some(rest) => left = rest,
            None => return Ok((any_of(members), after)),
        }
    }
}

/// The condition at the front, and what follows it.
#[cycle(condition)]
pub(crate) fn condition_at<'a>(
    alloc: Global,
    bytes: &'a [u8],
    room: u32,
) -> Result<(Cond, &'a [u8]), LineFault>
    ensures found { IfOk result (λ p. Reads condition (row sum) room [] bytes.now p.0 [] p.1.now) }
    ensures shorter { IfOk result (λ p. length p.1.now < length bytes.now) }
    ensures err { IfErr result (IsDue (ReadsNone condition (row sum) room bytes.now)) }
{
    let (first, after) = conjunction_at(alloc, bytes, room)?;
    let Some(others) = after_sign(after, Sign::Or) else {
        return Ok((first, after));
    };
    let (whole, rest) = more_conjunctions_at(alloc, first, others, room)?;
    Ok((whole, rest))
}
