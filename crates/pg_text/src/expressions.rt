//! Expressions are read from the front of a line. A name becomes its number at once. `room` is how many levels of
//! nesting are left.
ghost use Rattle.std.specs.Prelude.{◌≡◌, ◌+◌, ◌-◌, ◌^◌, ◌<◌, ◌≤◌, List, ℕ, length, IfOk, IfErr, OnOk, MatchOption, IfSome};
ghost use Rattle.std.specs.List.{position_or_len};
ghost use Rattle.std.specs.Str.{bytes_eq};
ghost use Rattle.cpog_base.specs.Names.{with_text};
ghost use Rattle.pg_text.specs.declared.sign.Sign.TheVariants as signs;
ghost use Rattle.pg_text.specs.Faults.{IsDue};
ghost use Rattle.pg_text.specs.Tokens.{sign as sign_token};
ghost use Rattle.pg_text.specs.Grammar.{graph, row, product, sum, factor, join};
ghost use Rattle.pg_text.specs.Reading.{Lacks, Reads, ReadsMore, ReadsNone};

use crate::conditions::condition_at;
use crate::fault::LineFault;
use crate::sign::{Fixed, Sign};
use crate::tokens::{after_sign, after_word, name_at};
use cpog_base::{Memory, Name, Names};
use pg_algebra::{Expr, ExprList};
use sqlite_items::Boxed;
use std::alloc::Global;

/// The sequence of two or more.
fn sequence_of(mut members: Vec<Expr>) -> Expr
    requires { 2 ≤ length members.items }
    ensures { result ≡ join graph (row product) members.items }
{
    members.shrink_to_fit();
    Expr::Sequence(ExprList::new(members))
}

/// The overlay of two or more.
fn overlay_of(mut members: Vec<Expr>) -> Expr
    requires { 2 ≤ length members.items }
    ensures { result ≡ join graph (row sum) members.items }
{
    members.shrink_to_fit();
    Expr::Overlay(ExprList::new(members))
}

/// The number of an operation, which is the next one where the name is new.
fn number_of(operations: &mut Names, name: &str) -> Result<u32, Memory>
    requires { length operations.old < 2 ^ 32 - 1 }
    ensures number { IfOk result (λ n. n ≡ position_or_len (bytes_eq name.now) (with_text operations.old name.now)) }
    ensures operations { OnOk result (operations.new ≡ with_text operations.old name.now) }
{
    match operations.find(name) {
        Some(number) => Ok(number),
        None => operations.insert(name),
    }
}

/// The reference to an earlier graph, where `@` comes next.
fn reference_at(alloc: Global, bytes: &[u8]) -> Result<Option<(Expr, &[u8])>, LineFault>
    ensures found { IfOk result (λ o. MatchOption o (Lacks (sign_token signs.At) bytes.now) (λ p. (room : ℕ) (names : List (List ℕ)) → Reads graph factor room names bytes.now p.0 names p.1.now)) }
    ensures shorter { IfOk result (λ o. IfSome o (λ p. length p.1.now < length bytes.now)) }
    ensures err { IfErr result (IsDue ((room : ℕ) → ReadsNone graph factor room bytes.now)) }
{
    let Some(after) = after_sign(bytes, Sign::At) else {
        return Ok(None);
    };
    let Some((name, rest)) = name_at(after) else {
        return Err(LineFault::Bad);
    };
    let name = Name::new(alloc, name)?;
    Ok(Some((Expr::Graph(name), rest)))
}

/// The expression in parentheses, where `(` comes next.
#[cycle(expression)]
fn group_at<'a>(
    alloc: Global,
    operations: &mut Names,
    bytes: &'a [u8],
    room: u32,
) -> Result<Option<(Expr, &'a [u8])>, LineFault>
    requires { length operations.old + length bytes.now < 2 ^ 32 - 1 }
    ensures found { IfOk result (λ o. MatchOption o (Lacks (sign_token signs.Open) bytes.now × (operations.new ≡ operations.old)) (λ p. Reads graph factor room operations.old bytes.now p.0 operations.new p.1.now)) }
    ensures numbers { IfOk result (λ o. IfSome o (λ p. length operations.new + length p.1.now ≤ length operations.old + length bytes.now)) }
    ensures shorter { IfOk result (λ o. IfSome o (λ p. length p.1.now < length bytes.now)) }
    ensures err { IfErr result (IsDue (ReadsNone graph factor room bytes.now)) }
{
    let Some(after) = after_sign(bytes, Sign::Open) else {
        return Ok(None);
    };
    if room == 0 {
        return Err(LineFault::Bad);
    }
    let (inside, left) = expression_at(alloc, operations, after, room - 1)?;
    let Some(rest) = after_sign(left, Sign::Close) else {
        return Err(LineFault::Bad);
    };
    Ok(Some((inside, rest)))
}

/// The condition and what it governs, where `[` comes next.
#[cycle(expression)]
fn guard_at<'a>(
    alloc: Global,
    operations: &mut Names,
    bytes: &'a [u8],
    room: u32,
) -> Result<Option<(Expr, &'a [u8])>, LineFault>
    requires { length operations.old + length bytes.now < 2 ^ 32 - 1 }
    ensures found { IfOk result (λ o. MatchOption o (Lacks (sign_token signs.OpenSquare) bytes.now × (operations.new ≡ operations.old)) (λ p. Reads graph factor room operations.old bytes.now p.0 operations.new p.1.now)) }
    ensures numbers { IfOk result (λ o. IfSome o (λ p. length operations.new + length p.1.now ≤ length operations.old + length bytes.now)) }
    ensures shorter { IfOk result (λ o. IfSome o (λ p. length p.1.now < length bytes.now)) }
    ensures err { IfErr result (IsDue (ReadsNone graph factor room bytes.now)) }
{
    let Some(after) = after_sign(bytes, Sign::OpenSquare) else {
        return Ok(None);
    };
    if room == 0 {
        return Err(LineFault::Bad);
    }
    let (condition, left) = condition_at(alloc, after, room - 1)?;
    let Some(next) = after_sign(left, Sign::CloseSquare) else {
        return Err(LineFault::Bad);
    };
    let (governed, rest) = factor_at(alloc, operations, next, room - 1)?;
    let condition = Boxed::new(alloc, condition)?;
    let governed = Boxed::new(alloc, governed)?;
    Ok(Some((Expr::When(condition, governed), rest)))
}

/// What a sequence joins, at the front, and what follows it.
#[cycle(expression)]
fn factor_at<'a>(
    alloc: Global,
    operations: &mut Names,
    bytes: &'a [u8],
    room: u32,
) -> Result<(Expr, &'a [u8]), LineFault>
    requires { length operations.old + length bytes.now < 2 ^ 32 - 1 }
    ensures found { IfOk result (λ p. Reads graph factor room operations.old bytes.now p.0 operations.new p.1.now) }
    ensures numbers { IfOk result (λ p. length operations.new + length p.1.now ≤ length operations.old + length bytes.now) }
    ensures shorter { IfOk result (λ p. length p.1.now < length bytes.now) }
    ensures err { IfErr result (IsDue (ReadsNone graph factor room bytes.now)) }
{
    if let Some((name, rest)) = name_at(bytes) {
        let number = number_of(operations, name)?;
        return Ok((Expr::Op(number), rest));
    }
    if let Some(rest) = after_word(bytes, Fixed::Empty) {
        return Ok((Expr::Empty, rest));
    }
    if let Some(reference) = reference_at(alloc, bytes)? {
        return Ok(reference);
    }
    if let Some(group) = group_at(alloc, operations, bytes, room)? {
        return Ok(group);
    }
    if let Some(guard) = guard_at(alloc, operations, bytes, room)? {
        return Ok(guard);
    }
    Err(LineFault::Bad)
}

/// The sequence that begins with `first`: the others at the front, and what follows them.
#[cycle(expression)]
fn more_factors_at<'a>(
    alloc: Global,
    operations: &mut Names,
    first: Expr,
    bytes: &'a [u8],
    room: u32,
) -> Result<(Expr, &'a [u8]), LineFault>
    requires { length operations.old + length bytes.now < 2 ^ 32 - 1 }
    ensures found { IfOk result (λ p. ReadsMore graph product room operations.old first bytes.now p.0 operations.new p.1.now) }
    ensures numbers { IfOk result (λ p. length operations.new + length p.1.now ≤ length operations.old + length bytes.now) }
    ensures shorter { IfOk result (λ p. length p.1.now < length bytes.now) }
    ensures err { IfErr result (IsDue (ReadsNone graph (row product) room bytes.now)) }
{
    let mut members = Vec::with_capacity(alloc, 2)?;
    members.push(first)?;
    let mut left = bytes;
    'members: loop {
        let (member, after) = factor_at(alloc, operations, left, room)?;
        members.push(member)?;
        match after_sign(after, Sign::Arrow) {
            Some(rest) => left = rest,
            None => return Ok((sequence_of(members), after)),
        }
    }
}

/// The sequence at the front, and what follows it.
#[cycle(expression)]
fn sequence_at<'a>(
    alloc: Global,
    operations: &mut Names,
    bytes: &'a [u8],
    room: u32,
) -> Result<(Expr, &'a [u8]), LineFault>
    requires { length operations.old + length bytes.now < 2 ^ 32 - 1 }
    ensures found { IfOk result (λ p. Reads graph (row product) room operations.old bytes.now p.0 operations.new p.1.now) }
    ensures numbers { IfOk result (λ p. length operations.new + length p.1.now ≤ length operations.old + length bytes.now) }
    ensures shorter { IfOk result (λ p. length p.1.now < length bytes.now) }
    ensures err { IfErr result (IsDue (ReadsNone graph (row product) room bytes.now)) }
{
    let (first, after) = factor_at(alloc, operations, bytes, room)?;
    let Some(others) = after_sign(after, Sign::Arrow) else {
        return Ok((first, after));
    };
    let (whole, rest) = more_factors_at(alloc, operations, first, others, room)?;
    Ok((whole, rest))
}

/// The overlay that begins with `first`: the others at the front, and what follows them.
#[cycle(expression)]
fn more_sequences_at<'a>(
    alloc: Global,
    operations: &mut Names,
    first: Expr,
    bytes: &'a [u8],
    room: u32,
) -> Result<(Expr, &'a [u8]), LineFault>
    requires { length operations.old + length bytes.now < 2 ^ 32 - 1 }
    ensures found { IfOk result (λ p. ReadsMore graph sum room operations.old first bytes.now p.0 operations.new p.1.now) }
    ensures numbers { IfOk result (λ p. length operations.new + length p.1.now ≤ length operations.old + length bytes.now) }
    ensures shorter { IfOk result (λ p. length p.1.now < length bytes.now) }
    ensures err { IfErr result (IsDue (ReadsNone graph (row sum) room bytes.now)) }
{
    let mut members = Vec::with_capacity(alloc, 2)?;
    members.push(first)?;
    let mut left = bytes;
    'members: loop {
        let (member, after) = sequence_at(alloc, operations, left, room)?;
        members.push(member)?;
        match after_sign(after, Sign::Plus) {
            Some(rest) => left = rest,
            None => return Ok((overlay_of(members), after)),
        }
    }
}

/// The expression at the front, and what follows it.
#[cycle(expression)]
pub(crate) fn expression_at<'a>(
    alloc: Global,
    operations: &mut Names,
    bytes: &'a [u8],
    room: u32,
) -> Result<(Expr, &'a [u8]), LineFault>
    requires { length operations.old + length bytes.now < 2 ^ 32 - 1 }
    ensures found { IfOk result (λ p. Reads graph (row sum) room operations.old bytes.now p.0 operations.new p.1.now) }
    ensures numbers { IfOk result (λ p. length operations.new + length p.1.now ≤ length operations.old + length bytes.now) }
    ensures shorter { IfOk result (λ p. length p.1.now < length bytes.now) }
    ensures err { IfErr result (IsDue (ReadsNone graph (row sum) room bytes.now)) }
{
    let (first, after) = sequence_at(alloc, operations, bytes, room)?;
    let Some(others) = after_sign(after, Sign::Plus) else {
        return Ok((first, after));
    };
    let (whole, rest) = more_sequences_at(alloc, operations, first, others, room)?;
    Ok((whole, rest))
}
