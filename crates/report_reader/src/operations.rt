//! The operations and the arcs of a scenario.
ghost use Rattle.std.specs.Prelude.{◌≡◌, true, false, None, Some, ◌<◌, ◌≤◌, ◌+◌, ◌∷◌, [], length, IfSome, IfOk, MatchOption};
ghost use Rattle.std.specs.Option.{option_map};
ghost use Rattle.std.specs.FinSet as set;
ghost use Rattle.cpog_base.specs.Names.{place_of};
ghost use Rattle.netlist_verilog.specs.Module.{AreNames};
ghost use Rattle.report_reader.specs.Lists.{words_after};
ghost use Rattle.report_reader.specs.Operations.{Members, member_from, take_member, has_in, word_to, ends_in, Pair, Written, is_from, arc_from, take_arc, arcs_in, Told, behind_words, behind_arcs};

use crate::names::text_of;
use cpog_base::{Memory, Names, OpId, Scenario};
use line_rows::behind;
use line_text::{first_place, is_free_name};

/// The operation with this name.
pub fn operation_of(names: &Names, word: &[u8]) -> Option<u32>
    requires { AreNames names.now }
    ensures value { result ≡ place_of names.now word.now }
    ensures below { IfSome result (λ v. v < length names.now) }
{
    if !is_free_name(word) {
        return None;
    }
    names.find(text_of(word))
}

/// Gives the scenario the operation with this name, where it may come next, and answers the least that may come then.
fn take_member(scenario: &mut Scenario, least: u8, names: &Names, word: &[u8]) -> Option<u8>
    requires known { AreNames names.now }
    requires few { length names.now ≤ 64 }
    requires count { scenario.old.count ≡ length names.now }
    ensures member { MatchOption result (take_member names.now (record { least = least; ops = scenario.old.ops }) word.now ≡ None) (λ n. take_member names.now (record { least = least; ops = scenario.old.ops }) word.now ≡ Some (record { least = n; ops = scenario.new.ops })) }
    ensures same { scenario.new ≡ record scenario.old { ops = scenario.new.ops } }
{
    let v = operation_of(names, word)? as u8;
    if v < least {
        return None;
    }
    scenario.add_op(OpId(v));
    Some(v + 1)
}

/// The same of the word in turn, and what follows it.
#[tactic(auto, using(crate::proofs::ListLaws::list_stops, crate::proofs::ListLaws::list_goes_on))]
fn next_member<'a>(
    scenario: &mut Scenario,
    least: u8,
    names: &Names,
    more: &'a [u8],
) -> Option<(u8, &'a [u8])>
    requires known { AreNames names.now }
    requires few { length names.now ≤ 64 }
    requires count { scenario.old.count ≡ length names.now }
    ensures words { MatchOption result (words_after (take_member names.now) (record { least = least; ops = scenario.old.ops }) (32 ∷ more.now) ≡ None) (λ x. words_after (take_member names.now) (record { least = least; ops = scenario.old.ops }) (32 ∷ more.now) ≡ words_after (take_member names.now) (record { least = x.0; ops = scenario.new.ops }) x.1.now) }
    ensures shorter { IfSome result (λ x. length x.1.now ≤ length more.now) }
    ensures same { scenario.new ≡ record scenario.old { ops = scenario.new.ops } }
{
    let end = first_place(more, b' ');
    let (word, rest) = more.split_at(end);
    match take_member(scenario, least, names, word) {
        None => None,
        Some(next) => Some((next, rest)),
    }
}

/// Gives the scenario the operations that are named, and tells whether they are a list of such.
fn take_members(scenario: &mut Scenario, names: &Names, text: &[u8]) -> bool
    requires known { AreNames names.now }
    requires few { length names.now ≤ 64 }
    requires count { scenario.old.count ≡ length names.now }
    ensures words { Told result (behind_words (take_member names.now) (record { least = 0; ops = scenario.old.ops }) text.now) scenario.new.ops }
    ensures same { scenario.new ≡ record scenario.old { ops = scenario.new.ops } }
{
    let mut least = 0;
    let mut rest = text;
    while let [first, more @ ..] = rest {
        if *first != b' ' {
            return false;
        }
        let Some((next, after)) = next_member(scenario, least, names, more) else {
            return false;
        };
        least = next;
        rest = after;
    }
    true
}

/// Gives the scenario the operations on their line, and tells whether it is such a line.
#[tactic(auto, unfolding(crate::specs::Operations::has_in))]
pub fn take_has(scenario: &mut Scenario, names: &Names, line: &[u8]) -> bool
    requires known { AreNames names.now }
    requires few { length names.now ≤ 64 }
    requires count { scenario.old.count ≡ length names.now }
    requires none { scenario.old.ops ≡ set.empty }
    ensures value { Told result (has_in names.now line.now) scenario.new.ops }
    ensures same { scenario.new ≡ record scenario.old { ops = scenario.new.ops } }
{
    match behind(line, b"has") {
        None => false,
        Some(rest) => take_members(scenario, names, rest),
    }
}

/// What stands before the first `>`, and what stands behind it.
#[tactic(auto, unfolding(crate::specs::Operations::word_to))]
fn around_arrow(bytes: &[u8]) -> Option<(&[u8], &[u8])>
    ensures { option_map (λ x. (x.0.now, x.1.now)) result ≡ word_to 62 bytes.now }
{
    let end = first_place(bytes, b'>');
    if end < bytes.len() {
        Some((&bytes[..end], &bytes[end + 1..]))
    } else {
        None
    }
}

/// The ends of an arc that is written so.
#[tactic(auto, unfolding(crate::specs::Operations::ends_in))]
pub fn ends_of(names: &Names, word: &[u8]) -> Option<(u32, u32)>
    requires { AreNames names.now }
    ensures value { result ≡ ends_in names.now word.now }
    ensures first { IfSome result (λ x. x.0 < length names.now) }
    ensures second { IfSome result (λ x. x.1 < length names.now) }
{
    let (first, second) = around_arrow(word)?;
    let u = operation_of(names, first)?;
    let v = operation_of(names, second)?;
    Some((u, v))
}

/// The least pair of operations that may come next.
#[derive(Clone, Copy)]
pub struct Least {
    pub first: u8,
    pub second: u8,
}

pub fn may_come(least: Least, u: u8, v: u8) -> bool
    ensures { result ≡ is_from (record { first = least.first; second = least.second }) u v }
{
    least.first < u || (least.first == u && least.second <= v)
}

/// Gives the scenario the arc that is written so, where it may come next, and answers the least that may come then.
fn take_arc(
    scenario: &mut Scenario,
    least: Least,
    names: &Names,
    word: &[u8],
) -> Result<Option<Least>, Memory>
    requires known { AreNames names.now }
    requires few { length names.now ≤ 64 }
    ensures arc { IfOk result (λ o. MatchOption o (take_arc names.now scenario.old.ops (record { least = record { first = least.first; second = least.second }; arcs = scenario.old.arcs }) word.now ≡ None) (λ n. take_arc names.now scenario.old.ops (record { least = record { first = least.first; second = least.second }; arcs = scenario.old.arcs }) word.now ≡ Some (record { least = record { first = n.first; second = n.second }; arcs = scenario.new.arcs }))) }
    ensures same { scenario.new ≡ record scenario.old { arcs = scenario.new.arcs } }
{
    let Some((u, v)) = ends_of(names, word) else {
        return Ok(None);
    };
    let u = u as u8;
    let v = v as u8;
    if !may_come(least, u, v) {
        return Ok(None);
    }
    let ops = scenario.ops();
    if !ops.contains(OpId(u)) {
        return Ok(None);
    }
    if !ops.contains(OpId(v)) {
        return Ok(None);
    }
    scenario.add_arc(OpId(u), OpId(v))?;
    Ok(Some(Least {
        first: u,
        second: v + 1,
    }))
}

/// The same of the word in turn, and what follows it.
fn next_arc<'a>(
    scenario: &mut Scenario,
    least: Least,
    names: &Names,
    more: &'a [u8],
) -> Result<Option<(Least, &'a [u8])>, Memory>
    requires known { AreNames names.now }
    requires few { length names.now ≤ 64 }
    ensures words { IfOk result (λ o. MatchOption o (words_after (take_arc names.now scenario.old.ops) (record { least = record { first = least.first; second = least.second }; arcs = scenario.old.arcs }) (32 ∷ more.now) ≡ None) (λ x. words_after (take_arc names.now scenario.old.ops) (record { least = record { first = least.first; second = least.second }; arcs = scenario.old.arcs }) (32 ∷ more.now) ≡ words_after (take_arc names.now scenario.old.ops) (record { least = record { first = x.0.first; second = x.0.second }; arcs = scenario.new.arcs }) x.1.now)) }
    ensures shorter { IfOk result (λ o. IfSome o (λ x. length x.1.now ≤ length more.now)) }
    ensures same { scenario.new ≡ record scenario.old { arcs = scenario.new.arcs } }
{
    let end = first_place(more, b' ');
    let (word, rest) = more.split_at(end);
    match take_arc(scenario, least, names, word) {
        Err(_) => Err(Memory),
        Ok(None) => Ok(None),
        Ok(Some(next)) => Ok(Some((next, rest))),
    }
}

/// Gives the scenario the arcs that are written, and tells whether they are a list of such.
fn take_arcs(scenario: &mut Scenario, names: &Names, text: &[u8]) -> Result<bool, Memory>
    requires known { AreNames names.now }
    requires few { length names.now ≤ 64 }
    ensures words { IfOk result (λ b. Told b (behind_arcs names.now scenario.old.ops (record { least = record { first = 0; second = 0 }; arcs = scenario.old.arcs }) text.now) scenario.new.arcs) }
    ensures same { scenario.new ≡ record scenario.old { arcs = scenario.new.arcs } }
{
    let mut least = Least {
        first: 0,
        second: 0,
    };
    let mut rest = text;
    while let [first, more @ ..] = rest {
        if *first != b' ' {
            return Ok(false);
        }
        let found = next_arc(scenario, least, names, more)?;
        let Some((next, after)) = found else {
            return Ok(false);
        };
        least = next;
        rest = after;
    }
    Ok(true)
}

/// Gives the scenario the arcs on their line, and tells whether it is such a line.
#[tactic(auto, unfolding(crate::specs::Operations::arcs_in))]
pub fn take_arc_list(scenario: &mut Scenario, names: &Names, line: &[u8]) -> Result<bool, Memory>
    requires known { AreNames names.now }
    requires few { length names.now ≤ 64 }
    requires none { scenario.old.arcs ≡ [] }
    ensures value { IfOk result (λ b. Told b (arcs_in names.now scenario.old.ops line.now) scenario.new.arcs) }
    ensures same { scenario.new ≡ record scenario.old { arcs = scenario.new.arcs } }
{
    match behind(line, b"arcs") {
        None => Ok(false),
        Some(rest) => take_arcs(scenario, names, rest),
    }
}
