//! Propagation along the lists: what is done at one node, along one list, and along the lists of all literals that
//! became false. A node whose clause isn't read touches its link and one value alone.
ghost use Rattle.std.specs.Prelude.{◌≡◌, ◌≢◌, ℕ, ◌+◌, ◌-◌, ◌*◌, ◌%◌, ◌<◌, ◌≤◌, ◌^◌, [], length, slice_set};
ghost use Rattle.std.specs.List.{swap};
ghost use Rattle.clause_arena.specs.Clauses.{In, opposite};
ghost use Rattle.clause_arena.specs.Clauses as clauses;
ghost use Rattle.sat_trail.specs.Trails.{true_lits, lit_at};
ghost use Rattle.clause_arena.specs.Arenas.{clause_at};
ghost use Rattle.clause_arena.specs.Lits.{code_of};
ghost use Rattle.watch_lists.specs.Watched.{IsReplacement, IsOpenBetween, IsRelinked, place_of, sibling, AreSameListed, ArePendingFrom, count_left, AreRearranged};
ghost use Rattle.watch_lists.specs.Steps.{AtNode, AtList, AreFit, IsStep, IsSameOrMore, IsExtended, IsVisit, IsRun};

use crate::link::Link;
use crate::links::relink;
use crate::propagation::Propagation;
use crate::step::Step;
use clause_arena::{ClauseArena, Lit};
use sat_trail::Trail;

/// Multiplied by it, numbers in a row are scattered over all of their type (Knuth, The Art of Computer Programming,
/// volume 3, 6.4).
const SCATTER: u32 = 2654435769;

/// Clauses with fewer literals behind the watched ones are gone through from the third on.
const FEW: usize = 5;

/// A place of a clause from 2 on, another one for each clause and for each length of the trail. From a fixed place,
/// literals that stay false would be passed over again and again.
fn first_place(len: usize, id: u32, passed: u32) -> usize
    requires two { 2 ≤ len }
    ensures low { 2 ≤ result }
    ensures high { result ≤ len }
{
    let others = len - 2;
    if others < FEW {
        return 2;
    }
    let turn = passed.wrapping_mul(SCATTER) ^ id.wrapping_mul(SCATTER);
    let skipped = (turn as usize).wrapping_mul(others) >> 32;
    if skipped < others { 2 + skipped } else { 2 }
}

/// The first literal from one place up to another that isn't false.
#[inline(always)]
fn first_open(clause: &[Lit], trail: &Trail, start: usize, end: usize) -> Option<usize>
    requires within { (l : clauses.Lit) → In l clause.now → l.var ≤ trail.now.variables }
    requires end { end ≤ length clause.now }
    ensures { IsOpenBetween clause.now (true_lits trail.now.entries) start end result }
{
    for i in start..end {
        if !trail.is_false(clause[i]) {
            return Some(i);
        }
    }
    None
}

/// A literal from the third on that isn't false.
pub fn replacement(clause: &[Lit], trail: &Trail, id: u32) -> Option<usize>
    requires within { (l : clauses.Lit) → In l clause.now → l.var ≤ trail.now.variables }
    requires two { 2 ≤ length clause.now }
    ensures { IsReplacement clause.now (true_lits trail.now.entries) result }
{
    let start = first_place(clause.len(), id, trail.len());
    match first_open(clause, trail, start, clause.len()) {
        Some(place) => Some(place),
        None => first_open(clause, trail, 2, start),
    }
}

/// Exchanges a watched literal for this one, at another place of the clause.
pub fn move_watch(
    links: &mut [Link],
    arena: &mut ClauseArena,
    id: u32,
    before: u32,
    node: u32,
    place: usize,
    head: u32,
    lit: Lit,
)
    requires few { length links.old < 2 ^ 32 }
    requires before { before < length links.old }
    requires node { node < length links.old }
    requires pair { sibling node < length links.old }
    requires before_apart { before ≢ node }
    requires clause { id < length arena.old.clauses }
    requires two { 2 ≤ length (clause_at arena.old.clauses id) }
    requires place { place < length (clause_at arena.old.clauses id) }
    requires code { head ≡ code_of lit }
    requires head { head < length links.old }
    requires head_apart { head ≢ before }
    requires node_apart { head ≢ node }
    ensures relinked { IsRelinked links.old links.new before node lit }
    ensures clauses { arena.new.clauses ≡ slice_set arena.old.clauses id (swap (clause_at arena.old.clauses id) (node % 2) place) }
    ensures spare_clauses { arena.new.spare_clauses ≡ arena.old.spare_clauses }
    ensures spare_literals { arena.new.spare_literals ≡ arena.old.spare_literals }
{
    let mut clause = arena.clause_mut(id);
    clause.swap(node as usize % 2, place);
    relink(links, before, node, head, lit);
}

/// One node: it stays where its other literal is true, or goes to the list of a literal that isn't false; else that
/// other literal becomes true, or the clause is false.
pub fn step(
    links: &mut [Link],
    heads: u32,
    arena: &mut ClauseArena,
    trail: &mut Trail,
    lit: Lit,
    before: u32,
    node: u32,
) -> Step
    requires few { length links.old < 2 ^ 32 }
    requires at { AtNode heads links.old arena.old.clauses trail.old lit before node }
    ensures sets { AreRearranged arena.old.clauses arena.new.clauses }
    ensures listed { AreSameListed heads links.old links.new }
    ensures grown { IsSameOrMore heads links.old arena.old.clauses trail.old trail.new }
    ensures outcome { IsStep heads links.new arena.new.clauses trail.new lit before node (count_left links.old before) result }
{
    let other = links[node as usize].other;
    if trail.is_true(other) {
        return Step::Kept;
    }
    let id = (node - heads) / 2;
    match replacement(arena.clause(id), trail, id) {
        Some(place) => {
            let watched = arena.clause(id)[place];
            move_watch(
                links,
                arena,
                id,
                before,
                node,
                place,
                watched.code(),
                watched,
            );
            Step::Moved
        }
        None => {
            if trail.is_false(other) {
                Step::Conflict(id)
            } else {
                trail.assign(other, Some(id));
                Step::Kept
            }
        }
    }
}

/// Goes through the list of a literal that is false now: the number of a clause that is false throughout. It stays a
/// function of its own, for the registers.
#[inline(never)]
pub fn visit(
    links: &mut [Link],
    heads: u32,
    arena: &mut ClauseArena,
    trail: &mut Trail,
    lit: Lit,
) -> Option<u32>
    requires few { length links.old < 2 ^ 32 }
    requires at { AtList heads links.old arena.old.clauses trail.old lit (code_of lit) }
    ensures sets { AreRearranged arena.old.clauses arena.new.clauses }
    ensures listed { AreSameListed heads links.old links.new }
    ensures grown { IsExtended heads links.old arena.old.clauses trail.old trail.new }
    ensures given { trail.new.given ≡ trail.old.given }
    ensures outcome { IsVisit heads links.new arena.new.clauses trail.new result }
{
    let mut before = lit.code();
    'list: loop {
        let node = links[before as usize].next;
        if node == 0 {
            return None;
        }
        match step(links, heads, arena, trail, lit, before, node) {
            Step::Kept => before = node,
            Step::Moved => {}
            Step::Conflict(id) => return Some(id),
        }
    }
}

/// Goes through the lists of all literals that became false.
pub fn run(
    links: &mut [Link],
    heads: u32,
    arena: &mut ClauseArena,
    trail: &mut Trail,
) -> Propagation
    requires few { length links.old < 2 ^ 32 }
    requires fit { AreFit heads links.old arena.old.clauses trail.old trail.old.given }
    requires pending { ArePendingFrom trail.old trail.old.given }
    ensures sets { AreRearranged arena.old.clauses arena.new.clauses }
    ensures listed { AreSameListed heads links.old links.new }
    ensures grown { IsExtended heads links.old arena.old.clauses trail.old trail.new }
    ensures given { trail.old.given ≤ trail.new.given }
    ensures outcome { IsRun heads links.new arena.new.clauses trail.new result }
{
    'given: while let Some(lit) = trail.next() {
        if let Some(id) = visit(links, heads, arena, trail, lit.negated()) {
            return Propagation::Conflict(id);
        }
    }
    Propagation::Done
}
