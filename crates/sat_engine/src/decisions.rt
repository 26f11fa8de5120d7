//! Which literal is decided next: the variable of the lowest block that has no value and is the most active in it,
//! with the value that it had last. The variables of the clauses that led to a conflict are rewarded, and later
//! rewards count more (Moskewicz et al., Chaff, 2001; as kept in MiniSat, 2003: one step that grows by 1 / 0.95 a
//! conflict, and a binary heap). Kept values are those of Pipatsrisawat and Darwiche, 2007.
//!
//! Only `next` has a contract, and it rests on nothing that is kept here: what comes out of the heap is tested, and at
//! an empty heap the variables are gone through once. So no clause speaks of the heap.
ghost use Rattle.std.specs.Prelude.{◌≡◌, ◌<◌, ◌≤◌, ◌^◌, length, MatchOption};
ghost use Rattle.sat_trail.specs.Trails.{IsUnassigned};
ghost use Rattle.sat_engine.specs.Searches.{AllAssigned};

use crate::preferences::Preferences;
use clause_arena::{ClauseArena, Lit};
use cpog_base::Memory;
use sat_trail::Trail;
use std::alloc::Global;

/// For each variable its activity, the value that it gets when it is decided, its place in the heap, and the conflict
/// at which it was rewarded last; the heap; and how much a reward counts now. The lists by variable have a place 0 that
/// isn't used; the blocks are those of the preferences.
#[derive(Drop)]
pub struct Decisions<'a> {
    preferences: &'a Preferences,
    activities: Vec<f64>,
    phases: Vec<bool>,
    heap: Vec<u32>,
    places: Vec<u32>,
    rewarded: Vec<u32>,
    conflicts: u32,
    step: f64,
}

/// The place of a variable that isn't in the heap.
const NOWHERE: u32 = u32::MAX;

/// A heap of fewer than 2 ^ 32 variables has at most so many layers.
const LAYERS: u32 = 32;

/// A reward counts 1 / 0.95 times as much as one a conflict before.
const DECAY: f64 = 0.95;

/// An activity above this makes all of them smaller.
const LARGE: f64 = 1e100;

const SHRINK: f64 = 1e-100;

/// The literal of the first variable that has no value.
fn first_open(trail: &Trail) -> Option<Lit>
    ensures { MatchOption result (AllAssigned trail.now) (λ l. (l.var ≤ trail.now.variables) × IsUnassigned trail.now.entries l) }
{
    let count = trail.variables();
    'variables: for before in 0..count {
        let lit = Lit::from_var(before + 1, false);
        let Some(_) = trail.value(lit) else {
            return Some(lit);
        };
    }
    None
}

/// The literal of a variable that has this value.
fn of_phase(var: u32, phase: bool) -> Lit
    requires positive { 0 < var }
    requires fits { var < 2 ^ 31 }
    ensures { result.var ≡ var }
{
    Lit::from_var(var, !phase)
}

impl<'a> Decisions<'a> {
    /// Every variable is in the heap.
    pub fn new(
        alloc: Global,
        variables: u32,
        preferences: &'a Preferences,
    ) -> Result<Decisions<'a>, Memory>
        requires { variables < 2 ^ 31 }
    {
        let count = variables as usize + 1;
        let mut order = Decisions {
            preferences,
            activities: vec![in alloc; 0.0; count]?,
            phases: vec![in alloc; true; count]?,
            heap: Vec::with_capacity(alloc, count)?,
            places: vec![in alloc; NOWHERE; count]?,
            rewarded: vec![in alloc; 0; count]?,
            conflicts: 1,
            step: 1.0,
        };
        order.prefer(variables);
        for before in 0..variables {
            order.insert(before + 1);
        }
        Ok(order)
    }

    /// Takes over the first values.
    fn prefer(&mut self, variables: u32) {
        for before in 0..variables as usize {
            if let (Some(slot), Some(phase)) = (
                self.phases.get_mut(before.wrapping_add(1)),
                self.preferences.phases.get(before),
            ) {
                *slot = *phase;
            }
        }
    }

    /// The block of a variable.
    fn block(&self, var: u32) -> u32 {
        match self.preferences.blocks.get((var as usize).wrapping_sub(1)) {
            Some(block) => *block,
            None => u32::MAX,
        }
    }

    /// Whether a variable is decided before another.
    fn comes_before(&self, a: u32, b: u32) -> bool {
        let (first, second) = (self.block(a), self.block(b));
        if first != second {
            return first < second;
        }
        let (Some(x), Some(y)) = (
            self.activities.get(a as usize),
            self.activities.get(b as usize),
        ) else {
            return false;
        };
        *x > *y
    }

    /// Puts a variable at a place of the heap.
    fn put(&mut self, place: u32, var: u32) {
        if let Some(slot) = self.heap.get_mut(place as usize) {
            *slot = var;
        }
        if let Some(slot) = self.places.get_mut(var as usize) {
            *slot = place;
        }
    }

    /// Moves the variable of a place up to where it belongs.
    fn sift_up(&mut self, start: u32) {
        let mut place = start;
        for _ in 0..LAYERS {
            if place == 0 {
                return;
            }
            let parent = (place - 1) / 2;
            let (Some(var), Some(above)) = (
                self.heap.get(place as usize),
                self.heap.get(parent as usize),
            ) else {
                return;
            };
            let (var, above) = (*var, *above);
            if !self.comes_before(var, above) {
                return;
            }
            self.put(place, above);
            self.put(parent, var);
            place = parent;
        }
    }

    /// The child that comes first, if there is one.
    fn first_child(&self, place: u32) -> Option<u32> {
        let left = place.wrapping_mul(2).wrapping_add(1);
        let right = left.wrapping_add(1);
        let Some(first) = self.heap.get(left as usize) else {
            return None;
        };
        let Some(second) = self.heap.get(right as usize) else {
            return Some(left);
        };
        if self.comes_before(*second, *first) {
            Some(right)
        } else {
            Some(left)
        }
    }

    /// Moves the variable of a place down to where it belongs.
    fn sift_down(&mut self, start: u32) {
        let mut place = start;
        for _ in 0..LAYERS {
            let Some(child) = self.first_child(place) else {
                return;
            };
            let (Some(var), Some(below)) = (
                self.heap.get(place as usize),
                self.heap.get(child as usize),
            ) else {
                return;
            };
            let (var, below) = (*var, *below);
            if !self.comes_before(below, var) {
                return;
            }
            self.put(place, below);
            self.put(child, var);
            place = child;
        }
    }

    /// Puts a variable into the heap, unless it is there.
    fn insert(&mut self, var: u32) {
        let Some(place) = self.places.get(var as usize) else {
            return;
        };
        let end = self.heap.len();
        if *place == NOWHERE && end < self.heap.capacity() && end < NOWHERE as usize {
            self.heap.push_reserved(var);
            self.put(end as u32, var);
            self.sift_up(end as u32);
        }
    }

    /// Takes the variable that comes first out of the heap.
    fn pop(&mut self) -> Option<u32> {
        let Some(top) = self.heap.get(0) else {
            return None;
        };
        let top = *top;
        if let Some(last) = self.heap.pop() {
            self.put(0, last);
            self.sift_down(0);
        }
        if let Some(slot) = self.places.get_mut(top as usize) {
            *slot = NOWHERE;
        }
        Some(top)
    }

    /// A literal that has no value; None where every variable has one.
    pub fn next(&mut self, trail: &Trail) -> Option<Lit>
        ensures { MatchOption result (AllAssigned trail.now) (λ l. (l.var ≤ trail.now.variables) × IsUnassigned trail.now.entries l) }
    {
        let count = trail.variables();
        for _ in 0..self.heap.len() {
            let Some(var) = self.pop() else {
                break;
            };
            let phase = match self.phases.get(var as usize) {
                Some(phase) => *phase,
                None => true,
            };
            if var == 0 || var > count {
                continue;
            }
            let lit = of_phase(var, phase);
            if let None = trail.value(lit) {
                return Some(lit);
            }
        }
        first_open(trail)
    }

    /// Rewards a variable, once a conflict.
    fn bump(&mut self, var: u32) {
        let Some(last) = self.rewarded.get_mut(var as usize) else {
            return;
        };
        if *last == self.conflicts {
            return;
        }
        *last = self.conflicts;
        let step = self.step;
        let mut large = false;
        if let Some(activity) = self.activities.get_mut(var as usize) {
            *activity += step;
            large = *activity > LARGE;
        }
        if large {
            self.shrink();
        }
        if let Some(place) = self.places.get(var as usize) {
            let place = *place;
            if place != NOWHERE {
                self.sift_up(place);
            }
        }
    }

    /// Makes all activities smaller, before they are too large for their type.
    fn shrink(&mut self) {
        for activity in self.activities.iter_mut() {
            *activity *= SHRINK;
        }
        self.step *= SHRINK;
    }

    /// Rewards the variables of a clause.
    fn bump_all(&mut self, clause: &[Lit]) {
        for lit in clause {
            self.bump(lit.var());
        }
    }

    /// The variables of the clauses that led to a conflict come earlier from now on.
    pub fn reward(&mut self, arena: &ClauseArena, hints: &[u32])
        requires { length arena.now.clauses < 2 ^ 32 }
    {
        for hint in hints {
            let id = hint.wrapping_sub(1);
            if id < arena.len() {
                self.bump_all(arena.clause(id));
            }
        }
        self.conflicts = self.conflicts.wrapping_add(1);
        self.step = self.step / DECAY;
    }

    /// The variables above a level come back into the heap, and their phases are kept.
    pub fn release(&mut self, trail: &Trail, level: u32) {
        let count = trail.len();
        for back in 0..count {
            let lit = trail.lit(count - 1 - back);
            let var = lit.var();
            if trail.level_of(var) <= level {
                return;
            }
            if let Some(slot) = self.phases.get_mut(var as usize) {
                *slot = !lit.is_negated();
            }
            self.insert(var);
        }
    }
}
