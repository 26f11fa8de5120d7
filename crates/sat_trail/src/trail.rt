//! The assignment stack of a solver (Eén and Sörensson, An Extensible SAT-solver, SAT 2003). True literals are pushed
//! as they come; a decision opens a level, and going back to a level pops what is above it. For each variable its level
//! and the clause that gave its value are kept, and for each literal its value, in one byte that is found by the
//! literal's code. A second pointer runs through the stack: what it passed was given out to propagation.
ghost use Rattle.std.specs.Prelude.{◌≡◌, ℕ, ◌+◌, ◌<◌, ◌≤◌, ◌^◌, [], ◌∷◌, ◌++◌, length, IfOk, MatchOption};
ghost use Rattle.std.specs.Bool.{MatchBool};
ghost use Rattle.clause_arena.specs.Clauses.{In, opposite};
ghost use Rattle.sat_trail.specs.Trails.{entry_at, true_lits, IsUnassigned, IsValue, IsTrail, IsCutTo, IsAssigned};

use crate::info::Info;
use crate::value::Value;
use clause_arena::Lit;
use cpog_base::Memory;
use std::alloc::Global;
use std::marker::Model;

/// The true literals in order, by levels. It is seen as a list of entries with the present level, the number of entries
/// that were given out, and the number of variables.
#[derive(Drop)]
pub struct Trail {
    lits: Vec<Lit>,
    values: Vec<Value>,
    infos: Vec<Info>,
    starts: Vec<u32>,
    given: u32,
}

impl Model for Trail {
    ghost use Rattle.std.specs.Prelude.{length, vec_capacity};
    ghost use Rattle.sat_trail.specs.Trails as trails;
    ghost use Rattle.sat_trail.specs.Kept as kept;

    ghost Value = { trails.TrailState };

    ghost view = { λ a. record { entries = kept.entries_of a.lits.items a.infos.items; level = length a.starts.items; given = a.given; variables = length a.infos.items } };

    ghost invariant = { λ a. kept.IsKept a.lits.items a.values.items a.infos.items a.starts.items a.given (vec_capacity a.lits) (vec_capacity a.starts) };
}

impl Trail {
    /// A trail of this many variables with no literal. No other call takes memory. `Memory` also for 2 ^ 30 variables
    /// and more, whose literals have codes past the table's end.
    pub fn new(alloc: Global, variables: u32) -> Result<Trail, Memory>
        ensures empty { IfOk result (λ t. t ≡ record { entries = []; level = 0; given = 0; variables = variables }) }
    {
        if variables >= 1 << 30 {
            return Err(Memory);
        }
        let count = variables as usize;
        let mut values = vec![in alloc; Value::Open; 2 * count + 2]?;
        values[0] = Value::True;
        values[1] = Value::True;
        let none = Info {
            level: 0,
            reason: None,
        };
        Ok(Trail {
            lits: Vec::with_capacity(alloc, count)?,
            values,
            infos: vec![in alloc; none; count]?,
            starts: Vec::with_capacity(alloc, count)?,
            given: 0,
        })
    }

    /// The number of true literals. Its second clause holds of every trail; it stands here to be cited.
    pub fn len(&self) -> u32
        ensures same { result ≡ length self.now.entries }
        ensures valid { IsTrail self.now }
    {
        self.lits.len() as u32
    }

    /// The number of variables, which are 1 to this one.
    pub fn variables(&self) -> u32
        ensures same { result ≡ self.now.variables }
        ensures few { result < 2 ^ 31 }
    {
        self.infos.len() as u32
    }

    /// How many literals are of level 0: they are the first ones.
    pub fn zeros(&self) -> u32
        ensures within { result ≤ length self.now.entries }
        ensures low { (p : ℕ) → p < result → (entry_at self.now.entries p).level ≡ 0 }
        ensures high { (p : ℕ) → result ≤ p → p < length self.now.entries → 0 < (entry_at self.now.entries p).level }
    {
        if self.starts.len() == 0 {
            self.lits.len() as u32
        } else {
            self.starts[0]
        }
    }

    /// The present level: the number of decisions.
    pub fn level(&self) -> u32
        ensures { result ≡ self.now.level }
    {
        self.starts.len() as u32
    }

    /// The literal at a place of the order, from 0.
    pub fn lit(&self, i: u32) -> Lit
        requires { i < length self.now.entries }
        ensures { result ≡ (entry_at self.now.entries i).lit }
    {
        self.lits[i as usize]
    }

    /// The value of a literal, where it has one.
    pub fn value(&self, lit: Lit) -> Option<bool>
        requires { lit.var ≤ self.now.variables }
        ensures { IsValue self.now.entries lit result }
    {
        match self.values[lit.code() as usize] {
            Value::Open => None,
            Value::True => Some(true),
            Value::False => Some(false),
        }
    }

    /// Whether a literal is true.
    #[inline(always)]
    pub fn is_true(&self, lit: Lit) -> bool
        requires { lit.var ≤ self.now.variables }
        ensures { MatchBool result (In lit (true_lits self.now.entries)) (In lit (true_lits self.now.entries) → ⊥) }
    {
        match self.values[lit.code() as usize] {
            Value::True => true,
            Value::Open => false,
            Value::False => false,
        }
    }

    /// Whether a literal is false.
    #[inline(always)]
    pub fn is_false(&self, lit: Lit) -> bool
        requires { lit.var ≤ self.now.variables }
        ensures { MatchBool result (In (opposite lit) (true_lits self.now.entries)) (In (opposite lit) (true_lits self.now.entries) → ⊥) }
    {
        match self.values[lit.code() as usize] {
            Value::False => true,
            Value::Open => false,
            Value::True => false,
        }
    }

    /// The level of a variable that has a value.
    pub fn level_of(&self, var: u32) -> u32
        requires { IsAssigned self.now.entries var }
        ensures { (q : ℕ) → q < length self.now.entries → (entry_at self.now.entries q).lit.var ≡ var → result ≡ (entry_at self.now.entries q).level }
    {
        self.infos[var as usize - 1].level
    }

    /// The place of the clause that gave a variable its value; None where it was decided.
    pub fn reason_of(&self, var: u32) -> Option<u32>
        requires { IsAssigned self.now.entries var }
        ensures { (q : ℕ) → q < length self.now.entries → (entry_at self.now.entries q).lit.var ≡ var → result ≡ (entry_at self.now.entries q).reason }
    {
        self.infos[var as usize - 1].reason
    }

    /// Makes a literal true at the present level.
    #[inline(always)]
    pub fn assign(&mut self, lit: Lit, reason: Option<u32>)
        requires within { lit.var ≤ self.old.variables }
        requires unassigned { IsUnassigned self.old.entries lit }
        ensures grown { self.new ≡ record self.old { entries = self.old.entries ++ (record { lit = lit; level = self.old.level; reason = reason }) ∷ [] } }
        ensures valid { IsTrail self.new }
    {
        let level = self.starts.len() as u32;
        let place = lit.var() as usize - 1;
        let code = lit.code() as usize;
        let other = lit.negated().code() as usize;
        self.values[code] = Value::True;
        self.values[other] = Value::False;
        self.infos[place] = Info { level, reason };
        self.lits.push_reserved(lit);
    }

    /// Makes a literal true at a new level, as its first one.
    pub fn decide(&mut self, lit: Lit)
        requires within { lit.var ≤ self.old.variables }
        requires unassigned { IsUnassigned self.old.entries lit }
        ensures grown { self.new ≡ record self.old { entries = self.old.entries ++ (record { lit = lit; level = self.old.level + 1; reason = None }) ∷ []; level = self.old.level + 1 } }
        ensures valid { IsTrail self.new }
    {
        let place = lit.var() as usize - 1;
        let code = lit.code() as usize;
        let other = lit.negated().code() as usize;
        let start = self.lits.len() as u32;
        self.starts.push_reserved(start);
        let level = self.starts.len() as u32;
        self.values[code] = Value::True;
        self.values[other] = Value::False;
        self.infos[place] = Info {
            level,
            reason: None,
        };
        self.lits.push_reserved(lit);
    }

    /// Gives out the first literal that was not given out; None exactly where all were.
    #[inline(always)]
    pub fn next(&mut self) -> Option<Lit>
        ensures next { MatchOption result ((self.old.given ≡ length self.old.entries) × (self.new ≡ self.old)) (λ l. (self.old.given < length self.old.entries) × (l ≡ (entry_at self.old.entries self.old.given).lit) × (self.new ≡ record self.old { given = self.old.given + 1 })) }
        ensures valid { IsTrail self.new }
    {
        if (self.given as usize) < self.lits.len() {
            let lit = self.lits[self.given as usize];
            self.given += 1;
            Some(lit)
        } else {
            None
        }
    }

    /// Takes back exactly the literals of higher levels. Those that were given out before and are left stay given out.
    pub fn back_to(&mut self, level: u32)
        requires { level ≤ self.old.level }
        ensures cut { IsCutTo self.old self.new level }
        ensures valid { IsTrail self.new }
    {
        if self.starts.len() <= level as usize {
            return;
        }
        let start = self.starts[level as usize];
        'pop: while self.lits.len() > start as usize {
            let Some(lit) = self.lits.pop() else {
                unreachable!()
            };
            let code = lit.code() as usize;
            let other = lit.negated().code() as usize;
            self.values[code] = Value::Open;
            self.values[other] = Value::Open;
        }
        self.starts.truncate(level as usize);
        if self.given > start {
            self.given = start;
        }
    }
}
