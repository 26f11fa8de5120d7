//! Literals.
ghost use Rattle.std.specs.Prelude.{◌≡◌, ◌≢◌, ◌<◌, ◌≤◌, ◌+◌, ◌*◌, ◌^◌, ◌⊎◌, MatchOption, pos, negsuc};
ghost use Rattle.clause_arena.specs.Clauses.{opposite};
ghost use Rattle.clause_arena.specs.Lits.{lit_of, signed, code_of};

use std::marker::Model;

/// A variable, from 1 to 2 ^ 31 - 1, or its complement. It is kept as twice its variable, and one more for a
/// complement.
#[derive(Clone, Copy, Debug, PartialEq, Eq)]
pub struct Lit {
    code: u32,
}

impl Model for Lit {
    ghost use Rattle.std.specs.Prelude.{◌≤◌};
    ghost use Rattle.clause_arena.specs.Clauses as clauses;
    ghost use Rattle.clause_arena.specs.Lits.{lit_of_code, code_of, code_of-lit_of_code};

    ghost Value = { clauses.Lit };

    ghost view = { λ l. lit_of_code l.code };

    ghost invariant = { λ l. 2 ≤ l.code };

    ghost inverse = { λ v. record { code = code_of v } };

    ghost inverse_ok = { λ a h. λ i. record { code = code_of-lit_of_code a.code i } };
}

impl Lit {
    /// The literal that DIMACS CNF writes as this number. None is written as 0, nor as the least i32.
    pub fn new(n: i32) -> Option<Lit>
        ensures { MatchOption result ((n ≡ pos 0) ⊎ (n ≡ negsuc 2147483647)) (λ l. (n ≢ pos 0) × (n ≢ negsuc 2147483647) × (l ≡ lit_of n)) }
    {
        if n == 0 || n == i32::MIN {
            return None;
        }
        Some(Lit::from_var(n.unsigned_abs(), n < 0))
    }

    /// The variable, or its complement where negated.
    #[inline(always)]
    pub fn from_var(var: u32, negated: bool) -> Lit
        requires positive { 0 < var }
        requires fits { var < 2 ^ 31 }
        ensures { result ≡ record { var = var; negated = negated } }
    {
        Lit {
            code: if negated { 2 * var + 1 } else { 2 * var },
        }
    }

    /// The number that DIMACS CNF writes for it.
    pub fn number(self) -> i32
        ensures { result ≡ signed self }
    {
        let var = self.var() as i32;
        if self.is_negated() { -var } else { var }
    }

    /// Its variable.
    #[inline(always)]
    pub fn var(self) -> u32
        ensures same { result ≡ self.var }
        ensures positive { 0 < result }
        ensures fits { result < 2 ^ 31 }
    {
        self.code / 2
    }

    /// Whether it is a complement.
    #[inline(always)]
    pub fn is_negated(self) -> bool
        ensures { result ≡ self.negated }
    {
        self.code % 2 == 1
    }

    /// Twice the variable, and one more for a complement: a place in a table of literals.
    #[inline(always)]
    pub fn code(self) -> u32
        ensures same { result ≡ code_of self }
        ensures positive { 1 < result }
        ensures lower { 2 * self.var ≤ result }
        ensures upper { result ≤ 2 * self.var + 1 }
    {
        self.code
    }

    /// The complement of it.
    #[inline(always)]
    pub fn negated(self) -> Lit
        ensures { result ≡ opposite self }
    {
        Lit::from_var(self.var(), !self.is_negated())
    }
}
