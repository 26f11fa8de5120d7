//! The literals of one line of a log.
ghost use Rattle.std.specs.Prelude.{◌≡◌, ◌<◌, ◌++◌, ◌∷◌, [], ℕ, Bool, IfOk};
ghost use Rattle.clause_arena.specs.Clauses.{Clause};
ghost use Rattle.dimacs_text.specs.Keeping.{HoldsLits, IsLitsFor, IsLitFitting, IsKept};

use clause_arena::Lit;
use cpog_base::Memory;

/// They are kept, or passed over where the formula has more variables than are taken and the log is only judged.
#[derive(Drop)]
pub enum LineLits {
    Kept(Vec<Lit>),
    Passed,
}

impl LineLits {
    /// No literal.
    pub fn clear(&mut self)
        ensures holds { HoldsLits self.new [] }
        ensures kind { (variables : ℕ) → IsLitsFor variables self.old → IsLitsFor variables self.new }
        ensures kept { IsKept self.old → IsKept self.new }
    {
        match self {
            LineLits::Kept(lits) => lits.clear(),
            LineLits::Passed => {}
        }
    }

    /// One literal more.
    #[inline(always)]
    pub fn take(&mut self, n: u64, negated: bool) -> Result<(), Memory>
        requires positive { 0 < n }
        requires fits { IsLitFitting n self.old }
        ensures holds { IfOk result (λ _. (ls : Clause) → HoldsLits self.old ls → HoldsLits self.new (ls ++ record { var = n; negated = negated } ∷ [])) }
        ensures kind { IfOk result (λ _. (variables : ℕ) → IsLitsFor variables self.old → IsLitsFor variables self.new) }
        ensures kept { IfOk result (λ _. IsKept self.old → IsKept self.new) }
    {
        match self {
            LineLits::Kept(lits) => lits.push(Lit::from_var(n as u32, negated))?,
            LineLits::Passed => {}
        }
        Ok(())
    }

    /// The literals that are kept.
    #[inline(always)]
    pub fn as_slice(&self) -> &[Lit]
        ensures { (ls : Clause) → IsKept self.now → HoldsLits self.now ls → result.now ≡ ls }
    {
        match self {
            LineLits::Kept(lits) => lits.as_slice(),
            LineLits::Passed => &[],
        }
    }
}
