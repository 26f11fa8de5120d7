//! A clause copied, each literal once. What the copy holds is marked in a table by literal with the stamp of this
//! clause, so a literal is looked up and not searched, and nothing is cleared between clauses: the copy takes time
//! linear in the clause.
ghost use Rattle.std.specs.Prelude.{◌≡◌, ◌+◌, ◌*◌, ◌<◌, ◌≤◌, ◌^◌, [], ℕ, length, slice_index_or, IfOk};
ghost use Rattle.proof_check.specs.Marks.{Represent, IsTable, Within};
ghost use Rattle.sat_engine.specs.Copies.{CopiesOne, IsCopy};

use clause_arena::Lit;
use cpog_base::Memory;

/// Adds a literal unless it is marked, and says whether its opposite is.
fn copy_one(
    lit: Lit,
    variables: u32,
    marks: &mut Vec<u32>,
    stamp: u32,
    into: &mut Vec<Lit>,
) -> Result<bool, Memory>
    requires within { lit.var ≤ variables }
    requires table { IsTable variables marks.old.items stamp }
    requires marked { Represent variables marks.old.items stamp into.old.items }
    ensures copied { IfOk result (λ both. CopiesOne into.old.items into.new.items lit both) }
    ensures table { IsTable variables marks.new.items stamp }
    ensures marked { IfOk result (λ _. Represent variables marks.new.items stamp into.new.items) }
{
    let code = lit.code();
    let other = lit.negated().code();
    if marks[code as usize] == stamp {
        return Ok(false);
    }
    let both = marks[other as usize] == stamp;
    into.push(lit)?;
    marks[code as usize] = stamp;
    Ok(both)
}

/// Copies a clause, each literal once, and says whether it holds a variable in both signs.
pub fn copy_clause(
    clause: &[Lit],
    variables: u32,
    marks: &mut Vec<u32>,
    stamp: u32,
    into: &mut Vec<Lit>,
) -> Result<bool, Memory>
    requires empty { into.old.items ≡ [] }
    requires within { Within variables clause.now }
    requires size { length marks.old.items ≡ 2 * variables + 2 }
    requires fresh { (k : ℕ) → slice_index_or marks.old.items k 0 < stamp }
    ensures copy { IfOk result (λ both. IsCopy clause.now into.new.items both) }
    ensures table { IsTable variables marks.new.items stamp }
{
    let mut both = false;
    for lit in clause {
        if copy_one(*lit, variables, marks, stamp, into)? {
            both = true;
        }
    }
    Ok(both)
}
