//! The bound with which a search begins.
ghost use Rattle.std.specs.Prelude.{◌≡◌, ◌<◌, ◌≤◌, length, map, IfOk};
ghost use Rattle.std.specs.List.{All};
ghost use Rattle.cpog_base.specs.declared.limits.TheConstants.{BIT_LIMIT};
ghost use Rattle.cpog_merge.specs.Incompatible.{place_at};
ghost use Rattle.cnf_build.specs.Evidence.{evidence_of};
ghost use Rattle.opcode_assign.specs.Searches.{IsCounted};

use cnf_build::Evidence;
use cpog_base::Memory;
use cpog_merge::{ClassList, Place, incompatible_set};
use std::alloc::Global;

/// A number below which no encoding has gates, and what shows that.
#[derive(Drop)]
pub(crate) struct Bound {
    pub lo: u32,
    pub evidence: Evidence,
}

/// The places of these classes.
fn places_of(alloc: Global, classes: &ClassList, taken: &[u32]) -> Result<Vec<Place>, Memory>
    requires { All (λ c. c < length classes.now.columns) taken.now }
    ensures { IfOk result (λ places. places.items ≡ map (place_at classes.now) taken.now) }
{
    let mut places = Vec::new(alloc);
    for k in 0..taken.len() {
        places.push(classes.place(taken[k]))?;
    }
    Ok(places)
}

/// How many classes need different signals, less the bits of a code, or 0 where there are no more of them than bits.
pub(crate) fn counted_bound(alloc: Global, classes: &ClassList, bits: u8) -> Result<Bound, Memory>
    ensures { IfOk result (λ b. IsCounted classes.now bits b.lo (evidence_of b.evidence)) }
{
    // That there are few classes is known once they are counted.
    let _count = classes.count();
    let taken = incompatible_set(alloc, classes)?;
    let bits = usize::from(bits);
    if taken.len() <= bits {
        return Ok(Bound {
            lo: 0,
            evidence: Evidence::Zero,
        });
    }
    let places = places_of(alloc, classes, &taken)?;
    Ok(Bound {
        lo: (taken.len() - bits) as u32,
        evidence: Evidence::Count(places),
    })
}
