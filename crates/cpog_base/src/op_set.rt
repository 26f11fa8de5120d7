ghost use Rattle.std.specs.Prelude.{◌≡◌, ◌↔◌, ◌<◌, IsTrue, IfOk, MatchOption, replicate};
ghost use Rattle.std.specs.FinSet as set;
ghost use Rattle.cpog_base.specs.Members.{IsFirst};

use crate::Memory;
use cpog_defs::types::OpId;
use std::alloc::Global;
use std::marker::Model;

/// A set of operations, whose numbers are below 128.
#[derive(Clone, Copy, Debug)]
pub struct OpSet {
    bits: u128,
}

impl Model for OpSet {
    ghost use Rattle.std.specs.Prelude.{◌<◌, ◌^◌};
    ghost use Rattle.cpog_defs.specs.Orders.{Set};
    ghost use Rattle.cpog_defs.specs.Stored.{set_code};
    ghost use Rattle.cpog_base.specs.OpSet.{set_of, word_of};
    ghost use Rattle.cpog_base.specs.OpSetLaws.{word_below-set_below};
    ghost use Rattle.std.proofs.Common.{ap};

    ghost Value = { Set };

    ghost coded = { set_code };

    ghost view = { λ s. set_of s.bits };

    ghost invariant = { λ s. s.bits < 2 ^ 128 };

    ghost inverse = { λ s. record { bits = word_of s } };

    ghost inverse_ok = { λ a h. ap (λ n. record { bits = n }) (word_below-set_below 128 a.bits h) };
}

impl OpSet {
    /// The set with no member.
    pub fn empty() -> OpSet
        ensures { result ≡ set.empty }
    {
        OpSet { bits: 0 }
    }

    /// Whether there is no member.
    pub fn is_empty(&self) -> bool
        ensures { IsTrue result ↔ (self.now ≡ set.empty) }
    {
        self.bits == 0
    }

    /// Whether the operation is a member. No number from 128 on is one.
    pub fn contains(&self, v: OpId) -> bool
        ensures { result ≡ set.contains self.now v.0 }
    {
        v.0 < 128 && (self.bits >> v.0) & 1 == 1
    }

    /// Puts the operation in.
    pub fn insert(&mut self, v: OpId)
        requires { v.0 < 128 }
        ensures { self.new ≡ set.insert self.old v.0 }
    {
        self.bits |= 1 << v.0;
    }

    /// Takes the operation out, where it is in.
    pub fn remove(&mut self, v: OpId)
        ensures { self.new ≡ set.remove self.old v.0 }
    {
        if v.0 < 128 {
            self.bits &= !(1 << v.0);
        }
    }

    /// The members of either set.
    pub fn union(&self, other: &OpSet) -> OpSet
        ensures { result ≡ set.union self.now other.now }
    {
        OpSet {
            bits: self.bits | other.bits,
        }
    }

    /// The members that the other set doesn't have.
    pub fn difference(&self, other: &OpSet) -> OpSet
        ensures { result ≡ set.difference self.now other.now }
    {
        OpSet {
            bits: self.bits & !other.bits,
        }
    }

    /// Whether each member is one of the other set.
    pub fn subset(&self, other: &OpSet) -> bool
        ensures { result ≡ set.is_subset self.now other.now }
    {
        self.bits & !other.bits == 0
    }

    /// The least member, where there is one.
    pub fn first(&self) -> Option<OpId>
        ensures { MatchOption result (self.now ≡ set.empty) (λ v. IsFirst self.now v.0) }
    {
        if self.bits == 0 {
            return None;
        }
        Some(OpId(self.bits.trailing_zeros() as u8))
    }

    /// How many members there are.
    pub fn count(&self) -> u32
        ensures { result ≡ set.len self.now }
    {
        self.bits.count_ones()
    }
}

/// So many sets with no member.
///
/// # Errors
///
/// `Memory` where none is left.
pub fn empty_sets(alloc: Global, count: u8) -> Result<Vec<OpSet>, Memory>
    ensures { IfOk result (λ sets. sets.items ≡ replicate count set.empty) }
{
    Ok(vec![in alloc; OpSet::empty(); usize::from(count)]?)
}
