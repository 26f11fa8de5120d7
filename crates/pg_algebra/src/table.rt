//! A table has the value of a condition under each of the 64 valuations of six parameters, in one word: bit n is the
//! value under valuation n, and bit k of n is the bit of parameter k. So a condition is computed by word operations.
ghost use Rattle.std.specs.Prelude.{◌≡◌, ◌<◌, ◌^◌, ℕ, not, ◌&&◌, ◌||◌};
ghost use Rattle.std.specs.Bool.{MatchBool};
ghost use Rattle.cpog_defs.specs.Codes.{bit};
ghost use Rattle.pg_algebra.specs.Tables.{with_param, Changes, Stays};

use cpog_base::PARAM_LIMIT;

/// The values of a condition: bit n is its value under valuation n.
#[derive(Clone, Copy, Debug, PartialEq, Eq)]
pub struct Table(pub u64);

/// How far apart two valuations stand that differ in parameter k alone.
fn distance(k: u8) -> u32
    requires { k < PARAM_LIMIT }
    ensures weight { result ≡ 2 ^ k }
    ensures bound { result < 64 }
{
    1 << k
}

impl Table {
    /// The table of a constant.
    pub fn constant(value: bool) -> Table
        ensures { (n : ℕ) → n < 64 → bit result.0 n ≡ value }
    {
        if value { Table(u64::MAX) } else { Table(0) }
    }

    /// The table of parameter k.
    pub fn of_param(k: u8) -> Table
        requires { k < PARAM_LIMIT }
        ensures { (n : ℕ) → n < 64 → bit result.0 n ≡ bit n k }
    {
        match k {
            0 => Table(0xAAAA_AAAA_AAAA_AAAA),
            1 => Table(0xCCCC_CCCC_CCCC_CCCC),
            2 => Table(0xF0F0_F0F0_F0F0_F0F0),
            3 => Table(0xFF00_FF00_FF00_FF00),
            4 => Table(0xFFFF_0000_FFFF_0000),
            _ => Table(0xFFFF_FFFF_0000_0000),
        }
    }

    /// 1 where both are.
    pub fn and(self, other: Table) -> Table
        ensures { (n : ℕ) → n < 64 → bit result.0 n ≡ (bit self.0 n && bit other.0 n) }
    {
        Table(self.0 & other.0)
    }

    /// 1 where one of them is.
    pub fn or(self, other: Table) -> Table
        ensures { (n : ℕ) → n < 64 → bit result.0 n ≡ (bit self.0 n || bit other.0 n) }
    {
        Table(self.0 | other.0)
    }

    /// 1 where this one is 0.
    pub fn not(self) -> Table
        ensures { (n : ℕ) → n < 64 → bit result.0 n ≡ not (bit self.0 n) }
    {
        Table(!self.0)
    }

    /// Whether some valuation's value changes with parameter k.
    pub fn depends(&self, k: u8) -> bool
        requires { k < PARAM_LIMIT }
        ensures { MatchBool result (Changes self.now.0 k) (Stays self.now.0 k) }
    {
        // where parameter k is 0, this has the value that it has where k is 1
        let turned = self.0 >> distance(k);
        let zeros = Table::of_param(k).not().0;
        (self.0 ^ turned) & zeros != 0
    }

    /// The table with parameter k set or not: under each valuation, the value under the one where it is so.
    pub fn fix(&self, k: u8, set: bool) -> Table
        requires { k < PARAM_LIMIT }
        ensures { (n : ℕ) → n < 64 → bit result.0 n ≡ bit self.now.0 (with_param n k set) }
    {
        if set {
            let kept = self.0 & Table::of_param(k).0;
            Table(kept | (kept >> distance(k)))
        } else {
            let kept = self.0 & Table::of_param(k).not().0;
            Table(kept | (kept << distance(k)))
        }
    }
}
