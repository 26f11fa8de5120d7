//! The plain types that the definitions match on. The crates above re-export each where its users look for it.
ghost use Rattle.std.specs.Prelude.{◌≡◌};

/// An operation, by its number: its place among the operation names of the text, from 0.
#[derive(Clone, Copy, Debug, PartialEq, Eq, PartialOrd, Ord, Hash)]
pub struct OpId(pub u8);

impl OpId {
    /// Its number as the place in a list.
    pub fn index(self) -> usize
        ensures { result ≡ self.0 }
    {
        usize::from(self.0)
    }
}

/// A scenario, by its number: its place among the scenarios of the text, from 0.
#[derive(Clone, Copy, Debug, PartialEq, Eq, PartialOrd, Ord, Hash)]
pub struct ScenId(pub u8);

impl ScenId {
    /// Its number as the place in a list.
    pub fn index(self) -> usize
        ensures { result ≡ self.0 }
    {
        usize::from(self.0)
    }
}

/// What is asked of one bit: that it is 0, that it is 1, or nothing.
#[derive(Clone, Copy, Debug, PartialEq, Eq)]
pub enum Bit3 {
    Zero,
    One,
    Free,
}

/// A function of two earlier signals: bit `2p + q` of the table is its value where signal `j` is `p` and signal `k` is `q`.
#[derive(Clone, Copy, Debug, PartialEq, Eq)]
pub struct Gate {
    pub j: u32,
    pub k: u32,
    pub table: u8,
}

/// A condition: a constant, a signal, or the complement of a signal.
#[derive(Clone, Copy, Debug, PartialEq, Eq)]
pub enum Ref {
    Const(bool),
    Signal { number: u32, negated: bool },
}

/// Where a condition stands: at an operation, or at an ordered pair of operations.
#[derive(Clone, Copy, Debug, PartialEq, Eq)]
pub enum Place {
    Op(OpId),
    Arc(OpId, OpId),
}
