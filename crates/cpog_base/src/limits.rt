//! How much of each thing a command takes. Clauses and definitions cite these by their names.
ghost use Rattle.std.specs.Prelude.{◌≡◌};

/// What a limit counts.
#[derive(Clone, Copy, Debug, PartialEq, Eq)]
pub enum Counted {
    Input,
    Params,
    Graphs,
    Scenarios,
    Operations,
    Bits,
    /// `cnf`: the literals of the formula that it would write.
    Template,
    /// `solve` and `lrat`: the variables of the formula that they read.
    Variables,
}

/// The longest graph text, in bytes.
pub const INPUT_LIMIT: u32 = 1048576;

/// The longest text of any other kind, as a formula or a report, in bytes. A number takes two bytes at least, with the
/// blank behind it, so 2 ^ 28 numbers stand there at most: 1 GiB as words of 32 bits.
pub const LONG_INPUT_LIMIT: u32 = 536870912;

/// The most parameters of a graph text. What an expression is at each of their values is one word of 64 bits.
pub const PARAM_LIMIT: u32 = 6;

/// The most graphs of a graph text.
pub const GRAPH_LIMIT: u32 = 256;

/// The most scenarios of a graph text. What they ask of one condition is two words of 64 bits.
pub const SCENARIO_LIMIT: u32 = 64;

/// The most operation names of a graph text.
pub const OPERATION_LIMIT: u32 = 64;

/// How deep a token of an expression may stand.
pub const NESTING_LIMIT: u32 = 100;

/// The most bits of a code, so that a code is a byte.
pub const BIT_LIMIT: u8 = 8;

/// How many numbers a search may write, where the words don't say.
pub const DEFAULT_BUDGET: u32 = 2000000;

/// The most numbers that a search may be said to write: 2 ^ 23.
pub const BUDGET_LIMIT: u32 = 8388608;

/// The most literals of the formula that says that there is an encoding by so many gates: 2 ^ 24.
pub const TEMPLATE_LIMIT: u32 = 16777216;

/// The most variables of a formula that is read: 2 ^ 24.
pub const VARIABLE_LIMIT: u32 = 16777216;

/// A law: the limits are these numbers.
pub fn limits_are_these()
    ensures input { INPUT_LIMIT ≡ 1048576 }
    ensures long_input { LONG_INPUT_LIMIT ≡ 536870912 }
    ensures params { PARAM_LIMIT ≡ 6 }
    ensures graphs { GRAPH_LIMIT ≡ 256 }
    ensures scenarios { SCENARIO_LIMIT ≡ 64 }
    ensures operations { OPERATION_LIMIT ≡ 64 }
    ensures nesting { NESTING_LIMIT ≡ 100 }
    ensures bits { BIT_LIMIT ≡ 8 }
    ensures default_budget { DEFAULT_BUDGET ≡ 2000000 }
    ensures budget { BUDGET_LIMIT ≡ 8388608 }
    ensures template { TEMPLATE_LIMIT ≡ 16777216 }
    ensures variables { VARIABLE_LIMIT ≡ 16777216 }
{}
