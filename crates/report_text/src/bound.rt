/// What is known of the least number of gates.
#[derive(Clone, Copy, Debug, PartialEq, Eq)]
pub enum Bound {
    /// It is this number.
    Minimum(u32),
    /// It is at least the first number, and an encoding has the second.
    Between(u32, u32),
}
