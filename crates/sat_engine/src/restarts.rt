//! When the search starts again from level 0: after so many conflicts as the sequence 1 1 2 1 1 2 4 1 .. says, times a
//! unit (Luby, Sinclair and Zuckerman, Optimal speedup of Las Vegas algorithms, 1993). Its numbers are the values of v
//! in the pair (u, v) that starts at (1, 1) and becomes (u + 1, 1) where u's lowest set bit is v, else (u, 2v) (Knuth,
//! The Art of Computer Programming, volume 4, 7.2.2.2).

/// The conflicts that are left until the next start, and the pair.
#[derive(Clone, Copy)]
pub struct Restarts {
    left: u32,
    u: i64,
    v: i64,
}

const UNIT: u32 = 32;

impl Restarts {
    pub fn new() -> Restarts {
        Restarts {
            left: UNIT,
            u: 1,
            v: 1,
        }
    }

    /// Counts one conflict, and says whether the search starts again now.
    pub fn is_due(&mut self) -> bool {
        if self.left > 1 {
            self.left -= 1;
            return false;
        }
        if self.u & self.u.wrapping_neg() == self.v {
            self.u = self.u.wrapping_add(1);
            self.v = 1;
        } else {
            self.v = self.v.wrapping_mul(2);
        }
        self.left = u32::try_from(self.v).unwrap_or(1).saturating_mul(UNIT);
        true
    }
}
