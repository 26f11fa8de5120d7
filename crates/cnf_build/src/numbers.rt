//! The literals of a template's variables. Each variable's number is its place in the printed order, and a few steps on
//! the numbers where the blocks begin.
ghost use Rattle.std.specs.Prelude.{◌≡◌, ◌+◌, ◌<◌, ◌≤◌, ◌^◌};
ghost use Rattle.gate_template.specs.Variables.{X, D, Sel, T, V, O, P, value_var};
ghost use Rattle.gate_template.specs.Families.{plain, numbered};
ghost use Rattle.gate_template.specs.Counts.{rows, pairs, selections};
ghost use Rattle.cnf_build.specs.Placed.{IsShape};

use clause_arena::Lit;
use gate_template::Shape;
use std::marker::Model;

/// The shape of a template, and how many variables stand before each block.
#[derive(Debug, Drop)]
pub(crate) struct Numbers {
    shape: Shape,
    d: u32,
    sel: u32,
    t: u32,
    v: u32,
    o: u32,
    p: u32,
}

impl Model for Numbers {
    ghost use Rattle.gate_template.specs.declared.types.Shape.{Shape};
    ghost use Rattle.cnf_build.specs.Placed.{ArePlaced};

    ghost Value = { Shape };

    ghost view = { λ n. n.shape };

    ghost invariant = { λ n. ArePlaced n.shape n.d n.sel n.t n.v n.o n.p };
}

/// How many pairs of numbers below n there are.
pub(crate) fn pairs_below(n: u64) -> u64
    requires { n < 65544 }
    ensures { result ≡ pairs n }
{
    if n == 0 { 0 } else { n * (n - 1) / 2 }
}

/// How many pairs of numbers below n have their first below j.
fn pairs_of_first(n: u64, j: u64) -> u64
    requires lower { j < n }
    requires few { n < 65544 }
    ensures { result ≡ rows n j }
{
    j * (2 * n - j - 1) / 2
}

/// How many pairs of earlier signals the first signals have, from none on.
fn selections_below(m: u64) -> u64
    requires some { 2 ≤ m }
    requires few { m < 65544 }
    ensures count { result ≡ selections 0 m }
    ensures few { result < 2 ^ 46 }
{
    m * (m - 1) * (m - 2) / 6
}

/// How many pairs of signals before them the first g gates have.
pub(crate) fn selections_of(bits: u64, g: u64) -> u64
    requires some { 2 ≤ bits }
    requires few { bits ≤ 8 }
    requires few_gates { g ≤ 65535 }
    ensures count { result ≡ selections bits g }
    ensures few { result < 2 ^ 46 }
{
    selections_below(bits + g) - selections_below(bits)
}

impl Numbers {
    pub fn new(shape: Shape) -> Numbers
        requires { IsShape shape }
        ensures { result ≡ shape }
    {
        let d = shape.scenarios * shape.bits;
        let sel = d + pairs_below(u64::from(shape.scenarios)) as u32 * shape.bits;
        let t = sel + selections_of(u64::from(shape.bits), u64::from(shape.gates)) as u32;
        let v = t + shape.gates * 3;
        let o = v + shape.gates * shape.scenarios;
        let p = o + shape.classes * (shape.bits + shape.gates);
        Numbers {
            shape,
            d,
            sel,
            t,
            v,
            o,
            p,
        }
    }

    pub fn shape(&self) -> Shape
        ensures same { result ≡ self.now }
        ensures shape { IsShape self.now }
    {
        self.shape
    }

    /// Bit i of the code of s.
    pub fn x(&self, s: u32, i: u32) -> Lit
        requires scenario { s < self.now.scenarios }
        requires bit { i < self.now.bits }
        ensures { result ≡ numbered self.now (plain (X s i)) }
    {
        Lit::from_var(s * self.shape.bits + i + 1, false)
    }

    /// The codes of s and t differ in bit i.
    pub fn d(&self, s: u32, t: u32, i: u32) -> Lit
        requires lower { s < t }
        requires scenario { t < self.now.scenarios }
        requires bit { i < self.now.bits }
        ensures { result ≡ numbered self.now (plain (D s t i)) }
    {
        let row = s * (2 * self.shape.scenarios - s - 1) / 2;
        Lit::from_var(
            self.d + (row * self.shape.bits + ((t - (s + 1)) * self.shape.bits + i)) + 1,
            false,
        )
    }

    /// Gate g may be read as a function of signals j and k.
    pub fn sel(&self, g: u32, j: u32, k: u32) -> Lit
        requires gate { g < self.now.gates }
        requires lower { j < k }
        requires earlier { k < self.now.bits + g }
        ensures { result ≡ numbered self.now (plain (Sel g j k)) }
    {
        let bits = u64::from(self.shape.bits);
        let before = selections_of(bits, u64::from(g));
        let row = pairs_of_first(bits + u64::from(g), u64::from(j));
        let place = u64::from(self.sel) + (before + (row + u64::from(k - (j + 1)))) + 1;
        Lit::from_var(place as u32, false)
    }

    /// The table of gate g at 1.
    pub fn t1(&self, g: u32) -> Lit
        requires { g < self.now.gates }
        ensures { result ≡ numbered self.now (plain (T g 1)) }
    {
        Lit::from_var(self.t + g * 3 + 1, false)
    }

    /// The table of gate g at 2.
    pub fn t2(&self, g: u32) -> Lit
        requires { g < self.now.gates }
        ensures { result ≡ numbered self.now (plain (T g 2)) }
    {
        Lit::from_var(self.t + (g * 3 + 1) + 1, false)
    }

    /// The table of gate g at 3.
    pub fn t3(&self, g: u32) -> Lit
        requires { g < self.now.gates }
        ensures { result ≡ numbered self.now (plain (T g 3)) }
    {
        Lit::from_var(self.t + (g * 3 + 2) + 1, false)
    }

    /// The value of gate g in scenario s.
    pub fn v(&self, g: u32, s: u32) -> Lit
        requires gate { g < self.now.gates }
        requires scenario { s < self.now.scenarios }
        ensures { result ≡ numbered self.now (plain (V g s)) }
    {
        Lit::from_var(self.v + (g * self.shape.scenarios + s) + 1, false)
    }

    /// Class c is taken from signal n.
    pub fn o(&self, c: u32, n: u32) -> Lit
        requires class { c < self.now.classes }
        requires signal { n < self.now.bits + self.now.gates }
        ensures { result ≡ numbered self.now (plain (O c n)) }
    {
        Lit::from_var(
            self.o + (c * (self.shape.bits + self.shape.gates) + n) + 1,
            false,
        )
    }

    /// Class c is complemented.
    pub fn p(&self, c: u32) -> Lit
        requires { c < self.now.classes }
        ensures { result ≡ numbered self.now (plain (P c)) }
    {
        Lit::from_var(self.p + c + 1, false)
    }

    /// The value of signal n in scenario s.
    pub fn value(&self, n: u32, s: u32) -> Lit
        requires signal { n < self.now.bits + self.now.gates }
        requires scenario { s < self.now.scenarios }
        ensures { result ≡ numbered self.now (plain (value_var self.now n s)) }
    {
        if n < self.shape.bits {
            self.x(s, n)
        } else {
            self.v(n - self.shape.bits, s)
        }
    }
}
