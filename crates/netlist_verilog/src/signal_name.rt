ghost use Rattle.std.specs.Prelude.{Some};
ghost use Rattle.netlist_verilog.specs.Wires.{signal_text};

use std::fmt;

/// A signal over so many inputs, which is printed by its name: the inputs are `x0`, `x1` and on, and the gates `g0`, `g1` and on.
#[derive(Drop)]
pub struct SignalName {
    pub inputs: u8,
    pub number: u32,
}

impl fmt::Display for SignalName {
    ghost output = { λ s. Some (signal_text s.inputs s.number) };

    fn fmt<W: fmt::Write>(&self, f: &mut fmt::Formatter<W>) -> fmt::Result {
        let inputs = u32::from(self.inputs);
        let number = self.number;
        if number < inputs {
            write!(f, "x{number}")
        } else {
            let gate = number - inputs;
            write!(f, "g{gate}")
        }
    }
}
