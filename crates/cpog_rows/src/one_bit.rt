//! One or two scenarios under one code bit: no gate is needed, and the report is told byte by byte.

use crate::running::run;
use cpog_base::Status;
use std::test::Fail;

const ONE_OPERATION: &[u8] = b"cpog report 1
bits 1
budget 2000000
operations a
scenario A 0
has a
arcs
gates 0
op a 1
minimum 0
evidence zero
open none
netlist
module cpog(x0, go, a_a, r_a, done, idle);
  input x0, go, a_a;
  output r_a, done, idle;
  wire c_a;
  assign c_a = 1'b1;
  assign r_a = go & c_a;
  assign done = go & (a_a | ~c_a);
  assign idle = ~go & ~a_a;
endmodule
";

const TWO_BRANCHES: &[u8] = b"cpog report 1
bits 1
budget 2000000
operations a b c
scenario A 0
has a b
arcs a>b
scenario B 1
has a c
arcs a>c
gates 0
op a 1
op b !x0
op c x0
arc a b 1
arc a c 1
minimum 0
evidence zero
open none
netlist
module cpog(x0, go, a_a, a_b, a_c, r_a, r_b, r_c, done, idle);
  input x0, go, a_a, a_b, a_c;
  output r_a, r_b, r_c, done, idle;
  wire c_a, c_b, c_c, e0_1, e0_2;
  assign c_a = 1'b1;
  assign c_b = ~x0;
  assign c_c = x0;
  assign e0_1 = 1'b1;
  assign e0_2 = 1'b1;
  assign r_a = go & c_a;
  assign r_b = go & c_b & (a_a | ~c_a | ~e0_1);
  assign r_c = go & c_c & (a_a | ~c_a | ~e0_2);
  assign done = go & (a_a | ~c_a) & (a_b | ~c_b) & (a_c | ~c_c);
  assign idle = ~go & ~a_a & ~a_b & ~a_c;
endmodule
";

const FIRST_ARC_ALONE: &[u8] = b"cpog report 1
bits 1
budget 2000000
operations a b
scenario A 0
has a b
arcs a>b
scenario B 1
has a b
arcs
gates 0
op a 1
op b 1
arc a b !x0
minimum 0
evidence zero
open none
netlist
module cpog(x0, go, a_a, a_b, r_a, r_b, done, idle);
  input x0, go, a_a, a_b;
  output r_a, r_b, done, idle;
  wire c_a, c_b, e0_1;
  assign c_a = 1'b1;
  assign c_b = 1'b1;
  assign e0_1 = ~x0;
  assign r_a = go & c_a;
  assign r_b = go & c_b & (a_a | ~c_a | ~e0_1);
  assign done = go & (a_a | ~c_a) & (a_b | ~c_b);
  assign idle = ~go & ~a_a & ~a_b;
endmodule
";

const NOTHING_SHARED: &[u8] = b"cpog report 1
bits 1
budget 2000000
operations a b
scenario first 0
has a
arcs
scenario second 1
has b
arcs
gates 0
op a !x0
op b x0
minimum 0
evidence zero
open none
netlist
module cpog(x0, go, a_a, a_b, r_a, r_b, done, idle);
  input x0, go, a_a, a_b;
  output r_a, r_b, done, idle;
  wire c_a, c_b;
  assign c_a = ~x0;
  assign c_b = x0;
  assign r_a = go & c_a;
  assign r_b = go & c_b;
  assign done = go & (a_a | ~c_a) & (a_b | ~c_b);
  assign idle = ~go & ~a_a & ~a_b;
endmodule
";

const NO_OPERATION: &[u8] = b"cpog report 1
bits 1
budget 2000000
operations
scenario A 0
has
arcs
gates 0
minimum 0
evidence zero
open none
netlist
module cpog(x0, go, done, idle);
  input x0, go;
  output done, idle;
  assign done = go;
  assign idle = ~go;
endmodule
";

#[test]
fn reports_of_one_bit(rt: HostRuntime) -> Result<(), Fail> {
    let table: [(&[u8], &[u8]); 9] = [
        (b"scenario A = a\n", ONE_OPERATION),
        (b"scenario A = a", ONE_OPERATION),
        (
            b"# one\r\n\n \t \nscenario A=a# and another -> [(\r\n",
            ONE_OPERATION,
        ),
        (b"scenario A = (a)\n", ONE_OPERATION),
        (b"scenario A = empty\n", NO_OPERATION),
        (b"scenario A = a -> b\nscenario B = a -> c\n", TWO_BRANCHES),
        (
            b"params x\ngraph g = a -> ([x] b + [!x] c)\nscenario A = @g with x = 1\nscenario B = @g with x = 0\n",
            TWO_BRANCHES,
        ),
        (
            b"scenario A = a -> b\nscenario B = a + b\n",
            FIRST_ARC_ALONE,
        ),
        (b"scenario first = a\nscenario second = b\n", NOTHING_SHARED),
    ];
    for (input, want) in table {
        let ending = run(rt.alloc(), &["synth"], input)?;
        assert_eq!(rt; ending.status, Status::Ok);
        assert_eq!(rt; ending.taken.as_slice(), want);
    }
    Ok(())
}
