//! Covering pairs, free pairs, scenarios with an operation before itself, and equal scenarios.

use crate::running::run;
use cpog_base::Status;
use std::test::Fail;

const FREE_ARC: &[u8] = b"cpog report 1
bits 1
budget 2000000
operations a b c
scenario A 0
has a b c
arcs a>b b>c
scenario B 1
has a c
arcs a>c
gates 0
op a 1
op b !x0
op c 1
arc a b 1
arc a c 1
arc b c 1
minimum 0
evidence zero
open none
netlist
module cpog(x0, go, a_a, a_b, a_c, r_a, r_b, r_c, done, idle);
  input x0, go, a_a, a_b, a_c;
  output r_a, r_b, r_c, done, idle;
  wire c_a, c_b, c_c, e0_1, e0_2, e1_2;
  assign c_a = 1'b1;
  assign c_b = ~x0;
  assign c_c = 1'b1;
  assign e0_1 = 1'b1;
  assign e0_2 = 1'b1;
  assign e1_2 = 1'b1;
  assign r_a = go & c_a;
  assign r_b = go & c_b & (a_a | ~c_a | ~e0_1);
  assign r_c = go & c_c & (a_a | ~c_a | ~e0_2) & (a_b | ~c_b | ~e1_2);
  assign done = go & (a_a | ~c_a) & (a_b | ~c_b) & (a_c | ~c_c);
  assign idle = ~go & ~a_a & ~a_b & ~a_c;
endmodule
";

const TURNED_ROUND: &[u8] = b"cpog report 1
bits 1
budget 2000000
operations a b
scenario A 0
has a b
arcs a>b
scenario B 1
has a b
arcs b>a
gates 0
op a 1
op b 1
arc a b !x0
arc b a x0
minimum 0
evidence zero
open none
netlist
module cpog(x0, go, a_a, a_b, r_a, r_b, done, idle);
  input x0, go, a_a, a_b;
  output r_a, r_b, done, idle;
  wire c_a, c_b, e0_1, e1_0;
  assign c_a = 1'b1;
  assign c_b = 1'b1;
  assign e0_1 = ~x0;
  assign e1_0 = x0;
  assign r_a = go & c_a & (a_b | ~c_b | ~e1_0);
  assign r_b = go & c_b & (a_a | ~c_a | ~e0_1);
  assign done = go & (a_a | ~c_a) & (a_b | ~c_b);
  assign idle = ~go & ~a_a & ~a_b;
endmodule
";

#[test]
fn arcs_of_scenarios(rt: HostRuntime) -> Result<(), Fail> {
    let table: [(&[u8], Status, &[u8]); 6] = [
        (
            b"scenario A = a -> b -> c\nscenario B = a -> c\n",
            Status::Ok,
            FREE_ARC,
        ),
        (
            b"scenario A = a -> b\nscenario B = b -> a\n",
            Status::Ok,
            TURNED_ROUND,
        ),
        (
            b"scenario A = a -> b + b -> a\n",
            Status::Cyclic,
            b"cpog: cyclic: scenario A: operation a\n",
        ),
        (
            b"scenario A = a -> a\n",
            Status::Cyclic,
            b"cpog: cyclic: scenario A: operation a\n",
        ),
        (
            b"scenario A = a -> b -> c -> b\n",
            Status::Cyclic,
            b"cpog: cyclic: scenario A: operation b\n",
        ),
        (
            b"scenario A = a + b + c + d\nscenario B = d -> c -> b -> d + a -> d\n",
            Status::Cyclic,
            b"cpog: cyclic: scenario B: operation b\n",
        ),
    ];
    for (input, status, want) in table {
        let ending = run(rt.alloc(), &["synth"], input)?;
        assert_eq!(rt; ending.status, status);
        assert_eq!(rt; ending.taken.as_slice(), want);
    }
    Ok(())
}

#[test]
fn equal_scenarios(rt: HostRuntime) -> Result<(), Fail> {
    let table: [(&[u8], Status, &[u8]); 5] = [
        (
            b"scenario A = a -> b -> c\nscenario B = a -> b + b -> c + a -> c\n",
            Status::Equal,
            b"cpog: equal: scenario B: scenario A\n",
        ),
        (
            b"scenario A = empty\nscenario B = empty\n",
            Status::Equal,
            b"cpog: equal: scenario B: scenario A\n",
        ),
        (
            b"scenario A = a\nscenario B = b\nscenario C = b\nscenario D = a\n",
            Status::Equal,
            b"cpog: equal: scenario C: scenario B\n",
        ),
        (
            b"scenario A = a\nscenario B = b\nscenario C = a\n",
            Status::Equal,
            b"cpog: equal: scenario C: scenario A\n",
        ),
        (
            b"scenario A = a\nscenario B = a\nscenario C = b -> b\n",
            Status::Cyclic,
            b"cpog: cyclic: scenario C: operation b\n",
        ),
    ];
    for (input, status, want) in table {
        let ending = run(rt.alloc(), &["synth"], input)?;
        assert_eq!(rt; ending.status, status);
        assert_eq!(rt; ending.taken.as_slice(), want);
    }
    Ok(())
}
