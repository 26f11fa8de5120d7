//! More than two scenarios: codes of more bits, gates, the least number of them, and the module's gates. The reports are told
//! byte by byte, but for logs.

use crate::running::run;
use cpog_base::Status;
use std::test::Fail;

const THREE_SCENARIOS: &[u8] = b"cpog report 1
bits 2
budget 2000000
operations a b c
scenario A 00
has a
arcs
scenario B 10
has b
arcs
scenario C 01
has c
arcs
gates 1
g0 x0 x1 1000
op a g0
op b x0
op c x1
minimum 1
evidence count
op a
op b
op c
open none
netlist
module cpog(x0, x1, go, a_a, a_b, a_c, r_a, r_b, r_c, done, idle);
  input x0, x1, go, a_a, a_b, a_c;
  output r_a, r_b, r_c, done, idle;
  wire g0, c_a, c_b, c_c;
  assign g0 = ~x0 & ~x1;
  assign c_a = g0;
  assign c_b = x0;
  assign c_c = x1;
  assign r_a = go & c_a;
  assign r_b = go & c_b;
  assign r_c = go & c_c;
  assign done = go & (a_a | ~c_a) & (a_b | ~c_b) & (a_c | ~c_c);
  assign idle = ~go & ~a_a & ~a_b & ~a_c;
endmodule
";

/// Up to the evidence, which is a log.
const FOUR_WITH_MINIMUM: &[u8] = b"cpog report 1
bits 2
budget 2000000
operations a b c d
scenario A 00
has a
arcs
scenario B 10
has b
arcs
scenario C 01
has c
arcs
scenario D 11
has d
arcs
gates 4
g0 x0 x1 1000
g1 x0 x1 0010
g2 x0 x1 0100
g3 x0 x1 0001
op a g0
op b g1
op c g2
op d g3
minimum 4
evidence refutation 2 3
";

/// Up to the open part, which is a log.
const FOUR_WITH_OPEN_PART: &[u8] = b"cpog report 1
bits 2
budget 1
operations a b c d
scenario A 00
has a
arcs
scenario B 10
has b
arcs
scenario C 01
has c
arcs
scenario D 11
has d
arcs
gates 4
g0 x0 x1 1000
g1 x0 x1 0010
g2 x0 x1 0100
g3 x0 x1 0001
op a g0
op b g1
op c g2
op d g3
between 2 4
evidence count
op a
op b
op c
op d
open log 2 2
";

/// Behind the log.
const FOUR_CLOSED_MODULE: &[u8] = b"
end
open none
netlist
module cpog(x0, x1, go, a_a, a_b, a_c, a_d, r_a, r_b, r_c, r_d, done, idle);
  input x0, x1, go, a_a, a_b, a_c, a_d;
  output r_a, r_b, r_c, r_d, done, idle;
  wire g0, g1, g2, g3, c_a, c_b, c_c, c_d;
  assign g0 = ~x0 & ~x1;
  assign g1 = x0 & ~x1;
  assign g2 = ~x0 & x1;
  assign g3 = x0 & x1;
  assign c_a = g0;
  assign c_b = g1;
  assign c_c = g2;
  assign c_d = g3;
  assign r_a = go & c_a;
  assign r_b = go & c_b;
  assign r_c = go & c_c;
  assign r_d = go & c_d;
  assign done = go & (a_a | ~c_a) & (a_b | ~c_b) & (a_c | ~c_c) & (a_d | ~c_d);
  assign idle = ~go & ~a_a & ~a_b & ~a_c & ~a_d;
endmodule
";

/// Behind the log of the open part.
const FOUR_OPEN_MODULE: &[u8] = b"
end
netlist
module cpog(x0, x1, go, a_a, a_b, a_c, a_d, r_a, r_b, r_c, r_d, done, idle);
  input x0, x1, go, a_a, a_b, a_c, a_d;
  output r_a, r_b, r_c, r_d, done, idle;
  wire g0, g1, g2, g3, c_a, c_b, c_c, c_d;
  assign g0 = ~x0 & ~x1;
  assign g1 = x0 & ~x1;
  assign g2 = ~x0 & x1;
  assign g3 = x0 & x1;
  assign c_a = g0;
  assign c_b = g1;
  assign c_c = g2;
  assign c_d = g3;
  assign r_a = go & c_a;
  assign r_b = go & c_b;
  assign r_c = go & c_c;
  assign r_d = go & c_d;
  assign done = go & (a_a | ~c_a) & (a_b | ~c_b) & (a_c | ~c_c) & (a_d | ~c_d);
  assign idle = ~go & ~a_a & ~a_b & ~a_c & ~a_d;
endmodule
";

const THREE: &[u8] = b"scenario A = a\nscenario B = b\nscenario C = c\n";

const FOUR: &[u8] = b"scenario A = a\nscenario B = b\nscenario C = c\nscenario D = d\n";

#[test]
fn counting_gives_the_minimum(rt: HostRuntime) -> Result<(), Fail> {
    let table: [&[&str]; 2] = [&["synth"], &["synth", "--exact"]];
    for words in table {
        let ending = run(rt.alloc(), words, THREE)?;
        assert_eq!(rt; ending.status, Status::Ok);
        assert_eq!(rt; ending.taken.as_slice(), THREE_SCENARIOS);
    }
    Ok(())
}

#[test]
fn a_refutation_gives_the_minimum(rt: HostRuntime) -> Result<(), Fail> {
    let ending = run(rt.alloc(), &["synth", "--exact"], FOUR)?;
    assert_eq!(rt; ending.status, Status::Ok);
    assert!(rt; ending.taken.as_slice().starts_with(FOUR_WITH_MINIMUM));
    assert!(rt; ending.taken.as_slice().ends_with(FOUR_CLOSED_MODULE));
    Ok(())
}

#[test]
fn a_spent_budget_leaves_a_part_open(rt: HostRuntime) -> Result<(), Fail> {
    let table: [(&[&str], Status); 3] = [
        (&["synth", "--budget", "1"], Status::Ok),
        (&["synth", "--budget", "1", "--exact"], Status::Budget),
        (&["synth", "--exact", "--budget", "1"], Status::Budget),
    ];
    for (words, status) in table {
        let ending = run(rt.alloc(), words, FOUR)?;
        assert_eq!(rt; ending.status, status);
        assert!(rt; ending.taken.as_slice().starts_with(FOUR_WITH_OPEN_PART));
        assert!(rt; ending.taken.as_slice().ends_with(FOUR_OPEN_MODULE));
    }
    Ok(())
}
