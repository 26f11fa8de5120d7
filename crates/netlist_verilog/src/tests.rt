//! What no clause says: that the calls that take memory succeed where memory is there, and the printed bytes.

use crate::{Module, write_module};
use cpog_base::{Memory, Names, OpId};
use gate_core::{Gate, GateList, Ref};
use handshake_eqs::Netlist;
use std::alloc::Global;

#[test]
fn a_module_without_operations_has_no_wire_line(rt: HostRuntime) {
    let gates = GateList::new(rt.alloc(), 1);
    let netlist = Netlist::new(rt.alloc(), gates, 0).expect(&rt, "there is memory");
    let module = Module::new(Names::new(rt.alloc()), netlist);
    let text = write_module(rt.alloc(), &module).expect(&rt, "there is memory");
    let want = b"module cpog(x0, go, done, idle);
  input x0, go;
  output done, idle;
  assign done = go;
  assign idle = ~go;
endmodule
";
    assert!(rt; text.as_slice() == want.as_slice());
}

/// Two operations that each come after the first, of which one is there where `x0` is 1 and the other where it is 0.
fn two_branches(alloc: Global) -> Result<Module, Memory> {
    let mut netlist = Netlist::new(alloc, GateList::new(alloc, 1), 3)?;
    netlist.set_condition(OpId(0), Ref::Const(true));
    netlist.set_condition(
        OpId(1),
        Ref::Signal {
            number: 0,
            negated: true,
        },
    );
    netlist.set_condition(
        OpId(2),
        Ref::Signal {
            number: 0,
            negated: false,
        },
    );
    netlist.add_wire(OpId(0), OpId(1), Ref::Const(true))?;
    netlist.add_wire(OpId(0), OpId(2), Ref::Const(true))?;
    netlist.add_wait(OpId(0), OpId(1));
    netlist.add_wait(OpId(0), OpId(2));
    let mut names = Names::new(alloc);
    names.insert("a")?;
    names.insert("b")?;
    names.insert("c")?;
    Ok(Module::new(names, netlist))
}

#[test]
fn two_branches_are_printed(rt: HostRuntime) {
    let module = two_branches(rt.alloc()).expect(&rt, "there is memory");
    let text = write_module(rt.alloc(), &module).expect(&rt, "there is memory");
    let want = b"module cpog(x0, go, a_a, a_b, a_c, r_a, r_b, r_c, done, idle);
  input x0, go, a_a, a_b, a_c;
  output r_a, r_b, r_c, done, idle;
  wire c_a, c_b, c_c, e0_1, e0_2;
  assign c_a = 1'b1;
  assign c_b = ~x0;
  assign c_c = x0;
  assign e0_1 = 1'b1;
  assign e0_2 = 1'b1;
  assign r_a = go & c_a;
  assign r_b = go & c_b & (a_a | ~c_a | ~e0_1);
  assign r_c = go & c_c & (a_a | ~c_a | ~e0_2);
  assign done = go & (a_a | ~c_a) & (a_b | ~c_b) & (a_c | ~c_c);
  assign idle = ~go & ~a_a & ~a_b & ~a_c;
endmodule
";
    assert!(rt; text.as_slice() == want.as_slice());
}

#[test]
fn each_function_of_a_gate_has_its_text(rt: HostRuntime) -> Result<(), Memory> {
    // From the right to the left, a table has the values at 00, 01, 10 and 11.
    for (table, function) in [
        (0b0000, "1'b0 /* x0 x1 */"),
        (0b1000, "x0 & x1"),
        (0b0100, "x0 & ~x1"),
        (0b1100, "x0 /* x0 x1 */"),
        (0b0010, "~x0 & x1"),
        (0b1010, "x1 /* x0 x1 */"),
        (0b0110, "x0 ^ x1"),
        (0b1110, "x0 | x1"),
        (0b0001, "~x0 & ~x1"),
        (0b1001, "x0 ^ ~x1"),
        (0b0101, "~x1 /* x0 x1 */"),
        (0b1101, "x0 | ~x1"),
        (0b0011, "~x0 /* x0 x1 */"),
        (0b1011, "~x0 | x1"),
        (0b0111, "~x0 | ~x1"),
        (0b1111, "1'b1 /* x0 x1 */"),
    ] {
        assert!(rt; table < 16);
        let mut gates = GateList::new(rt.alloc(), 2);
        gates.push(Gate { j: 0, k: 1, table })?;
        let netlist = Netlist::new(rt.alloc(), gates, 0)?;
        let module = Module::new(Names::new(rt.alloc()), netlist);
        let text = write_module(rt.alloc(), &module)?;
        let want = format!(in rt.alloc();
            "module cpog(x0, x1, go, done, idle);
  input x0, x1, go;
  output done, idle;
  wire g0;
  assign g0 = {function};
  assign done = go;
  assign idle = ~go;
endmodule
"
        )?;
        assert!(rt; text.as_slice() == want.as_bytes(), "at {table}");
    }
    Ok(())
}
