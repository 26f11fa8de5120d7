//! Modules as texts that were written by hand.
use crate::{ModuleFault, read_module};
use netlist_verilog::write_module;
use std::alloc::Global;
use std::test::*;

const TEXT: &str = "module cpog(x0, x1, go, a_a, a_b, r_a, r_b, done, idle);
  input x0, x1, go, a_a, a_b;
  output r_a, r_b, done, idle;
  wire g0, c_a, c_b, e0_1;
  assign g0 = x0 /* x0 x1 */;
  assign c_a = 1'b1;
  assign c_b = ~g0;
  assign e0_1 = 1'b0;
  assign r_a = go & c_a;
  assign r_b = go & c_b & (a_a | ~c_a | ~e0_1);
  assign done = go & (a_a | ~c_a) & (a_b | ~c_b);
  assign idle = ~go & ~a_a & ~a_b;
endmodule
";

#[test]
fn a_module_is_read_and_written_again(rt: HostRuntime) {
    let module = read_module(rt.alloc(), TEXT.as_bytes()).expect(&rt, "it is a module");
    let text = write_module(rt.alloc(), &module).expect(&rt, "there is memory");
    assert!(rt; text.as_slice() == TEXT.as_bytes());
}

#[test]
fn a_module_without_operations_is_read(rt: HostRuntime) {
    let text = "module cpog(x0, go, done, idle);
  input x0, go;
  output done, idle;
  assign done = go;
  assign idle = ~go;
endmodule
";
    let module = read_module(rt.alloc(), text.as_bytes()).expect(&rt, "it is a module");
    let again = write_module(rt.alloc(), &module).expect(&rt, "there is memory");
    assert!(rt; again.as_slice() == text.as_bytes());
}

#[test]
fn the_first_bad_line_is_told(rt: HostRuntime) {
    let alloc = rt.alloc();
    assert!(rt; matches!(read_module(alloc, b""), Err(ModuleFault::BadLine(1))));
    let keyword = "module cpog(x0, go, a_graph, r_graph, done, idle);\n";
    assert!(rt;
        matches!(
            read_module(alloc, keyword.as_bytes()),
            Err(ModuleFault::BadLine(1))
        )
    );
    let twice = "module cpog(x0, go, a_a, a_a, r_a, r_a, done, idle);\n";
    assert!(rt;
        matches!(
            read_module(alloc, twice.as_bytes()),
            Err(ModuleFault::BadLine(1))
        )
    );
    let gate =
        "module cpog(x0, go, done, idle);\n  input x0, go;\n  output done, idle;\n  wire g0;\n";
    assert!(rt;
        matches!(
            read_module(alloc, gate.as_bytes()),
            Err(ModuleFault::BadLine(4))
        )
    );
    let missing =
        "module cpog(x0, go, done, idle);\n  input x0, go;\n  output done, idle;\n  assign done = go;\n";
    assert!(rt;
        matches!(
            read_module(alloc, missing.as_bytes()),
            Err(ModuleFault::BadLine(5))
        )
    );
}

/// The bad line of the module with another text in place of this one, or 0 where there is none.
fn bad_line(alloc: Global, old: &str, new: &str) -> u32 {
    let Some((front, back)) = TEXT.split_once(old) else {
        return 0;
    };
    let Ok(text) = format!(in alloc; "{front}{new}{back}") else {
        return 0;
    };
    if text.len() >= 1_000_000 {
        return 0;
    }
    match read_module(alloc, text.as_bytes()) {
        Err(ModuleFault::BadLine(number)) => number,
        _ => 0,
    }
}

#[test]
fn each_damaged_line_is_told(rt: HostRuntime) {
    let alloc = rt.alloc();
    assert!(rt; bad_line(alloc, "cpog(x0", "cpog(x1") == 1);
    assert!(rt; bad_line(alloc, "input x0, x1", "input x0,x1") == 2);
    assert!(rt; bad_line(alloc, "output r_a", "output r_b") == 3);
    assert!(rt; bad_line(alloc, ", e0_1;", ", e1_1;") == 4);
    assert!(rt; bad_line(alloc, "x0 /* x0 x1 */", "x0 /* x1 x1 */") == 5);
    assert!(rt; bad_line(alloc, "x0 /* x0 x1 */", "x0 & g0") == 5);
    assert!(rt; bad_line(alloc, "c_a = 1'b1", "c_a = 1'b2") == 6);
    assert!(rt; bad_line(alloc, "c_b = ~g0", "c_b = ~g1") == 7);
    assert!(rt; bad_line(alloc, "assign e0_1", "assign e1_0") == 8);
    assert!(rt;
        bad_line(
            alloc,
            "c_a;\n  assign r_b",
            "c_a & (a_b | ~c_b | ~e1_0);\n  assign r_b"
        ) == 9
    );
    assert!(rt; bad_line(alloc, "| ~e0_1);", "| ~e0_1));") == 10);
    assert!(rt; bad_line(alloc, "done = go & (a_a", "done = go & (a_b") == 11);
    assert!(rt; bad_line(alloc, "~a_a & ~a_b", "~a_b & ~a_a") == 12);
    assert!(rt; bad_line(alloc, "endmodule\n", "endmodule\n\n") == 14);
}
