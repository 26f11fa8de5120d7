//! What no clause says: that a report is read where memory is there, with the values that its text shows.

use crate::{ReportFault, read_report};
use cpog_base::OpId;
use cpog_defs::types::Ref;
use report_text::Bound;
use std::alloc::Global;
use std::test::Fail;

const REPORT: &str = "cpog report 1
bits 1
budget 2000000
operations move_pointer access_memory
scenario push 0
has move_pointer access_memory
arcs move_pointer>access_memory
scenario pop 1
has move_pointer access_memory
arcs access_memory>move_pointer
gates 0
op move_pointer 1
op access_memory 1
arc move_pointer access_memory !x0
arc access_memory move_pointer x0
minimum 0
evidence zero
open none
netlist
module cpog(x0, go, a_move_pointer, a_access_memory, r_move_pointer, r_access_memory, done, idle);
  input x0, go, a_move_pointer, a_access_memory;
  output r_move_pointer, r_access_memory, done, idle;
  wire c_move_pointer, c_access_memory, e0_1, e1_0;
  assign c_move_pointer = 1'b1;
  assign c_access_memory = 1'b1;
  assign e0_1 = ~x0;
  assign e1_0 = x0;
  assign r_move_pointer = go & c_move_pointer & (a_access_memory | ~c_access_memory | ~e1_0);
  assign r_access_memory = go & c_access_memory & (a_move_pointer | ~c_move_pointer | ~e0_1);
  assign done = go & (a_move_pointer | ~c_move_pointer) & (a_access_memory | ~c_access_memory);
  assign idle = ~go & ~a_move_pointer & ~a_access_memory;
endmodule
";

#[test]
fn a_report_is_read(rt: HostRuntime) -> Result<(), Fail> {
    let report = read_report(rt.alloc(), REPORT.as_bytes())
        .ok()
        .ok_or("it is a report")?;
    assert_eq!(rt; report.bits(), 1);
    assert_eq!(rt; report.budget(), 2000000);
    assert_eq!(rt; report.names().len(), 2);
    assert_eq!(rt; report.scenario_names().find("pop"), Some(1));
    assert_eq!(rt; report.scenarios().len(), 2);
    assert_eq!(rt; report.bound(), Bound::Minimum(0));
    let graph = report.encoding().graph();
    let complement = Ref::Signal {
        number: 0,
        negated: true,
    };
    assert_eq!(rt; graph.arc(OpId(0), OpId(1)), complement);
    Ok(())
}

/// The number of the first bad line where this text stands in the place of that.
fn bad_line(alloc: Global, old: &str, new: &str) -> Option<u32> {
    let text = REPORT.replace(alloc, old, new).ok()?;
    // It is as short as the report is.
    if text.len() > 2000 {
        return None;
    }
    match read_report(alloc, text.as_bytes()) {
        Err(ReportFault::BadSection(number)) => Some(number),
        _ => None,
    }
}

#[test]
fn a_damaged_line_gives_its_number(rt: HostRuntime) {
    assert_eq!(rt;
        bad_line(rt.alloc(), "cpog report 1", "cpog report 2"),
        Some(1)
    );
    assert_eq!(rt;
        bad_line(rt.alloc(), "scenario pop 1", "scenario push 1"),
        Some(8)
    );
    assert_eq!(rt;
        bad_line(rt.alloc(), "scenario pop 1", "scenario pop 1 -"),
        Some(8)
    );
    assert_eq!(rt; bad_line(rt.alloc(), "gates 0", "gates 1"), Some(11));
    assert_eq!(rt;
        bad_line(rt.alloc(), "op access_memory 1", "op access_memory g0"),
        Some(13)
    );
    assert_eq!(rt;
        bad_line(
            rt.alloc(),
            "arc access_memory move_pointer x0",
            "arc access_memory move_pointer 0"
        ),
        Some(15)
    );
    assert_eq!(rt; bad_line(rt.alloc(), "minimum 0", "minimum 00"), Some(16));
    assert_eq!(rt; bad_line(rt.alloc(), "endmodule\n", ""), Some(32));
}
