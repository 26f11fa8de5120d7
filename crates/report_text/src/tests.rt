//! What no clause says: that the calls that take memory succeed where memory is there, and the printed bytes.

use crate::Bound;
use crate::known::{append_evidence, append_open, put_bound};
use crate::writing::{put_arc, put_code, put_gates, put_op};
use clause_arena::Lit;
use cnf_build::{Evidence, OpenPart, Template};
use cpog_base::{Memory, Names, OpId, Pattern};
use cpog_defs::types::{Gate, Place, Ref};
use proof_check::Log;
use std::alloc::Global;
use std::test::Fail;

#[test]
fn a_gate_is_printed_with_its_signals_and_values(rt: HostRuntime) -> Result<(), Fail> {
    // x0 & x1, and the exclusive or of x1 and that gate, over two bits.
    let both = Gate {
        j: 0,
        k: 1,
        table: 8,
    };
    let one = Gate {
        j: 1,
        k: 2,
        table: 6,
    };
    let mut out = String::new(rt.alloc());
    put_gates(&mut out, 2, &[both, one])?;
    put_op(&mut out, 2, "a", Ref::Const(true))?;
    let complement = Ref::Signal {
        number: 3,
        negated: true,
    };
    put_arc(&mut out, 2, "a", "b", complement)?;
    put_bound(&mut out, Bound::Minimum(2))?;
    put_bound(&mut out, Bound::Between(4, 4))?;
    let want = "gates 2
g0 x0 x1 0001
g1 x1 g0 0110
op a 1
arc a b !g1
minimum 2
between 4 4
";
    assert_eq!(rt; out.as_str(), want);
    Ok(())
}

#[test]
fn given_bits_stand_behind_the_code(rt: HostRuntime) -> Result<(), Fail> {
    let mut out = String::new(rt.alloc());
    // The two bits of greater weight are given as 1, then the two of less weight as 0, and then none.
    put_code(&mut out, "load", 3, 7, &Pattern::new(3, 6, 6))?;
    put_code(&mut out, "store", 3, 4, &Pattern::new(3, 3, 0))?;
    put_code(&mut out, "wait", 3, 3, &Pattern::free(3))?;
    let want = "scenario load 111 -11
scenario store 001 00-
scenario wait 110
";
    assert_eq!(rt; out.as_str(), want);
    Ok(())
}

#[test]
fn a_count_is_printed_by_the_names_of_its_places(rt: HostRuntime) -> Result<(), Fail> {
    let mut names = Names::new(rt.alloc());
    names.insert("a")?;
    names.insert("b")?;
    let mut places = Vec::new(rt.alloc());
    places.push(Place::Op(OpId(1)))?;
    places.push(Place::Arc(OpId(1), OpId(0)))?;
    let out = String::new(rt.alloc());
    let out = append_evidence(out, &names, &Evidence::Count(places))?;
    let out = append_evidence(out, &names, &Evidence::Zero)?;
    let out = append_open(out, &OpenPart::Closed)?;
    let want = "evidence count\nop b\narc b a\nevidence zero\nopen none\n";
    assert_eq!(rt; out.as_str(), want);
    Ok(())
}

fn small_log(alloc: Global) -> Result<Log, Memory> {
    let mut log = Log::new(alloc, 4);
    log.push_add(5, &[Lit::from_var(1, true)], &[1, 2])?;
    log.push_del(&[1, 2])?;
    log.push_add(7, &[], &[5, 3, 4])?;
    Ok(log)
}

#[test]
fn logs_are_printed_up_to_their_end(rt: HostRuntime) -> Result<(), Fail> {
    let names = Names::new(rt.alloc());
    let refutation = Evidence::Refutation {
        template: Template::First,
        gates: 1,
        log: small_log(rt.alloc())?,
    };
    let open_log = OpenPart::Log {
        template: Template::Third,
        gates: 2,
        log: Log::new(rt.alloc(), 0),
    };
    let size = OpenPart::Size {
        template: Template::Second,
        gates: 65535,
    };
    let out = String::new(rt.alloc());
    let out = append_evidence(out, &names, &refutation)?;
    let out = append_open(out, &open_log)?;
    let out = append_open(out, &size)?;
    let want = "evidence refutation 1 1
5 -1 0 1 2 0
5 d 1 2 0
7 0 5 3 4 0
end
open log 3 2
end
open size 2 65535
";
    assert_eq!(rt; out.as_str(), want);
    Ok(())
}
