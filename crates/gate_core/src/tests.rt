//! What no clause says: that the calls that take memory succeed where memory is there; and gates that were made by hand.

ghost use Rattle.std.specs.Prelude.{◌≤◌, length, IfOk};
ghost use Rattle.std.specs.List.{All};
ghost use Rattle.gate_core.specs.Columns.{IsOpenColumn};

use crate::{
    CodesFault, ConditionalGraph, FirstEncoding, Gate, GateList, Ref, first_encode, free_patterns,
    least_codes,
};
use cpog_base::{BIT_LIMIT, Bit3, Column, Memory, OpId, Pattern, SCENARIO_LIMIT, ScenId};
use std::alloc::Global;

#[test]
fn an_exclusive_or_has_its_truth_table(rt: HostRuntime) {
    let mut gates = GateList::new(rt.alloc(), 2);
    let number = gates
        .push(Gate {
            j: 0,
            k: 1,
            table: 6,
        })
        .expect(&rt, "there is memory");
    assert_eq!(rt; number, 2);
    let copy = gates.try_clone(rt.alloc()).expect(&rt, "there is memory");
    for (word, want) in [(0, false), (1, true), (2, true), (3, false)] {
        let mut values = [false; 3];
        copy.eval(word, &mut values);
        assert_eq!(rt; values[2], want, "at {word}");
    }
}

#[test]
fn a_new_graph_has_no_condition_but_0(rt: HostRuntime) {
    let graph = ConditionalGraph::new(rt.alloc(), 2).expect(&rt, "there is memory");
    assert!(rt; graph.op(OpId(1)) == Ref::Const(false));
    assert!(rt; graph.arc(OpId(0), OpId(1)) == Ref::Const(false));
}

#[test]
fn three_in_two_words_clash(rt: HostRuntime) {
    let even = Pattern::new(2, 1, 0);
    let fault = least_codes(rt.alloc(), &[even, even, even], 2).err();
    assert!(rt; fault == Some(CodesFault::Clash(ScenId(2))));
}

/// The column of so many scenarios that a text writes, a character a scenario.
fn column_of(n: u8, text: &str) -> Column
    requires { n ≤ SCENARIO_LIMIT }
{
    let mut column = Column::new(n);
    for (s, b) in text.bytes().enumerate() {
        let asked = match b {
            b'1' => Bit3::One,
            b'0' => Bit3::Zero,
            _ => Bit3::Free,
        };
        if s < column.len() as usize {
            column.set(ScenId(s as u8), asked);
        }
    }
    column
}

/// The open columns among those that some texts write.
fn columns_of(alloc: Global, n: u8, texts: &[&str]) -> Result<Vec<Column>, Memory>
    requires { n ≤ SCENARIO_LIMIT }
    ensures open { IfOk result (λ columns. All (IsOpenColumn n) columns.items) }
    ensures few { IfOk result (λ columns. length columns.items ≤ length texts.now) }
{
    let mut columns = Vec::new(alloc);
    for text in texts {
        let column = column_of(n, text);
        if column.len() == n && column.has_one() && column.has_zero() {
            columns.push(column)?;
        }
    }
    Ok(columns)
}

/// The first encoding of the columns that texts write, on the least codes with these given bits.
fn encoding_of(
    alloc: Global,
    given: &[Pattern],
    bits: u8,
    texts: &[&str],
) -> Result<FirstEncoding, CodesFault>
    requires some_bit { 1 ≤ bits }
    requires few_bits { bits ≤ BIT_LIMIT }
    requires few { length given.now ≤ SCENARIO_LIMIT }
    requires few_texts { length texts.now ≤ 8 }
{
    let codes = match least_codes(alloc, given, bits) {
        Ok(codes) => codes,
        Err(fault) => return Err(fault),
    };
    let columns = match columns_of(alloc, codes.len() as u8, texts) {
        Ok(columns) => columns,
        Err(_) => return Err(CodesFault::Memory),
    };
    match first_encode(alloc, columns.as_slice(), codes.as_slice(), bits) {
        Ok(encoding) => Ok(encoding),
        Err(_) => Err(CodesFault::Memory),
    }
}

fn signal(number: u32, negated: bool) -> Ref {
    Ref::Signal { number, negated }
}

fn gate(j: u32, k: u32, table: u8) -> Gate {
    Gate { j, k, table }
}

/// The code 0 is given to the last of three scenarios, so the others have 1 and 2.
#[test]
fn gates_are_over_the_bits_of_codes(rt: HostRuntime) {
    let free = Pattern::free(2);
    let e = encoding_of(
        rt.alloc(),
        &[free, free, Pattern::new(2, 3, 0)],
        2,
        &["110", "001", "101"],
    )
    .expect(&rt, "there is memory");
    assert!(rt; e.codes.as_slice() == [1, 2, 0].as_slice());
    assert!(rt; e.gates.gates() == [gate(0, 1, 6)].as_slice());
    assert!(rt;
        e.refs.as_slice() == [signal(2, false), signal(2, true), signal(1, true)].as_slice()
    );
}

#[test]
fn minterms_are_joined_and_shared(rt: HostRuntime) {
    // The parity of three bits, the complement of a minterm in it, and two zeros that no two inputs tell apart.
    let given = free_patterns(rt.alloc(), 8, 3).expect(&rt, "there is memory");
    let texts = ["01101001", "10111111", "11101011"];
    let e = encoding_of(rt.alloc(), given.as_slice(), 3, &texts).expect(&rt, "there is memory");
    let gates = [
        gate(0, 1, 4),
        gate(2, 3, 2),
        gate(0, 1, 2),
        gate(2, 5, 2),
        gate(0, 1, 1),
        gate(2, 7, 8),
        gate(0, 1, 8),
        gate(2, 9, 8),
        gate(4, 6, 14),
        gate(8, 11, 14),
        gate(10, 12, 14),
        gate(2, 9, 2),
        gate(2, 3, 8),
        gate(14, 15, 14),
    ];
    assert!(rt; e.gates.gates() == gates.as_slice());
    assert!(rt;
        e.refs.as_slice() == [signal(13, false), signal(4, true), signal(16, true)].as_slice()
    );
}
