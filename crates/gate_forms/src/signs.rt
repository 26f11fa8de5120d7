//! Gates whose signals are complemented where flags are set.
ghost use Rattle.std.specs.Prelude.{◌≡◌, ◌+◌, ◌<◌, ◌≤◌, ◌^◌, length, take, map, IfOk, OnOk, slice_index_or};
ghost use Rattle.std.specs.List.{All};
ghost use Rattle.cpog_defs.specs.Gates.{GateList, gate_value, signal_count, IsRefOver};
ghost use Rattle.gate_forms.specs.Forms.{flag_at, new_flag, new_gate, new_gates, new_flags, new_ref};

use crate::tables::{flip_where, flipped_table, table_value};
use cpog_base::Memory;
use gate_core::{Gate, GateList, Ref};
use std::alloc::Global;

/// Which gates are complemented.
#[derive(Clone, Copy)]
pub(crate) enum Form {
    /// None is.
    Kept,
    /// Each is that would be 1 where both of its signals are 0.
    Normal,
}

/// Whether a gate is complemented.
fn flag_of(gate: Gate, flags: &[bool], form: Form) -> bool
    requires lower { gate.j < gate.k }
    requires earlier { gate.k < length flags.now }
    ensures { result ≡ new_flag form flags.now gate }
{
    match form {
        Form::Kept => false,
        Form::Normal => { table_value(gate.table, flags[gate.j as usize], flags[gate.k as usize]) }
    }
}

/// The gate over complemented signals.
fn gate_under(gate: Gate, flags: &[bool], form: Form) -> Gate
    requires lower { gate.j < gate.k }
    requires earlier { gate.k < length flags.now }
    ensures { result ≡ new_gate form flags.now gate }
{
    let flag = flag_of(gate, flags, form);
    Gate {
        j: gate.j,
        k: gate.k,
        table: flipped_table(
            gate.table,
            flags[gate.j as usize],
            flags[gate.k as usize],
            flag,
        ),
    }
}

/// Appends the gates over complemented signals, and the flags of their signals.
pub(crate) fn push_gates_under(
    list: &mut GateList,
    flags: &mut Vec<bool>,
    gates: &GateList,
    form: Form,
) -> Result<(), Memory>
    requires empty { list.old ≡ record gates.now { gates = take 0 gates.now.gates } }
    requires one_each { length flags.old.items ≡ gates.now.inputs }
    ensures gates { OnOk result (list.new ≡
        record gates.now { gates = new_gates form flags.old.items gates.now.gates }) }
    ensures flags { OnOk result (flags.new.items ≡ new_flags form flags.old.items gates.now.gates) }
{
    let all = gates.gates();
    for g in 0..all.len() {
        let gate = all[g];
        let flag = flag_of(gate, flags, form);
        list.push(gate_under(gate, flags, form))?;
        flags.push(flag)?;
    }
    Ok(())
}

/// A reference to a complemented signal.
fn ref_under(reference: Ref, flags: &[bool]) -> Ref
    requires { IsRefOver (length flags.now) reference }
    ensures { result ≡ new_ref flags.now reference }
{
    match reference {
        Ref::Const(value) => Ref::Const(value),
        Ref::Signal { number, negated } => Ref::Signal {
            number,
            negated: flip_where(flags[number as usize], negated),
        },
    }
}

/// The references to complemented signals.
pub(crate) fn refs_under(alloc: Global, refs: &[Ref], flags: &[bool]) -> Result<Vec<Ref>, Memory>
    requires { All (IsRefOver (length flags.now)) refs.now }
    ensures { IfOk result (λ list. list.items ≡ map (new_ref flags.now) refs.now) }
{
    let mut list = Vec::new(alloc);
    for reference in refs {
        list.push(ref_under(*reference, flags))?;
    }
    Ok(list)
}
