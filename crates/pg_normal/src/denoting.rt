//! From the normal forms of a file to the scenarios that it denotes, in their order.
ghost use Rattle.std.specs.Prelude.{◌≡◌, ◌^◌, ◌<◌, ◌≤◌, IfOk, IfErr, length};
ghost use Rattle.pg_normal.specs.declared.denoting.DenotingFault.TheVariants as fault;
ghost use Rattle.pg_normal.specs.Changes.{IsBelow};
ghost use Rattle.pg_normal.specs.Denoting.{AreScenariosOf, IsDenotingFault, IsUnboundForm, NamesParam};
ghost use Rattle.pg_normal.specs.Instances.{IsInstance};
ghost use Rattle.pg_normal.specs.Normals.{AreNormalsOf};

use crate::{InstanceFault, Kind, Normal, NormalList, instance};
use cpog_base::{PARAM_LIMIT, SCENARIO_LIMIT, Scenario};
use pg_text::File;
use std::alloc::{AllocFailed, Global};

/// Why the statements of a file have no scenarios.
#[derive(Clone, Copy, Debug, PartialEq, Eq)]
pub enum DenotingFault {
    /// On this line stands the first scenario that leaves a parameter open, and this is its least one, by its number.
    Unbound { line: u32, number: u8 },
    /// No memory was left.
    Memory,
}

impl<T: Drop> From<AllocFailed<T>> for DenotingFault {
    ghost from_gives = { λ _ e. e ≡ fault.Memory };

    fn from(_error: AllocFailed<T>) -> DenotingFault {
        DenotingFault::Memory
    }
}

/// The scenario of a form, of so many operations as there may be.
fn scenario_of(alloc: Global, normal: &Normal, count: u8) -> Result<Scenario, DenotingFault>
    requires few { count ≤ 128 }
    requires below { IsBelow count normal.now.form }
    requires values { normal.now.binding.values < 2 ^ PARAM_LIMIT }
    ensures ok { IfOk result (IsInstance normal.now.form normal.now.binding.fixed normal.now.binding.values count) }
    ensures err { IfErr result (IsUnboundForm normal.now) }
{
    match instance(alloc, &normal.form, normal.binding, count) {
        Ok(scenario) => Ok(scenario),
        Err(InstanceFault::Unbound(number)) => {
            let line = normal.origin.line;
            Err(DenotingFault::Unbound { line, number })
        }
        Err(InstanceFault::Memory) => Err(DenotingFault::Memory),
    }
}

/// The scenarios that a file denotes, whose normal forms these are.
///
/// # Errors
///
/// `Unbound` where a scenario leaves a parameter open, with the line of the first such scenario and its least such
/// parameter; `Memory` where none is left.
pub fn scenarios_of(
    alloc: Global,
    file: &File,
    normals: &NormalList,
) -> Result<Vec<Scenario>, DenotingFault>
    requires { AreNormalsOf file.now normals.now.normals }
    ensures scenarios { IfOk result (λ scenarios. AreScenariosOf file.now scenarios.items) }
    ensures few { IfOk result (λ scenarios. length scenarios.items ≤ SCENARIO_LIMIT) }
    ensures err { IfErr result (IsDenotingFault file.now) }
    ensures known { IfErr result (NamesParam file.now) }
{
    let _statements = file.len();
    let count = file.operations().len() as u8;
    let mut scenarios = Vec::new(alloc);
    'forms: for normal in normals.as_slice() {
        match normal.origin.kind {
            Kind::Graph => {}
            Kind::Scenario => scenarios.push(scenario_of(alloc, normal, count)?)?,
        }
    }
    Ok(scenarios)
}
