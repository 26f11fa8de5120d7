//! The bindings of a statement as masks over the parameters.
ghost use Rattle.std.specs.Prelude.{◌≡◌, ◌^◌, ◌<◌, ◌≤◌, ◌==◌, ◌||◌, ◌&&◌, ℕ, List, [], length};
ghost use Rattle.cpog_defs.specs.Codes.{bit};
ghost use Rattle.pg_normal.specs.Normals.{IsBinding};

use cpog_base::bits::with_bit;
use cpog_base::{Name, Names, PARAM_LIMIT};

/// Bits of some parameters: which are fixed, and their values.
#[derive(Clone, Copy, Debug, PartialEq, Eq)]
pub struct Partial {
    pub fixed: u8,
    pub values: u8,
}

/// No parameter, as a graph binds.
pub(crate) fn no_binding() -> Partial
    ensures { (params : List (List ℕ)) → IsBinding params [] result }
{
    Partial {
        fixed: 0,
        values: 0,
    }
}

/// The mask with the bit of one more parameter.
fn with_param(mask: u8, place: u8) -> u8
    requires place { place < PARAM_LIMIT }
    requires few { mask < 2 ^ PARAM_LIMIT }
    ensures few { result < 2 ^ PARAM_LIMIT }
    ensures bits { (k : ℕ) → bit result k ≡ (bit mask k || (place == k)) }
{
    with_bit(u64::from(mask), place, true) as u8
}

/// With the bit of one more parameter.
fn bind(binding: Partial, place: u8, one: bool) -> Partial
    requires place { place < PARAM_LIMIT }
    requires few { (binding.fixed < 2 ^ PARAM_LIMIT) × (binding.values < 2 ^ PARAM_LIMIT) }
    ensures few { (result.fixed < 2 ^ PARAM_LIMIT) × (result.values < 2 ^ PARAM_LIMIT) }
    ensures fixed { (k : ℕ) → bit result.fixed k ≡ (bit binding.fixed k || (place == k)) }
    ensures values { (k : ℕ) → bit result.values k ≡ (bit binding.values k || ((place == k) && one)) }
{
    let fixed = with_param(binding.fixed, place);
    if one {
        let values = with_param(binding.values, place);
        return Partial { fixed, values };
    }
    Partial {
        fixed,
        values: binding.values,
    }
}

/// The parameters that bindings fix, and their bits.
pub(crate) fn binding_of(params: &Names, bindings: &[(Name, bool)]) -> Partial
    requires { length params.now ≤ PARAM_LIMIT }
    ensures { IsBinding params.now bindings.now result }
{
    let mut binding = no_binding();
    'bindings: for (name, one) in bindings {
        if let Some(place) = params.find(name.as_str()) {
            binding = bind(binding, place as u8, *one);
        }
    }
    binding
}
