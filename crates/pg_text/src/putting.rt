//! What every graph text is put together from, behind the bytes that are there: bytes, names and bindings. A file
//! (`writing`) and the normal forms of one are written by these.
ghost use Rattle.std.specs.Prelude.{◌≡◌, ◌++◌, [], codes, map, OnOk, OnErr};
ghost use Rattle.std.proofs.Common.{get_or};
ghost use Rattle.pg_text.specs.Writing.{bit_text, with_text, row_text, bind_text, when_needed};

use cpog_base::{Memory, Name, Names};
use std::alloc::Global;

/// Puts the bytes last.
///
/// # Errors
///
/// `Memory` where none is left.
pub fn put(out: &mut Vec<u8>, text: &[u8]) -> Result<(), Memory>
    ensures put { OnOk result (out.new.items ≡ out.old.items ++ text.now) }
    ensures err { OnErr result (out.new.items ≡ out.old.items) }
{
    out.extend_from_slice(text)?;
    Ok(())
}

/// Puts the bytes last where they are needed, as a sign between members is.
///
/// # Errors
///
/// `Memory` where none is left.
pub fn put_if(out: &mut Vec<u8>, is_needed: bool, text: &[u8]) -> Result<(), Memory>
    ensures put { OnOk result (out.new.items ≡ out.old.items ++ when_needed is_needed text.now) }
    ensures err { OnErr result (out.new.items ≡ out.old.items) }
{
    if is_needed { put(out, text) } else { Ok(()) }
}

/// A bit as text.
pub(crate) fn text_of_bit(bit: bool) -> &'static [u8]
    ensures { result.now ≡ bit_text bit }
{
    if bit { b"1" } else { b"0" }
}

/// The name at a place, and nothing for a place without a name.
pub fn name_of(names: &Names, place: u32) -> &str
    ensures { result.now ≡ get_or names.now place [] }
{
    if place < names.len() {
        names.get(place)
    } else {
        ""
    }
}

/// Puts a name, the sign of equality and a bit last.
fn put_binding(out: &mut Vec<u8>, binding: &(Name, bool)) -> Result<(), Memory>
    ensures { OnOk result (out.new.items ≡ out.old.items ++ bind_text binding.now) }
{
    let (name, bit) = binding;
    put(out, name.as_str().as_bytes())?;
    put(out, b" = ")?;
    put(out, text_of_bit(*bit))
}

/// Puts the bindings last with commas between them.
fn put_bindings(out: &mut Vec<u8>, bindings: &[(Name, bool)]) -> Result<(), Memory>
    ensures { OnOk result (out.new.items ≡ out.old.items ++ row_text (codes ", ") (map bind_text bindings.now)) }
{
    'bindings: for (i, binding) in bindings.iter().enumerate() {
        put_if(out, i > 0, b", ")?;
        put_binding(out, binding)?;
    }
    Ok(())
}

/// Puts `with` and the bindings last, where there is one.
///
/// # Errors
///
/// `Memory` where none is left.
pub fn put_with(out: &mut Vec<u8>, bindings: &[(Name, bool)]) -> Result<(), Memory>
    ensures { OnOk result (out.new.items ≡ out.old.items ++ with_text bindings.now) }
{
    put_if(out, !bindings.is_empty(), b" with ")?;
    put_bindings(out, bindings)
}
