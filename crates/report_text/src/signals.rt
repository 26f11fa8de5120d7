//! The texts of conditions and bits.
ghost use Rattle.std.specs.Prelude.{◌≡◌, ◌∷◌, [], ◌<◌, ◌≤◌, OnOk};
ghost use Rattle.cpog_defs.specs.Codes.{bit};
ghost use Rattle.netlist_verilog.specs.Writes.{Writes};
ghost use Rattle.report_text.specs.Rows.{digit, digits_of, ref_text};

use cpog_base::BIT_LIMIT;
use cpog_defs::types::Ref;
use netlist_verilog::SignalName;
use std::alloc::AllocError;
use std::fmt::Write;

/// Writes a condition over so many inputs.
pub(crate) fn put_ref(out: &mut String, inputs: u8, reference: Ref) -> Result<(), AllocError>
    ensures { OnOk result (Writes out.old out.new (ref_text inputs reference)) }
{
    match reference {
        Ref::Const(false) => out.push_str("0"),
        Ref::Const(true) => out.push_str("1"),
        Ref::Signal {
            number,
            negated: false,
        } => write!(out, "{}", SignalName { inputs, number }),
        Ref::Signal {
            number,
            negated: true,
        } => write!(out, "!{}", SignalName { inputs, number }),
    }
}

/// Writes the first bits of a word, that of weight 1 first.
pub(crate) fn put_digits(out: &mut String, bits: u8, word: u8) -> Result<(), AllocError>
    requires { bits ≤ BIT_LIMIT }
    ensures { OnOk result (Writes out.old out.new (digits_of bits word)) }
{
    'bits: for i in 0..bits {
        out.push_str(digit_text(word, i))?;
    }
    Ok(())
}

fn digit_text(word: u8, i: u8) -> &'static str
    requires { i < BIT_LIMIT }
    ensures { result.now ≡ digit (bit word i) ∷ [] }
{
    if (word >> i) & 1 == 1 { "1" } else { "0" }
}
