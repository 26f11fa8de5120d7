//! Tables of gates over complemented signals.
ghost use Rattle.std.specs.Prelude.{◌≡◌, ◌<◌, false, true};
ghost use Rattle.cpog_defs.specs.Gates.{gate_value};
ghost use Rattle.gate_forms.specs.Forms.{flipped, table_with};

use cpog_base::bits::has_bit;

/// The value of a gate with this table on the values of its two signals.
pub(crate) fn table_value(table: u8, p: bool, q: bool) -> bool
    ensures { result ≡ gate_value table p q }
{
    has_bit(u64::from(table), 2 * u8::from(p) + u8::from(q))
}

/// The table with these four values.
fn table_of(a: bool, b: bool, c: bool, d: bool) -> u8
    ensures { result ≡ table_with a b c d }
{
    u8::from(a) + 2 * u8::from(b) + 4 * u8::from(c) + 8 * u8::from(d)
}

/// A bit, complemented where the flag is set.
pub(crate) fn flip_where(flag: bool, b: bool) -> bool
    ensures { result ≡ flipped flag b }
{
    if flag { !b } else { b }
}

/// The value over complemented signals, complemented itself.
fn flipped_value(table: u8, j: bool, k: bool, flag: bool, p: bool, q: bool) -> bool
    ensures { result ≡ flipped flag (gate_value table (flipped j p) (flipped k q)) }
{
    flip_where(flag, table_value(table, flip_where(j, p), flip_where(k, q)))
}

/// The table over complemented signals, complemented itself.
pub(crate) fn flipped_table(table: u8, j: bool, k: bool, flag: bool) -> u8
    ensures { result ≡ table_with
        (flipped flag (gate_value table (flipped j false) (flipped k false)))
        (flipped flag (gate_value table (flipped j false) (flipped k true)))
        (flipped flag (gate_value table (flipped j true) (flipped k false)))
        (flipped flag (gate_value table (flipped j true) (flipped k true))) }
{
    table_of(
        flipped_value(table, j, k, flag, false, false),
        flipped_value(table, j, k, flag, false, true),
        flipped_value(table, j, k, flag, true, false),
        flipped_value(table, j, k, flag, true, true),
    )
}
