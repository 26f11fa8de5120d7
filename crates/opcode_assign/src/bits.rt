ghost use Rattle.std.specs.Prelude.{ℕ, ◌≤◌, ◌^◌, max};
ghost use Rattle.opcode_assign.specs.Bits.{IsLeastBits};

use cpog_base::SCENARIO_LIMIT;

/// How many bits codes have where nobody says: as few as tell so many scenarios apart, and at least so many.
pub fn default_bits(scenarios: u8, least: u8) -> u8
    requires { scenarios ≤ SCENARIO_LIMIT }
    ensures least { IsLeastBits least scenarios result }
    ensures few { result ≤ max 6 least }
{
    fewest_bits(scenarios).max(least)
}

/// As few bits as tell so many scenarios apart.
fn fewest_bits(scenarios: u8) -> u8
    requires { scenarios ≤ SCENARIO_LIMIT }
    ensures least { IsLeastBits 0 scenarios result }
    ensures few { result ≤ 6 }
{
    match scenarios {
        0..=1 => 0,
        2 => 1,
        3..=4 => 2,
        5..=8 => 3,
        9..=16 => 4,
        17..=32 => 5,
        _ => 6,
    }
}
