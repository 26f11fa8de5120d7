ghost use Rattle.std.specs.Prelude.{◌≡◌, ◌<◌, ◌≤◌, ◌+◌, ◌^◌, IfSome};
ghost use Rattle.report_reader.specs.Reading.{bits_in, budget_in};

use line_rows::{behind, number_of};

/// The number of bits on its line.
#[tactic(auto, unfolding(crate::specs::Reading::bits_in))]
pub fn bits_of(line: &[u8]) -> Option<u8>
    ensures { result ≡ bits_in line.now }
{
    let word = behind(line, b"bits ")?;
    let bits = number_of(word, 9)?;
    if bits >= 1 { Some(bits as u8) } else { None }
}

/// The budget on its line.
#[tactic(auto, unfolding(crate::specs::Reading::budget_in))]
pub fn budget_of(line: &[u8]) -> Option<u32>
    ensures { result ≡ budget_in line.now }
{
    let word = behind(line, b"budget ")?;
    let budget = number_of(word, 8388609)?;
    if budget >= 1 {
        Some(budget as u32)
    } else {
        None
    }
}
