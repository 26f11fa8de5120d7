ghost use Rattle.std.specs.Prelude.{◌≡◌, ◌<◌, ◌+◌, ◌^◌, IfSome};
ghost use Rattle.report_reader.specs.References.{signal_in, condition_in};

use cpog_defs::types::Ref;
use line_rows::{behind, number_of};

/// The signal with this name.
#[tactic(auto, unfolding(crate::specs::References::signal_in))]
pub fn signal_of(word: &[u8], inputs: u8, gates: u32) -> Option<u32>
    requires { inputs + gates < 2 ^ 32 }
    ensures { result ≡ signal_in inputs gates word.now }
{
    if let Some(digits) = behind(word, b"x") {
        let number = number_of(digits, u64::from(inputs))?;
        return Some(number as u32);
    }
    let digits = behind(word, b"g")?;
    let gate = number_of(digits, u64::from(gates))?;
    Some(u32::from(inputs) + gate as u32)
}

/// The condition that is written so.
#[tactic(auto, unfolding(crate::specs::References::condition_in))]
pub fn condition_of(word: &[u8], inputs: u8, gates: u32) -> Option<Ref>
    requires { inputs + gates < 2 ^ 32 }
    ensures { result ≡ condition_in inputs gates word.now }
{
    if word == b"0".as_slice() {
        return Some(Ref::Const(false));
    }
    if word == b"1".as_slice() {
        return Some(Ref::Const(true));
    }
    match behind(word, b"!") {
        Some(rest) => {
            let number = signal_of(rest, inputs, gates)?;
            Some(Ref::Signal {
                number,
                negated: true,
            })
        }
        None => {
            let number = signal_of(word, inputs, gates)?;
            Some(Ref::Signal {
                number,
                negated: false,
            })
        }
    }
}
