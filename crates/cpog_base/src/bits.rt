//! Single bits of a word of 64: bit i has weight 2 to the power i. A smaller word is widened by its caller.

ghost use Rattle.std.specs.Prelude.{◌≡◌, ◌≢◌, ◌↔◌, ◌<◌, ◌^◌, ℕ, IsTrue};
ghost use Rattle.cpog_base.specs.Bits.{IsWithin, ShareBit};
ghost use Rattle.cpog_defs.specs.Codes.{bit};

/// Whether bit i of the word is 1. None from 64 on is.
pub fn has_bit(word: u64, i: u8) -> bool
    ensures { result ≡ bit word i }
{
    i < 64 && word >> i & 1 == 1
}

/// The word with this value at bit i.
pub fn with_bit(word: u64, i: u8, value: bool) -> u64
    requires { i < 64 }
    ensures same { bit result i ≡ value }
    ensures others { (k : ℕ) → k ≢ i → bit result k ≡ bit word k }
    ensures below { (n : ℕ) → i < n → word < 2 ^ n → result < 2 ^ n }
{
    let mask = 1 << i;
    if value { word | mask } else { word & !mask }
}

/// Whether each bit of one word is a bit of the other.
pub fn is_within(word: u64, other: u64) -> bool
    ensures { IsTrue result ↔ IsWithin word other }
{
    word & !other == 0
}

/// Whether some bit is one of both words.
pub fn share_bit(word: u64, other: u64) -> bool
    ensures { IsTrue result ↔ ShareBit word other }
{
    word & other != 0
}
