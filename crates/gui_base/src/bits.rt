//! Sets of small numbers, as the bits of a number.
ghost use Rattle.std.specs.Prelude.{◌≡◌, ◌<◌, ◌^◌, ℕ, if◌then◌else◌, ◌==◌};
ghost use Rattle.gui_base.specs.Bits.{has_bit, with_bit};

/// A set of numbers from 0 to 15: the number k is in it if bit k is 1.
#[derive(Clone, Copy, Debug, PartialEq, Eq)]
pub struct Bits(pub u16);

impl Bits {
    /// Whether a number is in it.
    pub fn has(self, bit: u8) -> bool
        requires { bit < 16 }
        ensures { result ≡ has_bit self.0 bit }
    {
        self.0 >> bit & 1 == 1
    }

    /// The set with a number put in, or taken out.
    pub fn with(self, bit: u8, on: bool) -> Bits
        requires { bit < 16 }
        ensures value { result.0 ≡ with_bit self.0 bit on }
        ensures has { (k : ℕ) → k < 16 → has_bit result.0 k ≡ (if k == bit then on else has_bit self.0 k) }
        ensures below { (n : ℕ) → bit < n → self.0 < 2 ^ n → result.0 < 2 ^ n }
    {
        let one = 1 << bit;
        Bits(if on { self.0 | one } else { self.0 & !one })
    }
}
