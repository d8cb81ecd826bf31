//! Colours of sixteen bits.
ghost use Rattle.std.specs.Prelude.{◌≡◌, ◌/◌};

/// A colour of five bits of red, six of green and five of blue, red in the highest bits.
#[derive(Clone, Copy, Debug, PartialEq, Eq)]
pub struct Rgb565(pub u16);

impl Rgb565 {
    ghost use Rattle.gui_base.specs.Color.{red, green, blue, color, from_five, from_six};

    pub const BLACK: Rgb565 = Rgb565(0);

    pub const WHITE: Rgb565 = Rgb565(0xFFFF);

    /// The nearest colour below: each channel of eight bits loses its low bits.
    pub fn from_rgb(r: u8, g: u8, b: u8) -> Rgb565
        ensures { result ≡ color (r / 8) (g / 4) (b / 8) }
    {
        Rgb565(u16::from(r / 8) * 2048 + u16::from(g / 4) * 32 + u16::from(b / 8))
    }

    /// Red, green and blue in eight bits each, so that black is 0 and white is 255.
    pub fn to_rgb(self) -> (u8, u8, u8)
        ensures red { result.0 ≡ from_five (red self) }
        ensures green { result.1 ≡ from_six (green self) }
        ensures blue { result.2 ≡ from_five (blue self) }
    {
        let red = self.0 / 2048;
        let green = self.0 / 32 % 64;
        let blue = self.0 % 32;
        (
            (red * 8 + red / 4) as u8,
            (green * 4 + green / 16) as u8,
            (blue * 8 + blue / 4) as u8,
        )
    }
}
