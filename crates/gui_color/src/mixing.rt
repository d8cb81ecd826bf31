//! Mixing one colour over another.
ghost use Rattle.std.specs.Prelude.{◌≡◌, ◌+◌, ◌*◌, ◌/◌, ◌<◌, ◌≤◌};
ghost use Rattle.gui_base.specs.Color.{red, green, blue, color, parts, mix};
ghost use Rattle.gui_color.specs.Masks.{masked};

use gui_base::Rgb565;

/// All thirty-seconds: the upper colour alone is seen.
pub(crate) const ALL_PARTS: u16 = 32;

/// `fg` over `bg` with an opacity from 0 to 255. Each channel is `bg + floor((fg - bg) * m / 32)` with
/// `m = floor((opa + 4) / 8)`, so opacities from 252 on give `fg`, and those up to 3 leave `bg`.
#[inline]
pub fn mix(fg: Rgb565, bg: Rgb565, opa: u8) -> Rgb565
    ensures { result ≡ mix fg bg opa }
{
    let parts = parts_of(opa);
    let parts_left = ALL_PARTS - parts;
    color_of(
        mixed_channel(red_of(fg) * parts, red_of(bg), parts_left),
        mixed_channel(green_of(fg) * parts, green_of(bg), parts_left),
        mixed_channel(blue_of(fg) * parts, blue_of(bg), parts_left),
    )
}

/// One opacity after another: `floor(a * b / 255)`.
#[inline]
pub fn combine(a: u8, b: u8) -> u8
    ensures { result ≡ a * b / 255 }
{
    (u32::from(a) * u32::from(b) / 255) as u8
}

/// A colour made ready to be mixed over single pixels, one after the other: its part of the products is taken
/// once. Red stands 64 times and green 32 times as high as it is, as where groups are mixed.
#[derive(Clone, Copy)]
pub(crate) struct Veil {
    fg: Rgb565,
    opa: u8,
    /// What each channel of `fg` adds: the channel times the thirty-seconds that it takes, of red 64 times
    /// that, and of green 32 times.
    red_share: u16,
    green_share: u16,
    blue_share: u16,
    /// The thirty-seconds that are left to the colour below, and 64 times these.
    parts_left: u16,
    red_parts_left: u16,
    ghost red_is: { red_share ≡ red fg * parts opa * 64 },
    ghost green_is: { green_share ≡ green fg * parts opa * 32 },
    ghost blue_is: { blue_share ≡ blue fg * parts opa },
    ghost all_parts: { parts_left + parts opa ≡ 32 },
    ghost red_parts_are: { red_parts_left ≡ parts_left * 64 },
}

impl Veil {
    pub(crate) fn new(fg: Rgb565, opa: u8) -> Veil
        ensures fg { result.fg ≡ fg }
        ensures opa { result.opa ≡ opa }
    {
        let parts = parts_of(opa);
        let parts_left = ALL_PARTS - parts;
        Veil {
            fg,
            opa,
            red_share: red_of(fg) * parts * 64,
            green_share: green_of(fg) * parts * 32,
            blue_share: blue_of(fg) * parts,
            parts_left,
            red_parts_left: parts_left * 64,
        }
    }

    /// The colour that is seen where it lies over another.
    #[inline(always)]
    pub(crate) fn over(self, bg: Rgb565) -> Rgb565
        ensures { result ≡ mix self.fg bg self.opa }
    {
        let red = red_of(bg) * self.red_parts_left + self.red_share;
        let green = green_of(bg) * 32 * self.parts_left + self.green_share;
        let blue = blue_of(bg) * self.parts_left + self.blue_share;
        Rgb565(red / 2048 * 2048 + (green / 1024 * 1024 + blue) / 32)
    }

    /// The colour that is seen: the mixed one if a test holds, and else the one below.
    #[inline(always)]
    pub(crate) fn over_if(self, test: bool, bg: Rgb565) -> Rgb565
        ensures { result ≡ masked test self.fg self.opa bg }
    {
        if test { self.over(bg) } else { bg }
    }
}

/// How many thirty-seconds of the upper colour an opacity takes.
pub(crate) fn parts_of(opa: u8) -> u16
    ensures { result ≡ parts opa }
{
    (u16::from(opa) + 4) / 8
}

/// A channel of two colours mixed: what is left of the lower one, and the share of the upper one. No sum is
/// above 63 * 32, so sixteen bits hold it.
#[inline(always)]
fn mixed_channel(share: u16, below: u16, parts_left: u16) -> u16
    requires { below * parts_left + share ≤ 2016 }
    ensures { result ≡ (below * parts_left + share) / 32 }
{
    (below * parts_left + share) / ALL_PARTS
}

/// The five bits of red.
#[inline(always)]
fn red_of(c: Rgb565) -> u16
    ensures { result ≡ red c }
{
    c.0 / 2048
}

/// The six bits of green.
#[inline(always)]
fn green_of(c: Rgb565) -> u16
    ensures { result ≡ green c }
{
    c.0 / 32 % 64
}

/// The five bits of blue.
#[inline(always)]
fn blue_of(c: Rgb565) -> u16
    ensures { result ≡ blue c }
{
    c.0 % 32
}

/// The colour of three channels.
#[inline(always)]
fn color_of(red: u16, green: u16, blue: u16) -> Rgb565
    requires red { red < 32 }
    requires green { green < 64 }
    requires blue { blue < 32 }
    ensures { result ≡ color red green blue }
{
    Rgb565(red * 2048 + green * 32 + blue)
}
