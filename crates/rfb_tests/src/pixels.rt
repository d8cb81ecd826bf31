//! Pixels in the formats of viewers.

use arrayvec::ArrayVec;
use gui_base::Rgb565;
use rfb_view::pixels::{number, push_pixels};
use session_defs::{Channel, Format};
use std::test::Fail;

/// Eight bits: three of red, three of green, two of blue.
const SMALL: Format = Format {
    bits: 8,
    big: false,
    red: Channel { most: 7, shift: 5 },
    green: Channel { most: 7, shift: 2 },
    blue: Channel { most: 3, shift: 0 },
};

/// Thirty-two bits, eight of each colour, high byte first.
const LARGE: Format = Format {
    bits: 32,
    big: true,
    red: Channel {
        most: 255,
        shift: 16,
    },
    green: Channel {
        most: 255,
        shift: 8,
    },
    blue: Channel {
        most: 255,
        shift: 0,
    },
};

#[test]
fn pixels_have_numbers(rt: HostRuntime) -> Result<(), Fail> {
    for (color, small, large) in [
        (0x0000, 0, 0),
        (0xFFFF, 0xFF, 0xFF_FFFF),
        (0xF800, 0xE0, 0xFF_0000),
        (0x07E0, 0x1C, 0x00_FF00),
        (0x001F, 0x03, 0x00_00FF),
        (0x8410, 0x92, 0x84_8284),
    ] {
        assert_eq!(rt; number(SMALL, Rgb565(color)), small);
        assert_eq!(rt; number(LARGE, Rgb565(color)), large);
    }
    Ok(())
}

#[test]
fn pixels_have_bytes(rt: HostRuntime) -> Result<(), Fail> {
    let row = [Rgb565(0xF800), Rgb565(0x001F)];
    let mut bytes: ArrayVec<u8, 8> = ArrayVec::new();
    push_pixels(&mut bytes, LARGE, &row);
    assert_eq!(rt; bytes.as_slice(), [0, 0xFF, 0, 0, 0, 0, 0, 0xFF].as_slice());
    Ok(())
}
