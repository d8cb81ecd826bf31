//! The bytes of a glyph or of a row of an image.
ghost use Rattle.std.specs.Prelude.{◌≡◌, [], length};
ghost use Rattle.scene_defs.specs.RowBytes.{bytes_in_hex};

use std::marker::Model;

/// The most digits that a line can have.
const MOST_DIGITS: usize = 4096;

/// The most bytes that the digits of a line can say.
pub const MOST_BYTES: usize = MOST_DIGITS / 2;

/// How bytes are kept: as they are, or as two hexadecimal digits for each.
#[derive(Clone, Copy)]
enum Form<'a> {
    Plain(&'a [u8]),
    Hex(&'a [u8]),
}

/// The bytes of a glyph or of a row of an image: as they are, or as the digits of a line.
#[derive(Drop)]
pub struct RowBytes<'a> {
    form: Form<'a>,
}

impl<'a> Model for RowBytes<'a> {
    ghost use Rattle.std.specs.Prelude.{List, ℕ};
    ghost use Rattle.scene_defs.specs.RowBytes.{bytes_in, IsForm};

    ghost Value = { List ℕ };

    ghost view = { λ r. bytes_in r.form };

    ghost invariant = { λ r. IsForm r.form };
}

impl<'a> RowBytes<'a> {
    /// These bytes.
    pub fn plain(bytes: &'a [u8]) -> RowBytes<'a>
        ensures { result ≡ bytes.now }
    {
        RowBytes {
            form: Form::Plain(bytes),
        }
    }

    /// The bytes that hexadecimal digits of either case say, two for each. `None` if they are no such digits,
    /// or more than a line can have.
    #[tactic(auto, unfolding(crate::specs::RowBytes::bytes_in_hex))]
    pub fn hex(digits: &'a [u8]) -> Option<RowBytes<'a>>
        ensures { result ≡ bytes_in_hex digits.now }
    {
        if digits.len() > MOST_DIGITS {
            return None;
        }
        let mut room = [0; MOST_BYTES];
        if hex::decode_to_slice(digits, &mut room[..digits.len() / 2]).is_err() {
            return None;
        }
        Some(RowBytes {
            form: Form::Hex(digits),
        })
    }

    /// The bytes. Those that digits say are written into `room`.
    #[tactic(auto, unfolding(crate::specs::RowBytes::bytes_in_hex))]
    pub fn read<'r>(&'r self, room: &'r mut [u8; MOST_BYTES]) -> &'r [u8]
        ensures { result.now ≡ self.now }
    {
        match self.form {
            Form::Plain(bytes) => bytes,
            Form::Hex(digits) => {
                let bytes = &mut room[..digits.len() / 2];
                let _ = hex::decode_to_slice(digits, bytes);
                bytes
            }
        }
    }
}
