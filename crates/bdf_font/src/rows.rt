//! Rows of a character.
ghost use Rattle.bdf_font.specs.Bdf.{is_row, row_digits, upper};
ghost use Rattle.hex.specs.Hex.{is_hex_digit};
ghost use Rattle.std.specs.List.{list_all};
ghost use Rattle.std.specs.Prelude.{◌≡◌, ◌++◌, OnOk, map};

use gui_base::NoMemory;

/// Whether a line is a row for a box of this width.
pub(crate) fn is_row(line: &[u8], width: u32) -> bool
    ensures { result ≡ is_row width line.now }
{
    line.len() % 2 == 0 && are_digits(line) && row_digits(width) <= line.len()
}

/// How many digits of a row count for a box of this width.
pub(crate) fn row_digits(width: u32) -> usize
    ensures { result ≡ row_digits width }
{
    2 * ((width as usize + 7) / 8)
}

/// Whether all bytes are hexadecimal digits.
fn are_digits(line: &[u8]) -> bool
    ensures { result ≡ list_all is_hex_digit line.now }
{
    line.iter().all(|c| is_digit(*c))
}

/// Whether a byte is a hexadecimal digit, in upper or lower case.
fn is_digit(c: u8) -> bool
    ensures { result ≡ is_hex_digit c }
{
    matches!(c, b'0'..=b'9' | b'A'..=b'F' | b'a'..=b'f')
}

/// The upper case of a hexadecimal digit.
fn upper(c: u8) -> u8
    ensures { result ≡ upper c }
{
    match c {
        b'a'..=b'f' => c - 32,
        _ => c,
    }
}

/// Adds hexadecimal digits, in upper case.
pub(crate) fn push_upper(digits: &mut Vec<u8>, row: &[u8]) -> Result<(), NoMemory>
    ensures { OnOk result (digits.new.items ≡ digits.old.items ++ map upper row.now) }
{
    for digit in row {
        if digits.push(upper(*digit)).is_err() {
            return Err(NoMemory);
        }
    }
    Ok(())
}
