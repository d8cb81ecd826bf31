//! A font from its bytes.
ghost use Rattle.std.specs.Prelude.{◌≡◌, ◌≤◌, IfOk, length};
ghost use Rattle.bdf_font.specs.Bdf.{bdf};
ghost use Rattle.bdf_font.specs.Reading.{items_or};
ghost use Rattle.bdf_font.specs.Texts.{font_text};

use crate::keywords::Phase;
use crate::lines::first_line;
use crate::reader::Reader;
use crate::text::text_of;
use gui_base::NoMemory;
use std::alloc::Global;

/// The font of these bytes, or the number of the first line at which it is none.
#[tactic(auto, unfolding(crate::specs::Bdf::bdf))]
fn read_font(alloc: Global, bytes: &[u8]) -> Result<Result<Reader, u32>, NoMemory>
    requires { length bytes.now ≤ 16777216 }
    ensures { IfOk result (λ font. font ≡ bdf bytes.now) }
{
    let mut reader = Reader::new(alloc)?;
    let mut rest = bytes;
    let mut number: u32 = 1;
    while !rest.is_empty() {
        let (line, others) = first_line(rest);
        if !reader.line(line)? {
            return Ok(Err(number));
        }
        rest = others;
        number += 1;
    }
    if reader.phase != Phase::Ended {
        return Ok(Err(number));
    }
    Ok(Ok(reader))
}

/// The text of the font of these bytes, or the number of the first line at which it is none.
pub(crate) fn font_text(
    alloc: Global,
    number: u8,
    bytes: &[u8],
) -> Result<Result<Vec<u8>, u32>, NoMemory>
    requires { length bytes.now ≤ 16777216 }
    ensures { IfOk result (λ text. items_or text ≡ font_text number bytes.now) }
{
    match read_font(alloc, bytes)? {
        Ok(font) => Ok(Ok(text_of(alloc, number, &font)?)),
        Err(line) => Ok(Err(line)),
    }
}
