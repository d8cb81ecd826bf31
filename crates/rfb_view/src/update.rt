//! Sends the pixels of a block of the panel to a viewer.
ghost use Rattle.std.specs.Prelude.{◌≡◌, ◌+◌, ◌*◌, ◌≤◌, ◌<◌, length, take, drop, true, OnOk, OnErr};
ghost use Rattle.std.specs.Io.KnownBytes.{Appends};
ghost use Rattle.std.specs.List.{flat_map};
ghost use Rattle.gui_edge.specs.Causes.{HasCause};
ghost use Rattle.gui_edge.specs.Sink.{AppendsPrefix};
ghost use Rattle.session_defs.specs.Formats.{is_format, number, number_bytes};
ghost use Rattle.session_defs.specs.Updates.{update_head, update};
ghost use Rattle.rfb_view.specs.Blocks.{block_area};

use crate::block::Block;
use crate::greeting::push_sixteen;
use crate::pixels::push_pixels;
use arrayvec::ArrayVec;
use gui_base::Rgb565;
use gui_edge::text::push_bytes;
use gui_edge::{Failed, Sink};
use session_defs::Format;

/// What stands before the pixels of a block.
fn update_head(block: Block) -> ArrayVec<u8, 16>
    ensures { result.items ≡ update_head (block_area block) }
{
    let mut head = ArrayVec::new();
    push_bytes(&mut head, &[0, 0, 0, 1]);
    push_sixteen(&mut head, block.left);
    push_sixteen(&mut head, block.top);
    push_sixteen(&mut head, block.columns);
    push_sixteen(&mut head, block.lines);
    push_bytes(&mut head, &[0, 0, 0, 0]);
    head
}

/// Puts the bytes of some pixels of a line, or, if the sink fails, a prefix of them.
fn put_line<O: Sink>(out: &mut O, format: Format, colors: &[Rgb565]) -> Result<(), Failed>
    requires format { is_format format ≡ true }
    requires few { length colors.now ≤ 1024 }
    ensures ok { OnOk result (Appends (O.state out.old).held (O.state out.new).held
        (flat_map (λ c. number_bytes format (number format c)) colors.now)) }
    ensures err { OnErr result (AppendsPrefix (O.state out.old).held (O.state out.new).held
        (flat_map (λ c. number_bytes format (number format c)) colors.now)) }
    ensures cause { HasCause (O.state out.old).faults (O.state out.new).faults result }
{
    let mut bytes: ArrayVec<u8, 4096> = ArrayVec::new();
    push_pixels(&mut bytes, format, colors);
    out.put(bytes.as_slice())
}

/// Puts the update of a block of a panel with so many columns, or, if the sink fails, a prefix of it. `colors`
/// are those of the panel, row by row.
pub(crate) fn put_update<O: Sink>(
    out: &mut O,
    format: Format,
    block: Block,
    width: u16,
    colors: &[Rgb565],
) -> Result<(), Failed>
    requires format { is_format format ≡ true }
    requires few { width ≤ 1024 }
    requires wide { block.left + block.columns ≤ width }
    requires high { (block.top + block.lines) * width ≤ length colors.now }
    ensures ok { OnOk result (Appends (O.state out.old).held (O.state out.new).held
        (update width format colors.now (block_area block))) }
    ensures err { OnErr result (AppendsPrefix (O.state out.old).held (O.state out.new).held
        (update width format colors.now (block_area block))) }
    ensures cause { HasCause (O.state out.old).faults (O.state out.new).faults result }
{
    out.put(update_head(block).as_slice())?;
    for line in 0..block.lines {
        put_line(out, format, line_of(block, width, line, colors))?;
    }
    Ok(())
}

/// The colours of a line of a block.
fn line_of(block: Block, width: u16, line: u16, colors: &[Rgb565]) -> &[Rgb565]
    requires wide { block.left + block.columns ≤ width }
    requires high { (block.top + block.lines) * width ≤ length colors.now }
    requires below { line < block.lines }
    ensures { result.now ≡ take block.columns (drop ((block.top + line) * width + block.left) colors.now) }
{
    let first = block.first(width, line);
    &colors[first..first + usize::from(block.columns)]
}
