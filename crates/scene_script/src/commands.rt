//! The commands, each by its fields in their order.
ghost use Rattle.std.specs.Prelude.{◌≡◌};
ghost use Rattle.gui_base.specs.Names.{named, table};
ghost use Rattle.run_defs.specs.declared.names.TheConstants.{COMMANDS};
ghost use Rattle.run_defs.specs.Commands.{tree_fields, row_fields, style_fields, asset_fields};
ghost use Rattle.run_defs.specs.Commands.{line_fields, command_says, box_of, glyph_offset};
ghost use Rattle.run_defs.specs.Fields.{fields, ◌▹◌, count_in};
ghost use Rattle.run_defs.specs.Language.{words_of};

use crate::actions::play_command;
use crate::anims::anim_command;
use crate::devices::device_command;
use crate::fields::Fields;
use gui_base::intervals::{
    ADVANCE, COORDINATE, FONT, FONT_HEIGHT, GLYPH_HEIGHT, GLYPH_WIDTH, GROW, IMAGE, IMAGE_ROW,
    IMAGE_SIDE, INDEX, SCROLL, STYLE, VALUE,
};
use gui_base::named;
use gui_base::words::{
    CROSS_PLACINGS, FLAGS, FORMATS, Flag, Format, KINDS, Kind, ON_OFF, PLACINGS, Placing,
};
use run_defs::{
    AssetName, COMMANDS, Command, DeviceName, Line, LineFault, Name, RowName, StyleName, TreeName,
};
use scene_defs::Change;
use text_defs::GlyphBox;

/// What a name and the words after it say.
#[tactic(auto, unfolding(run_defs::specs::Commands::command_says))]
#[inline(always)]
pub(crate) fn say_command<'a>(name: &[u8], words: &'a [u8]) -> Result<Line<'a>, LineFault>
    ensures { result ≡ command_says name.now (words_of words.now) }
{
    let Some(name) = command_named(name) else {
        return Err(LineFault::Syntax);
    };
    let mut fields = Fields::new(words);
    let line = line(name, &mut fields);
    fields.end(line)
}

/// The command of a name. The names that most lines begin with are found without a search.
fn command_named(word: &[u8]) -> Option<Name>
    ensures { result ≡ named (table {A = Name} COMMANDS) word.now }
{
    match word {
        b"pos" => Some(Name::Row(RowName::Pos)),
        b"size" => Some(Name::Row(RowName::Size)),
        b"local" => Some(Name::Style(StyleName::Local)),
        b"front" => Some(Name::Tree(TreeName::Front)),
        b"set" => Some(Name::Style(StyleName::Set)),
        b"text" => Some(Name::Row(RowName::Text)),
        b"value" => Some(Name::Row(RowName::Value)),
        b"tick" => Some(Name::Device(DeviceName::Tick)),
        _ => named(&COMMANDS, word),
    }
}

fn line<'a>(name: Name, fields: &mut Fields<'a>) -> Line<'a>
    ensures made { result ≡ (line_fields name fields.old).made }
    ensures state { fields.new ≡ (line_fields name fields.old).at }
{
    match name {
        Name::Frame => Line::Frame,
        Name::Pump => Line::Pump,
        Name::Tree(name) => Line::Make(Command::Change(tree_change(name, fields))),
        Name::Row(name) => Line::Make(Command::Change(row_change(name, fields))),
        Name::Style(name) => Line::Make(Command::Change(style_change(name, fields))),
        Name::Asset(name) => Line::Make(Command::Change(asset_change(name, fields))),
        Name::Play(name) => Line::Make(play_command(name, fields)),
        Name::Device(name) => Line::Make(device_command(name, fields)),
        Name::Anim(name) => Line::Make(anim_command(name, fields)),
    }
}

fn tree_change<'a>(name: TreeName, line: &mut Fields<'a>) -> Change<'a>
    ensures made { result ≡ (tree_fields name line.old).made }
    ensures state { line.new ≡ (tree_fields name line.old).at }
{
    match name {
        TreeName::Screen => Change::Screen(line.new_handle()),
        TreeName::New => Change::New(
            line.new_handle(),
            line.handle(),
            line.name(&KINDS, Kind::Obj),
        ),
        TreeName::Delete => Change::Delete(line.handle()),
        TreeName::Parent => Change::Parent(line.handle(), line.handle()),
        TreeName::Index => Change::Index(line.handle(), line.count(INDEX)),
        TreeName::Front => Change::Front(line.handle()),
        TreeName::Back => Change::Back(line.handle()),
        TreeName::Load => Change::Load(line.handle()),
    }
}

fn row_change<'a>(name: RowName, line: &mut Fields<'a>) -> Change<'a>
    ensures made { result ≡ (row_fields name line.old).made }
    ensures state { line.new ≡ (row_fields name line.old).at }
{
    let h = line.handle();
    match name {
        RowName::Flag => Change::Flag(
            h,
            line.name(&FLAGS, Flag::Hidden),
            line.name(&ON_OFF, false),
        ),
        RowName::State => Change::State(h, line.state(), line.name(&ON_OFF, false)),
        RowName::Pos => Change::Pos(h, line.number(COORDINATE), line.number(COORDINATE)),
        RowName::Align => Change::Align(
            h,
            line.align(),
            line.number(COORDINATE),
            line.number(COORDINATE),
        ),
        RowName::Size => Change::Size(h, line.extent(), line.extent()),
        RowName::Scroll => Change::Scroll(h, line.number(SCROLL), line.number(SCROLL)),
        RowName::Flex => Change::Flex(h, line.flow()),
        RowName::Places => Change::Places(
            h,
            line.name(&PLACINGS, Placing::Start),
            line.name(&CROSS_PLACINGS, Placing::Start),
            line.name(&PLACINGS, Placing::Start),
        ),
        RowName::Grow => Change::Grow(h, line.small(GROW)),
        RowName::Text => Change::Text(h, line.text()),
        RowName::Value => Change::Value(h, line.number(VALUE)),
        RowName::Range => {
            let low = line.range_low();
            Change::Range(h, low, line.range_high(low))
        }
        RowName::Source => Change::Source(h, line.count(IMAGE)),
    }
}

fn style_change<'a>(name: StyleName, line: &mut Fields<'a>) -> Change<'a>
    ensures made { result ≡ (style_fields name line.old).made }
    ensures state { line.new ≡ (style_fields name line.old).at }
{
    match name {
        StyleName::Style => Change::Style(line.count(STYLE)),
        StyleName::Set => {
            let style = line.count(STYLE);
            let prop = line.property();
            Change::Set(style, prop, line.value(prop))
        }
        StyleName::Unset => Change::Unset(line.count(STYLE), line.property()),
        StyleName::Use => Change::Use(line.handle(), line.count(STYLE), line.selector()),
        StyleName::Unuse => Change::Unuse(line.handle(), line.count(STYLE), line.selector()),
        StyleName::Local => {
            let h = line.handle();
            let selector = line.selector();
            let prop = line.property();
            Change::Local(h, selector, prop, line.value(prop))
        }
        StyleName::Unlocal => Change::Unlocal(line.handle(), line.selector(), line.property()),
    }
}

#[inline(never)]
fn asset_change<'a>(name: AssetName, line: &mut Fields<'a>) -> Change<'a>
    ensures made { result ≡ (asset_fields name line.old).made }
    ensures state { line.new ≡ (asset_fields name line.old).at }
{
    match name {
        AssetName::Font => Change::Font(
            line.small(FONT),
            line.small(FONT_HEIGHT),
            line.small(ADVANCE),
        ),
        AssetName::Glyph => Change::Glyph(
            line.small(FONT),
            line.code(),
            glyph_box(line),
            line.bytes(),
        ),
        AssetName::EndFont => Change::EndFont(line.small(FONT)),
        AssetName::Image => Change::Image(
            line.count(IMAGE),
            line.name(&FORMATS, Format::Rgb565),
            line.count(IMAGE_SIDE),
            line.count(IMAGE_SIDE),
        ),
        AssetName::ImageRow => Change::ImageRow(
            line.count(IMAGE),
            line.count(IMAGE_ROW),
            line.bytes(),
        ),
    }
}

/// How wide a glyph is set, and its box.
fn glyph_box<'a>(line: &mut Fields<'a>) -> GlyphBox
    ensures made { result ≡ (fields box_of line.old ▹ count_in ADVANCE ▹ count_in GLYPH_WIDTH
        ▹ count_in GLYPH_HEIGHT ▹ glyph_offset ▹ glyph_offset).made }
    ensures state { line.new ≡ (fields box_of line.old ▹ count_in ADVANCE ▹ count_in GLYPH_WIDTH
        ▹ count_in GLYPH_HEIGHT ▹ glyph_offset ▹ glyph_offset).at }
{
    GlyphBox {
        advance: line.small(ADVANCE),
        w: line.small(GLYPH_WIDTH),
        h: line.small(GLYPH_HEIGHT),
        ox: line.glyph_offset(),
        oy: line.glyph_offset(),
    }
}
