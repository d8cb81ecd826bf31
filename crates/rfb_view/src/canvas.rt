//! The colours of the pixels of a panel in memory.
ghost use Rattle.std.specs.Prelude.{◌≡◌, length, IfOk, replicate, true, []};
ghost use Rattle.gui_base.specs.Area.{is_within, size_of};
ghost use Rattle.gui_base.specs.Corners.{rect_of};
ghost use Rattle.gui_color.specs.Buffer.{color_at};
ghost use Rattle.gui_edge.specs.Panel.{Shows};

use gui_base::{Area, NoMemory, Rgb565};
use gui_edge::screen::write_area;
use std::alloc::Global;
use std::marker::Model;

/// The colours of the pixels of a panel, row by row. It takes no memory before it has some.
#[derive(Drop)]
pub struct Canvas {
    colors: Option<Vec<Rgb565>>,
}

impl Model for Canvas {
    ghost use Rattle.std.specs.Prelude.{List, [], option_map, unwrap_or};
    ghost use Rattle.gui_base.specs.declared.color.Rgb565.{Rgb565};

    ghost Value = { List Rgb565 };

    ghost view = { λ c. unwrap_or (option_map (λ colors. colors.items) c.colors) [] };
}

impl Canvas {
    /// No pixel.
    pub(crate) fn none() -> Canvas
        ensures { result ≡ [] }
    {
        Canvas { colors: None }
    }

    /// So many pixels of one colour.
    pub(crate) fn filled(alloc: Global, color: Rgb565, count: usize) -> Result<Canvas, NoMemory>
        ensures { IfOk result (λ canvas. canvas ≡ replicate count color) }
    {
        match vec![in alloc; color; count] {
            Ok(colors) => Ok(Canvas {
                colors: Some(colors),
            }),
            Err(_) => Err(NoMemory),
        }
    }

    /// The colours.
    pub(crate) fn as_slice(&self) -> &[Rgb565]
        ensures { result.now ≡ self.now }
    {
        match &self.colors {
            Some(colors) => colors,
            None => &[],
        }
    }

    /// Makes the pixels of an area of the panel show these colours, one for each, row by row.
    pub(crate) fn write(&mut self, panel: Area, area: Area, colors: &[Rgb565])
        requires all { length self.old ≡ size_of (rect_of panel) }
        requires inside { is_within (rect_of panel) (rect_of area) ≡ true }
        requires each { length colors.now ≡ size_of (rect_of area) }
        ensures { Shows (rect_of panel) (rect_of area) (color_at (rect_of area) colors.now) self.old self.new }
    {
        let Some(shown) = &mut self.colors else {
            return;
        };
        write_area(shown, panel, area, colors);
    }
}
