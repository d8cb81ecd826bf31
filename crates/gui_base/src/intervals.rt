//! The intervals of the numbers that scripts, changes and rows have. Each stands here alone: code,
//! definitions and proofs cite it.
ghost use Rattle.std.specs.Prelude.{◌≡◌};

/// Whole numbers from `low` to `high`, both included, none below 0.
#[derive(Clone, Copy, Debug, PartialEq, Eq)]
pub struct Count {
    pub low: u16,
    pub high: u16,
}

/// Whole numbers from `low` to `high`, both included.
#[derive(Clone, Copy, Debug, PartialEq, Eq)]
pub struct Interval {
    pub low: i32,
    pub high: i32,
}

/// The name of an object.
pub const HANDLE: Count = Count { low: 1, high: 9999 };

/// A name that a caller may choose for a new object.
pub const NEW_HANDLE: Count = Count {
    low: 10,
    high: 9999,
};

/// Where an object stands among its siblings, from 0.
pub const INDEX: Count = Count { low: 0, high: 3999 };

/// A wanted width or height in pixels.
pub const EXTENT: Count = Count { low: 0, high: 4000 };

/// A wanted width or height in hundredths of the parent's content area.
pub const PERCENT: Count = Count { low: 0, high: 100 };

/// The weight of an item in sharing the free space of its track.
pub const GROW: Count = Count { low: 0, high: 255 };

/// A solved width or height in pixels.
pub const SOLVED: Count = Count { low: 0, high: 8191 };

/// A wanted coordinate in pixels.
pub const COORDINATE: Interval = Interval {
    low: -4000,
    high: 4000,
};

/// How far the children of an object are to be scrolled, in pixels.
pub const SCROLL: Interval = Interval { low: 0, high: 8191 };

/// An opacity: 0 covers nothing, 255 all.
pub const OPACITY: Interval = Interval { low: 0, high: 255 };

/// A colour: 65536 * red + 256 * green + blue, each from 0 to 255.
pub const COLOR: Interval = Interval {
    low: 0,
    high: 16_777_215,
};

/// The width of a border in pixels.
pub const BORDER: Interval = Interval { low: 0, high: 100 };

/// A space between a border and what is inside, or between children, in pixels.
pub const PAD: Interval = Interval { low: 0, high: 1000 };

/// A space between two characters or two lines of a text, in pixels.
pub const TEXT_SPACE: Interval = Interval { low: 0, high: 100 };

/// The number of a text's font: 0 is the built-in font.
pub const TEXT_FONT: Interval = Interval { low: 0, high: 99 };

/// An alignment of a text as a number: 0 is left, 1 center and 2 right.
pub const TEXT_ALIGN: Interval = Interval { low: 0, high: 2 };

/// The number of a shared style.
pub const STYLE: Count = Count { low: 1, high: 999 };

/// The number of a font beside the built-in one.
pub const FONT: Count = Count { low: 1, high: 99 };

/// The height of a font in pixels.
pub const FONT_HEIGHT: Count = Count { low: 1, high: 64 };

/// How far the next character of a text stands from this one, in pixels.
pub const ADVANCE: Count = Count { low: 0, high: 64 };

/// The sizes of the box of a glyph in pixels.
pub const GLYPH_WIDTH: Count = Count { low: 0, high: 32 };

pub const GLYPH_HEIGHT: Count = Count { low: 0, high: 64 };

/// Where the box of a glyph stands in its cell, in pixels.
pub const GLYPH_OFFSET: Interval = Interval { low: -64, high: 64 };

/// The code of a character that has a glyph.
pub const CODE: Interval = Interval {
    low: 32,
    high: 1_114_111,
};

/// The number of an image.
pub const IMAGE: Count = Count { low: 1, high: 999 };

/// A width or height of an image in pixels.
pub const IMAGE_SIDE: Count = Count { low: 1, high: 256 };

/// A row of an image, from 0.
pub const IMAGE_ROW: Count = Count { low: 0, high: 255 };

/// A value of a bar or a slider, and an end of its range.
pub const VALUE: Interval = Interval {
    low: -10_000,
    high: 10_000,
};

/// The number of a focus group.
pub const GROUP: Count = Count { low: 1, high: 99 };

/// The number of the focus group of a device, 0 for none.
pub const DEVICE_GROUP: Count = Count { low: 0, high: 99 };

/// How many steps the encoder turns, backwards below 0.
pub const TURN: Interval = Interval {
    low: -100,
    high: 100,
};

/// A time that passes, in milliseconds.
pub const TICK: Count = Count {
    low: 0,
    high: 60_000,
};

/// How long an animation takes from its start to its end, in milliseconds.
pub const ANIM_TIME: Count = Count {
    low: 1,
    high: 60_000,
};

/// How often an animation is played.
pub const REPEAT: Count = Count { low: 1, high: 1000 };

/// How deep an object may lie. A root has depth 1.
pub const MAX_DEPTH: u8 = 16;

impl Count {
    ghost use Rattle.gui_base.specs.Intervals.{is_counted};

    /// Whether a number lies in it.
    pub fn holds(self, n: u16) -> bool
        ensures { result ≡ is_counted self n }
    {
        self.low <= n && n <= self.high
    }
}

impl Interval {
    ghost use Rattle.gui_base.specs.Intervals.{is_within};

    /// Whether a number lies in it.
    pub fn holds(self, n: i32) -> bool
        ensures { result ≡ is_within self n }
    {
        self.low <= n && n <= self.high
    }
}
