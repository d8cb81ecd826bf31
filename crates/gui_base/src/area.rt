//! Areas of pixels.
ghost use Rattle.std.specs.Prelude.{◌≡◌, ◌↔◌, ◌≤◌, ◌^◌, ◌&&◌, ◌||◌, IsTrue, true, ℕ, ℤ, pos, ◌≤ℤ◌};
ghost use Rattle.std.specs.Int.{int_max, int_min};
ghost use Rattle.std.specs.Int.Signed.{le_z, lt_z};
ghost use Rattle.gui_base.specs.Area.{IsCoordinate, IsInner, Rect, area_at, has, is_empty, count_between};
ghost use Rattle.gui_base.specs.Area.{size_of, width_of, height_of, common, joined, Covers, has_corners};

/// The pixels between two corners, both included, counted from the top left. It is empty if the second corner
/// lies left of the first or above it. Its numbers lie from -2^30 to 2^30 - 1.
#[derive(Clone, Copy, Debug)]
pub struct Area {
    pub x1: i32,
    pub y1: i32,
    pub x2: i32,
    pub y2: i32,
    ghost x1_fits: { IsCoordinate x1 },
    ghost y1_fits: { IsCoordinate y1 },
    ghost x2_fits: { IsCoordinate x2 },
    ghost y2_fits: { IsCoordinate y2 },
}

impl Default for Area {
    ghost use Rattle.gui_base.specs.Corners.{rect_of};

    ghost is_default = { λ area. is_empty (rect_of area) ≡ true };

    /// The area with no pixel.
    fn default() -> Area {
        Area {
            x1: 0,
            y1: 0,
            x2: -1,
            y2: -1,
        }
    }
}

impl Area {
    ghost use Rattle.gui_base.specs.Corners.{rect_of};

    /// The area with this first corner and with these sizes.
    pub fn at(x: i32, y: i32, width: u32, height: u32) -> Area
        requires corner { IsInner x × IsInner y }
        requires sizes { (width ≤ 2 ^ 29) × (height ≤ 2 ^ 29) }
        ensures { rect_of result ≡ area_at x y width height }
    {
        Area {
            x1: x,
            y1: y,
            x2: x + width as i32 - 1,
            y2: y + height as i32 - 1,
        }
    }

    /// Whether it has no pixel.
    pub fn is_empty(self) -> bool
        ensures { result ≡ is_empty (rect_of self) }
    {
        self.x2 < self.x1 || self.y2 < self.y1
    }

    /// How many columns of pixels it has.
    pub fn width(self) -> u32
        ensures { result ≡ width_of (rect_of self) }
    {
        count(self.x1, self.x2)
    }

    /// How many lines of pixels it has.
    pub fn height(self) -> u32
        ensures { result ≡ height_of (rect_of self) }
    {
        count(self.y1, self.y2)
    }

    /// How many pixels it has.
    pub fn size(self) -> u64
        ensures { result ≡ size_of (rect_of self) }
    {
        u64::from(self.width()) * u64::from(self.height())
    }

    /// Whether a pixel is in it.
    pub fn holds(self, x: i32, y: i32) -> bool
        ensures { result ≡ has (rect_of self) x y }
    {
        is_between(self.x1, x, self.x2) && is_between(self.y1, y, self.y2)
    }

    /// Whether all pixels of another are in it. Those of an empty area are.
    pub fn holds_area(self, other: Area) -> bool
        ensures { IsTrue result ↔ Covers (rect_of self) (rect_of other) }
    {
        other.is_empty() || self.holds_corners(other)
    }

    /// Whether both corners of another lie between its own.
    pub fn holds_corners(self, other: Area) -> bool
        ensures { result ≡ has_corners (rect_of self) (rect_of other) }
    {
        is_within(self.x1, other.x1, other.x2, self.x2)
            && is_within(self.y1, other.y1, other.y2, self.y2)
    }

    /// The pixels that both have.
    pub fn meet(self, other: Area) -> Area
        ensures corners { rect_of result ≡ common (rect_of self) (rect_of other) }
        ensures pixels { (x y : ℤ) →
            has (rect_of result) x y ≡ (has (rect_of self) x y && has (rect_of other) x y) }
    {
        Area {
            x1: greater(self.x1, other.x1),
            y1: greater(self.y1, other.y1),
            x2: smaller(self.x2, other.x2),
            y2: smaller(self.y2, other.y2),
        }
    }

    /// The least area that holds both. If one of them is empty, it is the other.
    pub fn join(self, other: Area) -> Area
        ensures corners { rect_of result ≡ joined (rect_of self) (rect_of other) }
        ensures first { Covers (rect_of result) (rect_of self) }
        ensures second { Covers (rect_of result) (rect_of other) }
        ensures least { (area : Rect) →
            Covers area (rect_of self) → Covers area (rect_of other) → Covers area (rect_of result) }
    {
        if self.is_empty() {
            return other;
        }
        if other.is_empty() {
            return self;
        }
        Area {
            x1: smaller(self.x1, other.x1),
            y1: smaller(self.y1, other.y1),
            x2: greater(self.x2, other.x2),
            y2: greater(self.y2, other.y2),
        }
    }
}

/// Whether a number lies between two others, or is one of them.
fn is_between(low: i32, x: i32, high: i32) -> bool
    ensures { result ≡ (le_z low x && le_z x high) }
{
    low <= x && x <= high
}

/// Whether two numbers lie between two others.
fn is_within(low: i32, first: i32, last: i32, high: i32) -> bool
    ensures { result ≡ (le_z low first && le_z last high) }
{
    low <= first && last <= high
}

/// How many numbers there are from one to another.
fn count(low: i32, high: i32) -> u32
    requires low { IsCoordinate low }
    requires high { IsCoordinate high }
    ensures value { result ≡ count_between low high }
    ensures most { result ≤ 2147483648 }
{
    if high < low {
        return 0;
    }
    (i64::from(high) - i64::from(low) + 1) as u32
}

/// The greater of two.
fn greater(a: i32, b: i32) -> i32
    requires a { IsCoordinate a }
    requires b { IsCoordinate b }
    ensures value { result ≡ int_max a b }
    ensures fits { IsCoordinate result }
{
    if a < b { b } else { a }
}

/// The smaller of two.
fn smaller(a: i32, b: i32) -> i32
    requires a { IsCoordinate a }
    requires b { IsCoordinate b }
    ensures value { result ≡ int_min a b }
    ensures fits { IsCoordinate result }
{
    if a < b { a } else { b }
}
