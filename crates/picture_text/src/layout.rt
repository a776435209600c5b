//! Where things lie in a picture, in units from its left and top edges.

ghost use Rattle.std.specs.Prelude.{◌≡◌, ◌≤◌, ◌<◌, ◌+◌, ◌*◌, ◌^◌, min};
ghost use Rattle.picture_text.specs.Layout.{Fits, bottom_of, lane_height, lane_top, middle_at};
ghost use Rattle.picture_text.specs.Layout.{right_of, strip_top, unit_of, width_of, x_at};

/// How many columns, lanes and strips a picture has, and how wide and high they are, in units.
#[derive(Clone, Copy)]
pub(crate) struct Layout {
    /// The number of the first column in the whole history.
    pub(crate) first: u64,
    pub(crate) columns: u64,
    pub(crate) unit: u64,
    pub(crate) lanes: u64,
    pub(crate) strips: u64,
    pub(crate) strip_height: u64,
}

/// Some columns: the first of them, and the first that is behind them.
#[derive(Clone, Copy)]
pub(crate) struct Stretch {
    pub(crate) from: u64,
    pub(crate) to: u64,
}

/// The width of a column, where there are so many.
pub(crate) fn unit_of(columns: u64) -> u64
    ensures unit { result ≡ unit_of columns }
    ensures most { result ≤ 52 }
{
    if columns <= 20 {
        return 52;
    }
    if columns <= 400 {
        return u64::max(26, 1080 / columns);
    }
    u64::max(2, 10_400 / columns)
}

impl Layout {
    /// The left edge of a column.
    pub(crate) fn x_at(self, column: u64) -> u64
        requires { Fits self }
        ensures x { result ≡ x_at self column }
        ensures most { result ≤ 1_040_110 }
    {
        110 + product(u64::min(column, self.columns), self.unit, 20_000, 52)
    }

    /// The middle of a column.
    pub(crate) fn middle_at(self, column: u64) -> u64
        requires { Fits self }
        ensures x { result ≡ middle_at self column }
        ensures most { result ≤ 1_040_136 }
    {
        self.x_at(column) + self.unit / 2
    }

    /// How wide some columns are.
    pub(crate) fn width_of(self, stretch: Stretch) -> u64
        requires fits { Fits self }
        requires to { stretch.to ≤ 20_000 }
        ensures width { result ≡ width_of self stretch }
        ensures most { result ≤ 1_040_000 }
    {
        product(
            stretch.to.saturating_sub(stretch.from),
            self.unit,
            20_000,
            52,
        )
    }

    /// Where so many columns end that begin there.
    pub(crate) fn end_of(self, from: u64, columns: u32) -> u64
        requires fits { Fits self }
        requires from { from ≤ 20_000 }
        ensures end { result ≡ min (from + columns) self.columns }
        ensures most { result ≤ 20_000 }
    {
        u64::min(from + u64::from(columns), self.columns)
    }

    /// The right edge of the picture.
    pub(crate) fn right(self) -> u64
        requires { Fits self }
        ensures x { result ≡ right_of self }
        ensures most { result ≤ 1_040_200 }
    {
        self.x_at(self.columns) + 90
    }

    /// The height of a lane.
    pub(crate) fn lane_height(self) -> u64
        requires { Fits self }
        ensures y { result ≡ lane_height self }
        ensures most { result ≤ 1664 }
    {
        64 + 8 * self.strips
    }

    /// The top edge of a lane, and of what is below the last one.
    pub(crate) fn lane_top(self, lane: u64) -> u64
        requires fits { Fits self }
        requires lane { lane ≤ 200 }
        ensures y { result ≡ lane_top self lane }
        ensures most { result ≤ 332_848 }
    {
        48 + product(lane, self.lane_height(), 200, 1664)
    }

    /// The top edge of a strip, and of what is below the last one.
    pub(crate) fn strip_top(self, strip: u64) -> u64
        requires fits { Fits self }
        requires strip { strip ≤ 200 }
        ensures y { result ≡ strip_top self strip }
        ensures most { result ≤ 340_856 }
    {
        self.lane_top(self.lanes) + 8 + product(strip, self.strip_height, 200, 40)
    }

    /// The bottom edge of the picture, where so many cycles are told.
    pub(crate) fn bottom(self, cycles: u64) -> u64
        requires fits { Fits self }
        requires cycles { cycles < 2 ^ 32 }
        ensures { result ≡ bottom_of self cycles }
    {
        self.strip_top(self.strips) + 8 + 14 * cycles
    }
}

/// The product of two numbers that are at most these.
fn product(a: u64, b: u64, most_a: u64, most_b: u64) -> u64
    requires a { a ≤ most_a }
    requires b { b ≤ most_b }
    requires fits { most_a * most_b < 2 ^ 64 }
    ensures product { result ≡ a * b }
    ensures most { result ≤ most_a * most_b }
{
    a * b
}
