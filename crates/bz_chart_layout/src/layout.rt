//! Where everything stands on a chart: whole numbers, in pixels.

ghost use Rattle.std.specs.Prelude.{◌≡◌, ◌<◌, ◌^◌};
ghost use Rattle.bz_chart_layout.specs.Layout.{HasRoom, bands, bottom, column, gutter, height, legend_columns, numbers, right, row, sign_column, sign_row, width};

/// What the places of a chart go by.
#[derive(Clone, Copy, PartialEq, Eq)]
pub struct Layout {
    /// How many lines of the trace are shown.
    pub rows: u32,
    /// How many lifelines.
    pub columns: u32,
    /// How many digits the greatest number of a line has.
    pub digits: u32,
    /// How many letters the longest line has.
    pub letters: u32,
    /// How many letters the title has.
    pub title: u32,
    /// How many signs the legend explains.
    pub signs: u32,
}

impl Layout {
    /// Where the numbers of the lines end.
    pub fn numbers(self) -> u64
        ensures { result ≡ numbers self }
    {
        8 + 7 * u64::from(self.digits)
    }

    // How wide the lines of the trace are, with their numbers.
    fn gutter(self) -> u64
        ensures { result ≡ gutter self }
    {
        self.numbers() + 8 + 7 * u64::from(self.letters) + 12
    }

    /// Where the lifeline of a column stands, from 0.
    pub fn column(self, place: u32) -> u64
        ensures is { result ≡ column self place }
        ensures room { HasRoom 60 result }
    {
        self.gutter() + 32 + 64 * u64::from(place)
    }

    /// Where the last column ends.
    pub fn right(self) -> u64
        ensures is { result ≡ right self }
        ensures room { HasRoom 28 result }
    {
        self.gutter() + 64 * u64::from(self.columns)
    }

    /// How many bands of names stand above a row.
    pub fn bands(self, place: u32) -> u32
        ensures { result ≡ bands self place }
    {
        (place / 40).min(self.rows.saturating_sub(9) / 40)
    }

    /// The middle of a row, from 0.
    pub fn row(self, place: u32) -> u64
        ensures is { result ≡ row self place }
        ensures room { HasRoom 124 result }
    {
        124 + 16 * u64::from(place) + 60 * u64::from(self.bands(place))
    }

    /// Where the lifelines end.
    pub fn bottom(self) -> u64
        ensures is { result ≡ bottom self }
        ensures room { HasRoom 116 result }
    {
        match self.rows.checked_sub(1) {
            Some(last) => self.row(last) + 8,
            None => 116,
        }
    }

    /// The width of the whole chart.
    pub fn width(self) -> u64
        ensures { result ≡ width self }
    {
        (self.right() + 44)
            .max(20 + 8 * u64::from(self.title))
            .max(456)
    }

    // How many signs stand in a row of the legend.
    fn legend_columns(self) -> u64
        ensures { result ≡ legend_columns self }
    {
        ((self.width() - 16) / 220).max(1)
    }

    /// The left end of a sign of the legend, from 0.
    pub fn sign_column(self, place: u32) -> u64
        ensures is { result ≡ sign_column self place }
        ensures room { HasRoom 12 result }
    {
        12 + 220 * (u64::from(place) % self.legend_columns())
    }

    /// The middle of the row of a sign.
    pub fn sign_row(self, place: u32) -> u64
        ensures is { result ≡ sign_row self place }
        ensures room { HasRoom 196 result }
    {
        self.bottom() + 80 + 18 * (u64::from(place) / self.legend_columns())
    }

    /// The height of the whole chart.
    pub fn height(self) -> u64
        ensures { result ≡ height self }
    {
        let rows = u64::from(self.signs).div_ceil(self.legend_columns());
        self.bottom() + 80 + 18 * rows
    }
}
