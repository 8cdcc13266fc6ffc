#![tactic(auto)]

// Units of 1/240 inch, the scales of literals, and counts of cells and of rows.
ghost use Rattle.std.specs.Prelude.{◌≡◌, pos, ◌*ℤ◌};
ghost use Rattle.measure.specs.Pitches.{ten_pitch};
ghost use Rattle.measure.specs.Scales.{scale_of, ratio_of, literal_of};
ghost use Rattle.measure.specs.Counts.{across_of, down_of, cells_across, rows_down};
ghost use Rattle.measure.specs.Rounding.{half_up, nearest_of, cells_of, rows_of, units_of_cells, units_of_rows};

// A count of cells across: a width, an indent, or a change of one.
#[derive(Clone, Copy, Debug, PartialEq, Eq, PartialOrd, Ord)]
pub struct Cells(pub i32);

// A count of rows down: a place on the page, a spacing, or a change of one.
#[derive(Clone, Copy, Debug, PartialEq, Eq, PartialOrd, Ord)]
pub struct Rows(pub i32);

// The units of a printer's cell and of its row.
#[derive(Clone, Copy, Debug, PartialEq, Eq)]
pub struct Pitch {
    pub cell: u8,
    pub row: u8,
}

// Ten cells and six rows to the inch.
pub fn ten_pitch() -> Pitch
    ensures { result ≡ ten_pitch }
{
    Pitch { cell: 24, row: 40 }
}

#[derive(Clone, Copy, Debug, PartialEq, Eq)]
pub enum Scale {
    Inch,
    Centimetre,
    Pica,
    Em,
    En,
    Point,
    Unit,
    LineSpace,
}

// The scale that a byte names. Each letter has its own arm: the check reads neighbours in one arm as a range.
pub fn scale_of(byte: u8) -> Option<Scale>
    ensures { result ≡ scale_of byte }
{
    match byte {
        b'i' => Some(Scale::Inch),
        b'c' => Some(Scale::Centimetre),
        b'P' => Some(Scale::Pica),
        b'm' => Some(Scale::Em),
        b'n' => Some(Scale::En),
        b'p' => Some(Scale::Point),
        b'u' => Some(Scale::Unit),
        b'v' => Some(Scale::LineSpace),
        _ => None,
    }
}

// What one of a scale is in units: the fraction units / per.
#[derive(Clone, Copy, Debug, PartialEq, Eq)]
pub struct Ratio {
    pub units: u16,
    pub per: u8,
}

pub fn ratio_of(scale: Scale, pitch: Pitch) -> Ratio
    ensures { result ≡ ratio_of pitch scale }
{
    match scale {
        Scale::Inch => Ratio { units: 240, per: 1 },
        Scale::Centimetre => Ratio {
            units: 240 * 50,
            per: 127,
        },
        Scale::Pica => Ratio { units: 240, per: 6 },
        Scale::Em => Ratio {
            units: u16::from(pitch.cell),
            per: 1,
        },
        Scale::En => Ratio {
            units: u16::from(pitch.cell),
            per: 1,
        },
        Scale::Point => Ratio {
            units: 240,
            per: 72,
        },
        Scale::Unit => Ratio { units: 1, per: 1 },
        Scale::LineSpace => Ratio {
            units: u16::from(pitch.row),
            per: 1,
        },
    }
}

// A literal of whole digits and a scale, cut down to whole units.
pub fn units_of_literal(count: u32, scale: Scale, pitch: Pitch) -> u64
    ensures { result ≡ literal_of pitch scale count }
{
    let ratio = ratio_of(scale, pitch);
    u64::from(count) * u64::from(ratio.units) / u64::from(ratio.per)
}

// The nearest count of a size in units without a sign: half a size or more left over counts as one.
#[tactic(auto, unfolding(crate::specs::Rounding::half_up))]
fn half_up(units: u32, size: u8) -> u32
    ensures { result ≡ half_up size units }
{
    if size == 0 {
        return 0;
    }
    let whole = u32::from(size);
    let count = units / whole;
    if 2 * (units % whole) < whole {
        return count;
    }
    count + 1
}

// The nearest count of a size in units, halves away from zero.
pub fn nearest(units: i32, size: u8) -> i32
    ensures { result ≡ nearest_of size units }
{
    let count = i64::from(half_up(units.unsigned_abs(), size));
    if units < 0 {
        return -count as i32;
    }
    count as i32
}

pub fn cells_of(units: i32, pitch: Pitch) -> Cells
    ensures { result ≡ cells_of pitch units }
{
    Cells(nearest(units, pitch.cell))
}

pub fn rows_of(units: i32, pitch: Pitch) -> Rows
    ensures { result ≡ rows_of pitch units }
{
    Rows(nearest(units, pitch.row))
}

// The way back: so many of a size, in units.
fn times(count: i32, size: u8) -> i64
    ensures { result ≡ count *ℤ pos size }
{
    i64::from(count) * i64::from(size)
}

pub fn units_of_cells(cells: Cells, pitch: Pitch) -> i64
    ensures { result ≡ units_of_cells pitch cells }
{
    times(cells.0, pitch.cell)
}

pub fn units_of_rows(rows: Rows, pitch: Pitch) -> i64
    ensures { result ≡ units_of_rows pitch rows }
{
    times(rows.0, pitch.row)
}

// A count of cells as a plain number; a negative one is none.
pub fn across(cells: Cells) -> u32
    ensures { result ≡ across_of cells }
{
    cells.0.max(0) as u32
}

// A count of rows as a plain number; a negative one is none.
pub fn down(rows: Rows) -> u32
    ensures { result ≡ down_of rows }
{
    rows.0.max(0) as u32
}

// So many cells.
pub fn cells_across(count: u16) -> Cells
    ensures { result ≡ cells_across count }
{
    Cells(i32::from(count))
}

// So many rows.
pub fn rows_down(count: u16) -> Rows
    ensures { result ≡ rows_down count }
{
    Rows(i32::from(count))
}
