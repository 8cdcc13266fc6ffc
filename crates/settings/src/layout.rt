// The layout: all settings in force, and the printer.
ghost use Rattle.std.specs.Prelude.{◌≡◌};
ghost use Rattle.measure.specs.Counts.{across_of};
ghost use Rattle.rules.specs.LayoutSetters.{with_total, with_filling, with_adjusting, with_centred};
ghost use Rattle.rules.specs.Acts.{spacing as spacingOf};
ghost use Rattle.rules.specs.Filling.{indent_now, begun as begunOf};
ghost use Rattle.rules.specs.Results.{judged_by};
ghost use Rattle.rules.specs.TextLines.{as_it_stands, counted as countedOf};
ghost use Rattle.settings.specs.Lengths.Views.{setting_of};
ghost use Rattle.settings.specs.Layout.Layouts.{printer_of, TenToTheInch, PrinterInvariant, total_of, layout_of, length_of, with_length, set_length, LayoutInvariant, Laid, RoomIs};

use super::lengths::{Length, Setting};
use measure::{Cells, Pitch, Rows};
use rules::Refusal;

// What a session is told of its printer: the pitch, the cells of the starting line and the rows of the starting page.
#[derive(Clone, Copy, Debug, PartialEq, Eq)]
pub struct Printer {
    pub pitch: Pitch,
    pub line: Cells,
    pub page: Rows,
}

// "A cell is 24 units, a row 40"; "Start: ll 65, .. pl 66"
pub fn ten_to_the_inch() -> Printer
    ensures { TenToTheInch result }
{
    Printer {
        pitch: measure::ten_pitch(),
        line: Cells(65),
        page: Rows(66),
    }
}

// The settings in force. total is the ti total, "kept for the next output line of text"; centred is the number of input lines that ce has still to centre.
#[derive(Clone, Copy, Debug, PartialEq, Eq)]
pub struct Layout {
    pub line: Setting,
    pub indent: Setting,
    pub offset: Setting,
    pub page: Rows,
    pub total: Option<Cells>,
    pub filling: bool,
    pub adjusting: bool,
    pub centred: u32,
}

// The ti total set anew, or used up.
pub fn with_total(layout: Layout, total: Option<Cells>) -> Layout
    ensures { layout_of result ≡ with_total (total_of total) (layout_of layout) }
{
    Layout { total, ..layout }
}

// fi or nf.
pub fn with_filling(layout: Layout, filling: bool) -> Layout
    ensures { layout_of result ≡ with_filling filling (layout_of layout) }
{
    Layout { filling, ..layout }
}

// ad or na.
pub fn with_adjusting(layout: Layout, adjusting: bool) -> Layout
    ensures { layout_of result ≡ with_adjusting adjusting (layout_of layout) }
{
    Layout {
        adjusting,
        ..layout
    }
}

// Another number of lines to centre.
pub fn with_centred(layout: Layout, centred: u32) -> Layout
    ensures { layout_of result ≡ with_centred centred (layout_of layout) }
{
    Layout { centred, ..layout }
}

// One of the three lengths in cells.
fn length_of(layout: Layout, which: Length) -> Setting
    ensures { setting_of result ≡ length_of which (layout_of layout) }
{
    match which {
        Length::Line => layout.line,
        Length::Indent => layout.indent,
        Length::Offset => layout.offset,
    }
}

// One of the three lengths in cells set anew.
fn with_length(layout: Layout, which: Length, setting: Setting) -> Layout
    ensures { layout_of result ≡ with_length which (setting_of setting) (layout_of layout) }
{
    match which {
        Length::Line => Layout {
            line: setting,
            ..layout
        },
        Length::Indent => Layout {
            indent: setting,
            ..layout
        },
        Length::Offset => Layout {
            offset: setting,
            ..layout
        },
    }
}

// ll, in and po.
pub fn set_length(
    which: Length,
    layout: Layout,
    argument: &[u8],
    printer: Printer,
) -> Result<Layout, Refusal>
    requires { PrinterInvariant printer }
    ensures { judged_by layout_of result ≡ set_length (printer_of printer) which argument.now (layout_of layout) }
{
    let old = length_of(layout, which);
    let setting = super::lengths::set_length(which, old, argument, printer.pitch)?;
    Ok(with_length(layout, which, setting))
}

// The rows that an sp asks for, 1 where its argument is missing.
pub fn spacing(argument: &[u8], printer: Printer) -> Result<Rows, Refusal>
    requires { PrinterInvariant printer }
    ensures { judged_by (λ r. r.0) result ≡ spacingOf (printer_of printer) argument.now }
{
    if argument.is_empty() {
        return Ok(Rows(1));
    }
    number::scales::rows(argument, printer.pitch)
}

// The indent printed: the ti total if one is kept.
pub fn indent_now(layout: Layout) -> Cells
    ensures { across_of result ≡ indent_now (layout_of layout) }
{
    layout.total.unwrap_or(layout.indent.now)
}

// "Room is ll minus indent, 0 if that is negative"
pub fn room_now(layout: Layout) -> Cells
    requires { LayoutInvariant (layout_of layout) }
    ensures { RoomIs (layout_of layout) result }
{
    let line = measure::across(layout.line.now);
    let indent = measure::across(indent_now(layout));
    measure::cells_across(line.saturating_sub(indent) as u16)
}

// A line has begun: the ti total is used up.
pub fn begun(layout: Layout) -> Layout
    requires { LayoutInvariant (layout_of layout) }
    ensures { Laid result (begunOf (layout_of layout)) }
{
    with_total(layout, None)
}

// A line is written as it stands: ce counts it.
pub fn counted(layout: Layout) -> Layout
    requires { LayoutInvariant (layout_of layout) }
    ensures { Laid result (countedOf (layout_of layout)) }
{
    with_centred(begun(layout), layout.centred.saturating_sub(1))
}

// Whether a line is written as it stands: under nf or ce.
pub fn stands(layout: Layout) -> bool
    ensures { result ≡ as_it_stands (layout_of layout) }
{
    !layout.filling || 1 <= layout.centred
}
