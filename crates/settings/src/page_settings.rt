// pl, po, ll, ad and na.
ghost use Rattle.std.specs.Prelude.{◌≡◌};
ghost use Rattle.measure.specs.Counts.{down_of};
ghost use Rattle.settings.specs.Lengths.Views.{printer};
ghost use Rattle.rules.specs.Acts.{page_length, set_page};
ghost use Rattle.rules.specs.Results.{judged_by};
ghost use Rattle.settings.specs.Layout.Layouts.{printer_of, PrinterInvariant, layout_of, LayoutReady, PageSettingRefines};

use super::layout::{Layout, Printer};
use super::lengths::Length;
use measure::Rows;
use rules::{PageSetting, Refusal};

// pl, with an argument, or without: "pl 66 rows".
fn new_page(used: Rows, old: Rows, argument: &[u8], printer: Printer) -> Result<Rows, Refusal>
    requires { PrinterInvariant printer }
    ensures { judged_by down_of result ≡ page_length (printer_of printer) (down_of used) (down_of old) argument.now }
{
    if argument.is_empty() {
        let rows = i64::from(measure::down(printer.page));
        let count = super::lengths::page_count(rows, used)?;
        return Ok(measure::rows_down(count));
    }
    super::lengths::page_length(used, old, argument, printer.pitch)
}

// pl.
fn set_page_length(
    layout: Layout,
    used: Rows,
    argument: &[u8],
    printer: Printer,
) -> Result<Layout, Refusal>
    requires { PrinterInvariant printer }
    ensures { judged_by layout_of result ≡ set_page (printer_of printer) PageSetting.Pl (down_of used) argument.now (layout_of layout) }
{
    let page = new_page(used, layout.page, argument, printer)?;
    Ok(Layout { page, ..layout })
}

// What a request that does not break makes of the layout.
pub fn set_page(
    request: PageSetting,
    layout: Layout,
    used: Rows,
    argument: &[u8],
    printer: Printer,
) -> Result<Layout, Refusal>
    requires { LayoutReady printer layout }
    ensures { PageSettingRefines printer request layout (down_of used) argument.now result }
{
    match request {
        PageSetting::Pl => set_page_length(layout, used, argument, printer),
        PageSetting::Po => super::layout::set_length(Length::Offset, layout, argument, printer),
        PageSetting::Ll => super::layout::set_length(Length::Line, layout, argument, printer),
        PageSetting::Ad => Ok(super::layout::with_adjusting(layout, true)),
        PageSetting::Na => Ok(super::layout::with_adjusting(layout, false)),
    }
}
