// fi, nf, ce, in and ti after their break.
ghost use Rattle.std.specs.Prelude.{◌≡◌};
ghost use Rattle.settings.specs.Lengths.Views.{printer};
ghost use Rattle.rules.specs.Acts.{count_of, set_line};
ghost use Rattle.rules.specs.Results.{judged_by};
ghost use Rattle.settings.specs.Layout.Layouts.{printer_of, PrinterInvariant, layout_of, LayoutReady, LineSettingRefines};

use super::layout::{Layout, Printer};
use super::lengths::Length;
use rules::{LineSetting, Refusal};

// ce: "n of 0 or less ends centring"
fn count_of(n: i32) -> u32
    ensures { result ≡ count_of n }
{
    n.max(0) as u32
}

// ce, 1 where its argument is missing.
fn centre(layout: Layout, argument: &[u8], printer: Printer) -> Result<Layout, Refusal>
    requires { PrinterInvariant printer }
    ensures { judged_by layout_of result ≡ set_line (printer_of printer) LineSetting.Ce argument.now (layout_of layout) }
{
    if argument.is_empty() {
        return Ok(super::layout::with_centred(layout, 1));
    }
    let lines = number::scales::units(argument, printer.pitch)?;
    Ok(super::layout::with_centred(layout, count_of(lines)))
}

// ti: without an argument it does nothing.
fn set_total(layout: Layout, argument: &[u8], printer: Printer) -> Result<Layout, Refusal>
    requires { PrinterInvariant printer }
    ensures { judged_by layout_of result ≡ set_line (printer_of printer) LineSetting.Ti argument.now (layout_of layout) }
{
    if argument.is_empty() {
        return Ok(layout);
    }
    let total = super::lengths::indent_total(argument, layout.indent.now, printer.pitch)?;
    Ok(super::layout::with_total(layout, Some(total)))
}

// What a request makes of the layout after its break.
pub fn set_line(
    request: LineSetting,
    layout: Layout,
    argument: &[u8],
    printer: Printer,
) -> Result<Layout, Refusal>
    requires { LayoutReady printer layout }
    ensures { LineSettingRefines printer request layout argument.now result }
{
    match request {
        LineSetting::Fi => Ok(super::layout::with_filling(layout, true)),
        LineSetting::Nf => Ok(super::layout::with_filling(layout, false)),
        LineSetting::Ce => centre(layout, argument, printer),
        LineSetting::In => super::layout::set_length(Length::Indent, layout, argument, printer),
        LineSetting::Ti => set_total(layout, argument, printer),
    }
}
