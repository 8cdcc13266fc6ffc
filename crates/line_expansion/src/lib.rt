#![tactic(auto)]

// A line as it was taken, up to its expansion: a body line, a control line or words.
ghost use Rattle.settings.specs.Layout.Layouts.{printer_of, layout_of};
ghost use Rattle.page.specs.Position.Landing.{page_of};
ghost use Rattle.registers.specs.Interpolation.ReadOnly.{seen_of};
ghost use Rattle.scan.specs.Output.Writes.{Room};
ghost use Rattle.scan.specs.Expansion.Expansion.{ScannedTo};
ghost use Rattle.texts.specs.Table.Lent.{texts_at};
ghost use Rattle.texts.specs.Lines.Lines.{next_line, TopInside};
ghost use Rattle.state.specs.Whole.{shown_at, surroundings, ShownRanges};
ghost use Rattle.line_expansion.specs.Dealing.{expansion_of, DealRefines};
ghost use Rattle.rules.specs.Lines.{line_of};
ghost use Rattle.rules.specs.State.{control};
ghost use Rattle.std.specs.Prelude.{true, false, ◌≡◌, ◌*◌, ◌≤◌, pos, length, drop};
ghost use Rattle.scan.specs.Arguments.Around.{Arguments, arguments_of};

use line_syntax::lines::{Line, Meaning};
use page::position::Page;
use registers::columns::RegisterValues;
use registers::interpolation::Shown;
use rules::arrays::{ArgumentEnds, LineBytes};
use rules::{Mode, Name, Refusal};
use settings::layout::{Layout, Printer};
use texts::columns::TextsRef;
use texts::lines::Top;

// What is left to do with a line, once it is expanded.
#[derive(Clone, Copy)]
pub enum Dealt {
    // it closes the open definition
    Closes,
    // so many bytes are kept in the open definition
    Keeps(usize),
    // a text line of so many bytes
    Words(usize),
    // a control line, called with a period or not: its name, what that means, and so many bytes behind it
    Control(bool, Name, Meaning, usize),
    Nothing,
}

// So many counts of a size, in units.
fn in_units(count: u32, size: u8) -> i32
    requires { count ≤ 500 }
    ensures { (result ≡ pos (count * size)) × (count * size ≤ 127500) }
{
    (count * u32::from(size)) as i32
}

// What the read-only registers show: "all but % in units".
fn shown(layout: Layout, page: Page, printer: Printer) -> Shown
    requires { ShownRanges (layout_of layout) (page_of page) }
    ensures { seen_of result ≡ shown_at (printer_of printer) (layout_of layout) (page_of page) }
{
    let pitch = printer.pitch;
    Shown {
        page: page.number as i32,
        rows: in_units(measure::down(page.used), pitch.row),
        length: in_units(measure::across(layout.line.now), pitch.cell),
        indent: in_units(measure::across(layout.indent.now), pitch.cell),
        page_length: in_units(measure::down(layout.page), pitch.row),
    }
}

// A line is expanded with the settings and the tables in force.
fn expand(
    line: &[u8],
    mode: Mode,
    prefix: usize,
    printer: Printer,
    layout: Layout,
    page: Page,
    texts: &TextsRef,
    registers: &mut RegisterValues,
    arguments: &[u8],
    ends: &ArgumentEnds,
    given: usize,
    out: &mut LineBytes,
) -> Result<usize, Refusal>
    requires { ShownRanges (layout_of layout) (page_of page) × Arguments arguments.now ends.now given × Room out.old 0 512 }
    ensures { ScannedTo result (surroundings (printer_of printer) (layout_of layout) (page_of page) (texts_at texts.now) (arguments_of arguments.now ends.now given)) mode prefix line.now registers.old registers.new out.old out.new }
{
    scan::expansion::expand(
        line,
        mode,
        prefix,
        texts,
        registers,
        shown(layout, page, printer),
        arguments,
        ends,
        given,
        out,
    )
}

// A body line of an open definition: it closes the definition, or is expanded in copy mode.
fn scan_body(
    line: &[u8],
    printer: Printer,
    layout: Layout,
    page: Page,
    texts: &TextsRef,
    registers: &mut RegisterValues,
    arguments: &[u8],
    ends: &ArgumentEnds,
    given: usize,
    out: &mut LineBytes,
) -> Result<Dealt, Refusal>
    requires { ShownRanges (layout_of layout) (page_of page) × Arguments arguments.now ends.now given × Room out.old 0 512 }
    ensures { DealRefines result (printer_of printer) (layout_of layout) (page_of page) (texts_at texts.now) true (arguments_of arguments.now ends.now given) line.now registers.old registers.new out.new }
{
    if texts::lines::closes_body(line) {
        return Ok(Dealt::Closes);
    }
    let n = expand(
        line,
        Mode::Copy,
        0,
        printer,
        layout,
        page,
        texts,
        registers,
        arguments,
        ends,
        given,
        out,
    )?;
    Ok(Dealt::Keeps(n))
}

// How what follows a name is expanded, by what the name means.
fn expansion_of(meaning: Meaning) -> Mode
    ensures { result ≡ expansion_of meaning }
{
    match meaning {
        Meaning::Calls(_) => Mode::Plain,
        Meaning::Requests(request) => line_syntax::lines::mode_of(request),
    }
}

// A control line: what follows its name is expanded; "lines with names .. unknown .. are ignored unexpanded".
fn scan_control(
    line: &[u8],
    period: bool,
    name: Name,
    at: usize,
    printer: Printer,
    layout: Layout,
    page: Page,
    texts: &TextsRef,
    registers: &mut RegisterValues,
    arguments: &[u8],
    ends: &ArgumentEnds,
    given: usize,
    out: &mut LineBytes,
) -> Result<Dealt, Refusal>
    requires { ShownRanges (layout_of layout) (page_of page) × Arguments arguments.now ends.now given × Room out.old 0 512 × (at ≤ length line.now) × (line_of line.now ≡ control period name (drop at line.now)) }
    ensures { DealRefines result (printer_of printer) (layout_of layout) (page_of page) (texts_at texts.now) false (arguments_of arguments.now ends.now given) line.now registers.old registers.new out.new }
{
    let known = line_syntax::lines::meaning_of(texts, name);
    let Some(meaning) = known else {
        return Ok(Dealt::Nothing);
    };
    let n = expand(
        &line[at..],
        expansion_of(meaning),
        line_syntax::lines::prefix_of(name),
        printer,
        layout,
        page,
        texts,
        registers,
        arguments,
        ends,
        given,
        out,
    )?;
    Ok(Dealt::Control(period, name, meaning, n))
}

// A line as it was taken, where no definition is open.
fn scan_fresh(
    line: &[u8],
    printer: Printer,
    layout: Layout,
    page: Page,
    texts: &TextsRef,
    registers: &mut RegisterValues,
    arguments: &[u8],
    ends: &ArgumentEnds,
    given: usize,
    out: &mut LineBytes,
) -> Result<Dealt, Refusal>
    requires { ShownRanges (layout_of layout) (page_of page) × Arguments arguments.now ends.now given × Room out.old 0 512 }
    ensures { DealRefines result (printer_of printer) (layout_of layout) (page_of page) (texts_at texts.now) false (arguments_of arguments.now ends.now given) line.now registers.old registers.new out.new }
{
    match line_syntax::lines::line_of(line) {
        Line::Text => {
            let n = expand(
                line,
                Mode::Plain,
                0,
                printer,
                layout,
                page,
                texts,
                registers,
                arguments,
                ends,
                given,
                out,
            )?;
            Ok(Dealt::Words(n))
        }
        Line::Control(period, name, at) => scan_control(
            line, period, name, at, printer, layout, page, texts, registers, arguments, ends,
            given, out,
        ),
        Line::Ignored => Ok(Dealt::Nothing),
    }
}

// The next line, from whichever is on top, up to its expansion.
pub fn read<'a>(
    source: &'a [u8],
    top: Top,
    opened: bool,
    printer: Printer,
    layout: Layout,
    page: Page,
    texts: &TextsRef<'a, '_>,
    registers: &mut RegisterValues,
    arguments: &[u8],
    ends: &ArgumentEnds,
    given: usize,
    out: &mut LineBytes,
) -> Result<Dealt, Refusal>
    requires { TopInside source.now texts.now.store.now top × ShownRanges (layout_of layout) (page_of page) × Arguments arguments.now ends.now given × Room out.old 0 512 }
    ensures { DealRefines result (printer_of printer) (layout_of layout) (page_of page) (texts_at texts.now) opened (arguments_of arguments.now ends.now given) (next_line source.now texts.now.store.now top) registers.old registers.new out.new }
{
    let line = texts::lines::next_line(source, texts.store, top);
    if opened {
        return scan_body(
            line, printer, layout, page, texts, registers, arguments, ends, given, out,
        );
    }
    scan_fresh(
        line, printer, layout, page, texts, registers, arguments, ends, given, out,
    )
}
