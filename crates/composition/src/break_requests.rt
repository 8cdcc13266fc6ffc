// What a breaking request does: it starts the first page, or breaks, or acts.
ghost use Rattle.std.specs.Prelude.{◌≡◌, [], length};
ghost use Rattle.rules.specs.Acts as rule;
ghost use Rattle.settings.specs.Layout.Layouts.{printer_of, PrinterInvariant};
ghost use Rattle.composition.specs.PageRows.PageState.{PageState, page_state, PageReady, PageRefines};
ghost use Rattle.composition.specs.BreakRequests.Acting.{space_by, act_by};
ghost use Rattle.composition.specs.BreakRequests.Obeying.{held_line, held_request, starts_first, obeyed};

use super::page_rows::{Collected, PageOutcome, settle, stay};
use input_stack::frames::What;
use input_stack::stack::Stack;
use page::position::Page;
use page::springs::Way;
use rules::arrays::{ARGUMENT_COUNT, ByteColumn, LineBytes, RowBytes, StackBytes, StackEnds};
use rules::{Breaking, Name};
use settings::layout::{Layout, Printer};
use traps::table::Planted;

// sp, with its argument.
fn space(
    argument: &[u8],
    printer: Printer,
    layout: Layout,
    page: Page,
    collected: Collected,
    planted: Planted,
    cells: &LineBytes,
    row: &mut RowBytes,
    stack: Stack,
    arena: &mut StackBytes,
    ends: &mut StackEnds,
    firsts: &ByteColumn,
    seconds: &ByteColumn,
    texts: usize,
) -> PageOutcome
    requires { let q : PageState = page_state layout page collected cells.now stack arena.old ends.old in PageReady planted q [] row.old firsts.now seconds.now texts × PrinterInvariant printer }
    ensures { let q : PageState = page_state layout page collected cells.now stack arena.old ends.old in PageRefines (λ ts s. space_by (printer_of printer) argument.now s) firsts.now seconds.now texts planted q result.way result.written (page_state result.layout result.page result.collected cells.now result.stack arena.new ends.new) row.new }
{
    match settings::layout::spacing(argument, printer) {
        Ok(count) => super::page_rows::skip(
            count, layout, page, collected, planted, cells, row, stack, arena, ends, firsts,
            seconds, texts,
        ),
        Err(refusal) => stay(
            Way::Refused(refusal.number()),
            layout,
            page,
            collected,
            stack,
        ),
    }
}

// What a request does after its break, with its argument.
fn act_on(
    request: Breaking,
    argument: &[u8],
    printer: Printer,
    layout: Layout,
    page: Page,
    collected: Collected,
    planted: Planted,
    cells: &LineBytes,
    row: &mut RowBytes,
    stack: Stack,
    arena: &mut StackBytes,
    ends: &mut StackEnds,
    firsts: &ByteColumn,
    seconds: &ByteColumn,
    texts: usize,
) -> PageOutcome
    requires { let q : PageState = page_state layout page collected cells.now stack arena.old ends.old in PageReady planted q [] row.old firsts.now seconds.now texts × PrinterInvariant printer }
    ensures { let q : PageState = page_state layout page collected cells.now stack arena.old ends.old in PageRefines (λ ts s. act_by (printer_of printer) request argument.now s) firsts.now seconds.now texts planted q result.way result.written (page_state result.layout result.page result.collected cells.now result.stack arena.new ends.new) row.new }
{
    match request {
        Breaking::Br => stay(Way::On, layout, page, collected, stack),
        Breaking::Sp => space(
            argument, printer, layout, page, collected, planted, cells, row, stack, arena, ends,
            firsts, seconds, texts,
        ),
        Breaking::Bp => super::eject::eject(
            page.number,
            layout,
            page,
            collected,
            planted,
            cells,
            row,
            stack,
            arena,
            ends,
            firsts,
            seconds,
            texts,
        ),
        Breaking::Sets(setting) => {
            let new = settings::line_settings::set_line(setting, layout, argument, printer);
            settle(new, layout, page, collected, stack)
        }
    }
}

// What a request does after its break; the line is what follows its name.
pub fn act(
    request: Breaking,
    line: &[u8],
    parts: &mut LineBytes,
    printer: Printer,
    layout: Layout,
    page: Page,
    collected: Collected,
    planted: Planted,
    cells: &LineBytes,
    row: &mut RowBytes,
    stack: Stack,
    arena: &mut StackBytes,
    ends: &mut StackEnds,
    firsts: &ByteColumn,
    seconds: &ByteColumn,
    texts: usize,
) -> PageOutcome
    requires { let q : PageState = page_state layout page collected cells.now stack arena.old ends.old in PageReady planted q line.now row.old firsts.now seconds.now texts × PrinterInvariant printer × (length parts.old ≡ 512) }
    ensures { let q : PageState = page_state layout page collected cells.now stack arena.old ends.old in PageRefines (λ ts s. rule.act (printer_of printer) request line.now s) firsts.now seconds.now texts planted q result.way result.written (page_state result.layout result.page result.collected cells.now result.stack arena.new ends.new) row.new }
{
    let mut places = [0u16; ARGUMENT_COUNT];
    let count = scan::arguments::arguments(line, 0, &mut *parts, &mut places);
    let argument = line_syntax::lines::argument(&*parts, &places, count, 0);
    act_on(
        request, argument, printer, layout, page, collected, planted, cells, row, stack, arena,
        ends, firsts, seconds, texts,
    )
}

// "that line, as expanded, is dealt with after the top macro"
fn held_line(period: bool, request: Breaking, name: Name) -> Option<What>
    ensures { result ≡ held_line period request name }
{
    line_syntax::lines::held_first(request).then_some(What::Control(period, name))
}

// "If that break springs a trap, the request acts after its macro is read"
fn held_request(request: Breaking) -> Option<What>
    ensures { result ≡ held_request request }
{
    line_syntax::lines::acts_after(request).then_some(What::Acts(request))
}

// "The first page starts at the first .. break, sp or bp"
fn starts_first(number: u32, period: bool, request: Breaking) -> bool
    ensures { result ≡ starts_first number period request }
{
    number == 0 && line_syntax::lines::starts_page(period, request)
}

// A breaking request, whose line is expanded behind its name: it starts the first page, or breaks, or acts.
pub fn obey(
    period: bool,
    request: Breaking,
    name: Name,
    line: &[u8],
    parts: &mut LineBytes,
    printer: Printer,
    layout: Layout,
    page: Page,
    collected: Collected,
    planted: Planted,
    cells: &LineBytes,
    row: &mut RowBytes,
    stack: Stack,
    arena: &mut StackBytes,
    ends: &mut StackEnds,
    firsts: &ByteColumn,
    seconds: &ByteColumn,
    texts: usize,
) -> PageOutcome
    requires { let q : PageState = page_state layout page collected cells.now stack arena.old ends.old in PageReady planted q line.now row.old firsts.now seconds.now texts × PrinterInvariant printer × (length parts.old ≡ 512) }
    ensures { let q : PageState = page_state layout page collected cells.now stack arena.old ends.old in PageRefines (λ ts s. obeyed (printer_of printer) period request name line.now s) firsts.now seconds.now texts planted q result.way result.written (page_state result.layout result.page result.collected cells.now result.stack arena.new ends.new) row.new }
{
    if starts_first(page.number, period, request) {
        return super::page_rows::start(
            held_line(period, request, name),
            line,
            layout,
            page,
            collected,
            planted,
            cells,
            row,
            stack,
            arena,
            ends,
            firsts,
            seconds,
            texts,
        );
    }
    if period && collected.there {
        return super::page_rows::break_line(
            held_request(request),
            line,
            layout,
            page,
            collected,
            planted,
            cells,
            row,
            stack,
            arena,
            ends,
            firsts,
            seconds,
            texts,
        );
    }
    act(
        request, line, parts, printer, layout, page, collected, planted, cells, row, stack, arena,
        ends, firsts, seconds, texts,
    )
}
