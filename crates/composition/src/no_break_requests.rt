// Requests that neither break nor change a table: those that set the layout, and if.
ghost use Rattle.std.specs.Prelude.{◌≡◌, ◌≤◌, length};
ghost use Rattle.measure.specs.Counts.{down_of};
ghost use Rattle.rules.specs.Acts as rule;
ghost use Rattle.rules.specs.Acts.{settles, argument_at};
ghost use Rattle.settings.specs.Layout.Layouts.{printer_of, PrinterInvariant, LayoutReady, PageSettingRefines};
ghost use Rattle.page.specs.Springs.Held as springs;
ghost use Rattle.composition.specs.PageRows.PageState.{PageState, page_state, PageReady, PageRefines};
ghost use Rattle.composition.specs.NoBreakRequests.Following.{Followed};

use super::page_rows::{Collected, PageOutcome, stay};
use input_stack::frames::What;
use input_stack::stack::Stack;
use line_syntax::lines::Line;
use measure::Rows;
use page::position::Page;
use page::springs::Way;
use rules::arrays::{ARGUMENT_COUNT, ByteColumn, LineBytes, RowBytes, StackBytes, StackEnds};
use rules::{PageSetting, Refusal};
use settings::layout::{Layout, Printer};
use traps::table::Planted;

// What pl, po, ll, ad and na make of the layout, by what follows their name.
pub fn set_page(
    request: PageSetting,
    line: &[u8],
    parts: &mut LineBytes,
    used: Rows,
    layout: Layout,
    printer: Printer,
) -> Result<Layout, Refusal>
    requires { LayoutReady printer layout × (length line.now ≤ 512) × (length parts.old ≡ 512) }
    ensures { PageSettingRefines printer request layout (down_of used) (argument_at 0 line.now) result }
{
    let mut given = [0u16; ARGUMENT_COUNT];
    let count = scan::arguments::arguments(line, 0, &mut *parts, &mut given);
    let first = line_syntax::lines::argument(&*parts, &given, count, 0);
    settings::page_settings::set_page(request, layout, used, first, printer)
}

// if: "What follows its spaces, if anything, is dealt with as a line without second expansion"
fn follow(rest: &[u8], stack: Stack, arena: &mut StackBytes, ends: &mut StackEnds) -> Stack
    requires { springs.StackReady stack arena.old ends.old rest.now }
    ensures { Followed rest.now stack arena.old ends.old result arena.new ends.new }
{
    if rest.is_empty() {
        return stack;
    }
    match line_syntax::lines::line_of(rest) {
        Line::Text => page::springs::hold(Some(What::Text), rest, stack, arena, ends),
        Line::Control(period, name, at) => page::springs::hold(
            Some(What::Control(period, name)),
            &rest[at..],
            stack,
            arena,
            ends,
        ),
        Line::Ignored => page::springs::hold(Some(What::Ignored), rest, stack, arena, ends),
    }
}

// if, by what follows its name: without a condition it does nothing; "anything else earns 6".
pub fn decide(
    line: &[u8],
    printer: Printer,
    layout: Layout,
    page: Page,
    collected: Collected,
    planted: Planted,
    cells: &LineBytes,
    row: &RowBytes,
    stack: Stack,
    arena: &mut StackBytes,
    ends: &mut StackEnds,
    firsts: &ByteColumn,
    seconds: &ByteColumn,
    texts: usize,
) -> PageOutcome
    requires { let q : PageState = page_state layout page collected cells.now stack arena.old ends.old in PageReady planted q line.now row.now firsts.now seconds.now texts × PrinterInvariant printer }
    ensures { let q : PageState = page_state layout page collected cells.now stack arena.old ends.old in PageRefines (λ ts s. settles (rule.decide (printer_of printer) line.now s) s) firsts.now seconds.now texts planted q result.way result.written (page_state result.layout result.page result.collected cells.now result.stack arena.new ends.new) row.now }
{
    let places = line_syntax::lines::condition_at(line, 0);
    if places.from == places.to {
        return stay(Way::On, layout, page, collected, stack);
    }
    let condition = &line[places.from..places.to];
    match line_syntax::conditions::holds(condition, page.number, printer.pitch) {
        Ok(true) => {
            let over = follow(&line[places.rest..], stack, arena, ends);
            stay(Way::On, layout, page, collected, over)
        }
        Ok(false) => stay(Way::On, layout, page, collected, stack),
        Err(refusal) => stay(
            Way::Refused(refusal.number()),
            layout,
            page,
            collected,
            stack,
        ),
    }
}
