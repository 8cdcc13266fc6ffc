// bp and the end: rows up to the end of a page.
ghost use Rattle.std.specs.Prelude.{◌≡◌, [], ◌+◌, ◌≤◌, ◌<◌, ltb};
ghost use Rattle.measure.specs.Counts.{down_of};
ghost use Rattle.rules.specs.Rows as rule;
ghost use Rattle.composition.specs.PageRows.PageState.{PageState, page_state, left_if, PageReady, PageRefines};

use super::page_rows::{Collected, PageOutcome, stay};
use input_stack::frames::What;
use input_stack::stack::Stack;
use measure::Rows;
use page::position::Page;
use page::springs::Way;
use rules::arrays::{ByteColumn, LineBytes, RowBytes, StackBytes, StackEnds};
use settings::layout::Layout;
use traps::table::Planted;

// What is left of a bp after blank rows, if they end within the page.
fn left_of(from: u32, page: Page, rows: Rows, length: Rows) -> Option<What>
    requires { (down_of page.used < down_of length) × (down_of length ≤ 500) }
    ensures { result ≡ left_if (ltb (down_of page.used + down_of rows) (down_of length)) from }
{
    let to = measure::down(page.used) as usize + measure::down(rows) as usize;
    (to < measure::down(length) as usize).then_some(What::Ejects(from))
}

// "blank rows to the next trap, its macro, and on until the page has changed."
pub fn eject(
    from: u32,
    layout: Layout,
    page: Page,
    collected: Collected,
    planted: Planted,
    cells: &LineBytes,
    row: &mut RowBytes,
    stack: Stack,
    arena: &mut StackBytes,
    ends: &mut StackEnds,
    firsts: &ByteColumn,
    seconds: &ByteColumn,
    texts: usize,
) -> PageOutcome
    requires { let q : PageState = page_state layout page collected cells.now stack arena.old ends.old in PageReady planted q [] row.old firsts.now seconds.now texts }
    ensures { let q : PageState = page_state layout page collected cells.now stack arena.old ends.old in PageRefines (λ ts s. rule.eject from s) firsts.now seconds.now texts planted q result.way result.written (page_state result.layout result.page result.collected cells.now result.stack arena.new ends.new) row.new }
{
    if from != page.number {
        return stay(Way::On, layout, page, collected, stack);
    }
    let rows = page::position::rows_below(page, layout.page, planted);
    let held = left_of(from, page, rows, layout.page);
    super::page_rows::blank(
        rows, held, b"", layout, page, collected, planted, cells, row, stack, arena, ends, firsts,
        seconds, texts,
    )
}

// The end's ejection, up to the next trap or the page end.
pub fn eject_last(
    layout: Layout,
    page: Page,
    collected: Collected,
    planted: Planted,
    cells: &LineBytes,
    row: &mut RowBytes,
    stack: Stack,
    arena: &mut StackBytes,
    ends: &mut StackEnds,
    firsts: &ByteColumn,
    seconds: &ByteColumn,
    texts: usize,
) -> PageOutcome
    requires { let q : PageState = page_state layout page collected cells.now stack arena.old ends.old in PageReady planted q [] row.old firsts.now seconds.now texts }
    ensures { let q : PageState = page_state layout page collected cells.now stack arena.old ends.old in PageRefines (λ ts s. rule.eject_last s) firsts.now seconds.now texts planted q result.way result.written (page_state result.layout result.page result.collected cells.now result.stack arena.new ends.new) row.new }
{
    let below = page::position::rows_below(page, layout.page, planted);
    super::page_rows::blank(
        below, None, b"", layout, page, collected, planted, cells, row, stack, arena, ends, firsts,
        seconds, texts,
    )
}

// The end: "breaks, then ejects"; "at row 0 with nothing collected it writes nothing".
pub fn begin_end(
    layout: Layout,
    page: Page,
    collected: Collected,
    planted: Planted,
    cells: &LineBytes,
    row: &mut RowBytes,
    stack: Stack,
    arena: &mut StackBytes,
    ends: &mut StackEnds,
    firsts: &ByteColumn,
    seconds: &ByteColumn,
    texts: usize,
) -> PageOutcome
    requires { let q : PageState = page_state layout page collected cells.now stack arena.old ends.old in PageReady planted q [] row.old firsts.now seconds.now texts }
    ensures { let q : PageState = page_state layout page collected cells.now stack arena.old ends.old in PageRefines (λ ts s. rule.begin_end s) firsts.now seconds.now texts planted q result.way result.written (page_state result.layout result.page result.collected cells.now result.stack arena.new ends.new) row.new }
{
    let last = Page { last: true, ..page };
    if collected.there {
        return super::page_rows::break_line(
            None, b"", layout, last, collected, planted, cells, row, stack, arena, ends, firsts,
            seconds, texts,
        );
    }
    if measure::down(page.used) == 0 {
        return stay(Way::Done, layout, last, collected, stack);
    }
    eject_last(
        layout, last, collected, planted, cells, row, stack, arena, ends, firsts, seconds, texts,
    )
}
