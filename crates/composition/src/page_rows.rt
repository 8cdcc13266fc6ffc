// Work that writes rows: breaks, blank rows, sp, and the first page.
ghost use Rattle.std.specs.Prelude.{◌≡◌, [], ◌≤◌};
ghost use Rattle.measure.specs.Counts.{across_of, down_of};
ghost use Rattle.rules.specs.Rows as rule;
ghost use Rattle.fill.specs.Collected.Filled.{collected_line};
ghost use Rattle.page.specs.Springs.Held.{held_of, Plain};
ghost use Rattle.composition.specs.PageRows.PageState.{PageState, page_state, no_line, page_stayed, settled_by, outcome_of, PageReady, PageRefines};

use input_stack::frames::What;
use input_stack::stack::Stack;
use measure::{Cells, Rows};
use page::position::Page;
use page::springs::{Landed, Way};
use rules::Refusal;
use rules::arrays::{ByteColumn, LineBytes, RowBytes, StackBytes, StackEnds};
use settings::layout::Layout;
use traps::table::Planted;

// The collected line, if there is one: its first `length` cells lie in an array of their own.
// A flag and no Option: the C interface has words for all five fields, whether or not a line is there.
// The length comes last, so that no bytes are left between the fields: a status, of which this is a part, is copied for each line.
#[derive(Clone, Copy)]
pub struct Collected {
    pub there: bool,
    pub indent: Cells,
    pub room: Cells,
    pub next: Cells,
    pub length: usize,
}

// What a piece of work leads to: so many bytes of the row are to be written, then the session goes on or is closed.
#[derive(Clone, Copy)]
pub struct PageOutcome {
    pub way: Way,
    pub layout: Layout,
    pub page: Page,
    pub collected: Collected,
    pub stack: Stack,
    pub written: usize,
}

// No line is collected.
pub fn nothing_collected() -> Collected
    ensures { result ≡ no_line }
{
    Collected {
        there: false,
        indent: Cells(0),
        room: Cells(0),
        length: 0,
        next: Cells(1),
    }
}

// Nothing is written or moved.
pub fn stay(way: Way, layout: Layout, page: Page, collected: Collected, stack: Stack) -> PageOutcome
    ensures { result ≡ page_stayed way layout page collected stack }
{
    PageOutcome {
        way,
        layout,
        page,
        collected,
        stack,
        written: 0,
    }
}

// The new layout of a request, or "6: number malformed" and "7: value out of range".
pub fn settle(
    new: Result<Layout, Refusal>,
    layout: Layout,
    page: Page,
    collected: Collected,
    stack: Stack,
) -> PageOutcome
    ensures { result ≡ settled_by new layout page collected stack }
{
    match new {
        Ok(other) => stay(Way::On, other, page, collected, stack),
        Err(refusal) => stay(
            Way::Refused(refusal.number()),
            layout,
            page,
            collected,
            stack,
        ),
    }
}

// What is written, and where the move down after it leads.
pub fn lead_to(layout: Layout, collected: Collected, landed: Landed, written: usize) -> PageOutcome
    ensures { result ≡ outcome_of layout collected landed written }
{
    PageOutcome {
        way: landed.way,
        layout,
        page: landed.page,
        collected,
        stack: landed.stack,
        written,
    }
}

// The collected line is written, and what is held goes on after the trap that this springs.
pub fn break_line(
    held: Option<What>,
    bytes: &[u8],
    layout: Layout,
    page: Page,
    collected: Collected,
    planted: Planted,
    cells: &LineBytes,
    row: &mut RowBytes,
    stack: Stack,
    arena: &mut StackBytes,
    ends: &mut StackEnds,
    firsts: &ByteColumn,
    seconds: &ByteColumn,
    texts: usize,
) -> PageOutcome
    requires { let q : PageState = page_state layout page collected cells.now stack arena.old ends.old in PageReady planted q bytes.now row.old firsts.now seconds.now texts × Plain held }
    ensures { let q : PageState = page_state layout page collected cells.now stack arena.old ends.old in PageRefines (λ ts s. rule.break (collected_line (across_of collected.indent) (across_of collected.room) cells.now collected.length (across_of collected.next)) (held_of ts held bytes.now) s) firsts.now seconds.now texts planted q result.way result.written (page_state result.layout result.page result.collected cells.now result.stack arena.new ends.new) row.new }
{
    let written = fill::rows::broken_row(
        cells,
        collected.length,
        layout.offset.now,
        collected.indent,
        &mut *row,
    );
    let landed = page::springs::down(
        Rows(1),
        page,
        layout.page,
        planted,
        held,
        bytes,
        stack,
        arena,
        ends,
        firsts,
        seconds,
        texts,
    );
    lead_to(layout, nothing_collected(), landed, written)
}

// Blank rows, and the move down.
pub fn blank(
    rows: Rows,
    held: Option<What>,
    bytes: &[u8],
    layout: Layout,
    page: Page,
    collected: Collected,
    planted: Planted,
    cells: &LineBytes,
    row: &mut RowBytes,
    stack: Stack,
    arena: &mut StackBytes,
    ends: &mut StackEnds,
    firsts: &ByteColumn,
    seconds: &ByteColumn,
    texts: usize,
) -> PageOutcome
    requires { let q : PageState = page_state layout page collected cells.now stack arena.old ends.old in PageReady planted q bytes.now row.old firsts.now seconds.now texts × Plain held × (down_of rows ≤ 500) }
    ensures { let q : PageState = page_state layout page collected cells.now stack arena.old ends.old in PageRefines (λ ts s. rule.blank (down_of rows) (held_of ts held bytes.now) s) firsts.now seconds.now texts planted q result.way result.written (page_state result.layout result.page result.collected cells.now result.stack arena.new ends.new) row.new }
{
    let written = fill::unfilled::blank_rows(rows, &mut *row);
    let landed = page::springs::down(
        rows,
        page,
        layout.page,
        planted,
        held,
        bytes,
        stack,
        arena,
        ends,
        firsts,
        seconds,
        texts,
    );
    lead_to(layout, collected, landed, written)
}

// "sp stops at the nearest trap or page end and drops the rest; 0 or less moves nothing."
pub fn skip(
    count: Rows,
    layout: Layout,
    page: Page,
    collected: Collected,
    planted: Planted,
    cells: &LineBytes,
    row: &mut RowBytes,
    stack: Stack,
    arena: &mut StackBytes,
    ends: &mut StackEnds,
    firsts: &ByteColumn,
    seconds: &ByteColumn,
    texts: usize,
) -> PageOutcome
    requires { let q : PageState = page_state layout page collected cells.now stack arena.old ends.old in PageReady planted q [] row.old firsts.now seconds.now texts }
    ensures { let q : PageState = page_state layout page collected cells.now stack arena.old ends.old in PageRefines (λ ts s. rule.skip count.0 s) firsts.now seconds.now texts planted q result.way result.written (page_state result.layout result.page result.collected cells.now result.stack arena.new ends.new) row.new }
{
    let rows = page::position::blanks(count, page, layout.page, planted);
    if measure::down(rows) == 0 {
        return stay(Way::On, layout, page, collected, stack);
    }
    blank(
        rows, None, b"", layout, page, collected, planted, cells, row, stack, arena, ends, firsts,
        seconds, texts,
    )
}

// The next page starts, and what is held goes on after the top macro.
pub fn start(
    held: Option<What>,
    bytes: &[u8],
    layout: Layout,
    page: Page,
    collected: Collected,
    planted: Planted,
    cells: &LineBytes,
    row: &mut RowBytes,
    stack: Stack,
    arena: &mut StackBytes,
    ends: &mut StackEnds,
    firsts: &ByteColumn,
    seconds: &ByteColumn,
    texts: usize,
) -> PageOutcome
    requires { let q : PageState = page_state layout page collected cells.now stack arena.old ends.old in PageReady planted q bytes.now row.old firsts.now seconds.now texts × Plain held }
    ensures { let q : PageState = page_state layout page collected cells.now stack arena.old ends.old in PageRefines (λ ts s. rule.goes (rule.start_page (held_of ts held bytes.now) s)) firsts.now seconds.now texts planted q result.way result.written (page_state result.layout result.page result.collected cells.now result.stack arena.new ends.new) row.new }
{
    let landed = page::springs::start_page(
        page,
        layout.page,
        planted,
        held,
        bytes,
        stack,
        arena,
        ends,
        firsts,
        seconds,
        texts,
    );
    lead_to(layout, collected, landed, 0)
}
