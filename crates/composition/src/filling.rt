// The words of a text line are placed one by one; a word that does not fit writes the line.
ghost use Rattle.std.specs.Prelude.{◌≡◌, false, ◌∷◌, ◌≤◌, ◌-◌, length};
ghost use Rattle.measure.specs.Counts.{across_of, cells_across};
ghost use Rattle.rules.specs.Filling.{words};
ghost use Rattle.rules.specs.TextLines as rule;
ghost use Rattle.rules.specs.TextLines.{fills};
ghost use Rattle.fill.specs.Words.Parts.{bytes_between, Places};
ghost use Rattle.fill.specs.Collected.Filled.{placed_of};
ghost use Rattle.composition.specs.PageRows.PageState.{PageState, page_state, PageReady, PageRefines};
ghost use Rattle.composition.specs.Filling.Words.{others_held, gap_behind, collected_to, leading_word, Overflows, WordsFilled, WordStarts, Follows};

use super::page_rows::{Collected, PageOutcome, stay};
use fill::collected::Overflow;
use fill::words::WordAt;
use input_stack::frames::What;
use input_stack::stack::Stack;
use measure::{Cells, Rows};
use page::position::Page;
use page::springs::Way;
use rules::arrays::{ByteColumn, LineBytes, RowBytes, StackBytes, StackEnds};
use settings::layout::Layout;
use traps::table::Planted;

// "then the other words": they are held where some are left.
fn others_held(line: &LineBytes, at: usize, to: usize, gap: u8) -> Option<What>
    requires { Places line.now at to }
    ensures { result ≡ others_held (words (bytes_between line.now at to)) gap }
{
    let left = !fill::words::is_blank(line, at, to);
    left.then_some(What::Others(gap))
}

// The gap to what a trap's macro puts next: the line has ended only if no words are left.
fn gap_behind(line: &LineBytes, at: usize, to: usize, gap: u8) -> Cells
    requires { Places line.now at to }
    ensures { result ≡ cells_across (gap_behind (words (bytes_between line.now at to)) gap) }
{
    if fill::words::is_blank(line, at, to) {
        return fill::words::as_cells(usize::from(gap));
    }
    Cells(1)
}

// All words fitted: they are collected, and the line's ending asks for a gap.
fn collect(
    length: usize,
    gap: u8,
    layout: Layout,
    page: Page,
    collected: Collected,
    stack: Stack,
) -> PageOutcome
    ensures { result ≡ collected_to length gap layout page collected stack }
{
    let longer = Collected {
        there: true,
        length,
        next: fill::words::as_cells(usize::from(gap)),
        ..collected
    };
    stay(Way::On, layout, page, longer, stack)
}

// "the line is written and the word starts the next"; the other words are held.
fn overflow(
    o: Overflow,
    gap: u8,
    line: &LineBytes,
    to: usize,
    layout: Layout,
    page: Page,
    collected: Collected,
    planted: Planted,
    cells: &mut LineBytes,
    row: &mut RowBytes,
    stack: Stack,
    arena: &mut StackBytes,
    ends: &mut StackEnds,
    firsts: &ByteColumn,
    seconds: &ByteColumn,
    texts: usize,
) -> PageOutcome
    requires { let q : PageState = page_state layout page collected cells.old stack arena.old ends.old in PageReady planted q line.now row.old firsts.now seconds.now texts × Overflows line.now to cells.old (across_of collected.room) gap o }
    ensures { let q : PageState = page_state layout page collected cells.old stack arena.old ends.old in PageRefines (λ ts s. rule.filled (placed_of (across_of collected.indent) (across_of collected.room) cells.old (across_of collected.next) line.now to (Err o)) gap s) firsts.now seconds.now texts planted q result.way result.written (page_state result.layout result.page result.collected cells.new result.stack arena.new ends.new) row.new }
{
    let at = o.to;
    let written = fill::rows::full_row(
        &*cells,
        o.length,
        collected.room,
        layout.adjusting,
        layout.offset.now,
        collected.indent,
        &mut *row,
    );
    let length = fill::collected::begin_line(line, Cells(0), o.from, at, &mut *cells);
    let fresh = Collected {
        there: true,
        indent: settings::layout::indent_now(layout),
        room: settings::layout::room_now(layout),
        length,
        next: gap_behind(line, at, to, gap),
    };
    let begun = settings::layout::begun(layout);
    let held = others_held(line, at, to, gap);
    let rest = fill::words::slice(line, at, to);
    let landed = page::springs::down(
        Rows(1),
        page,
        begun.page,
        planted,
        held,
        rest,
        stack,
        arena,
        ends,
        firsts,
        seconds,
        texts,
    );
    super::page_rows::lead_to(begun, fresh, landed, written)
}

// The words that fitted are collected, or the row is full.
fn fill_placed(
    placed: Result<usize, Overflow>,
    gap: u8,
    line: &LineBytes,
    to: usize,
    layout: Layout,
    page: Page,
    collected: Collected,
    planted: Planted,
    cells: &mut LineBytes,
    row: &mut RowBytes,
    stack: Stack,
    arena: &mut StackBytes,
    ends: &mut StackEnds,
    firsts: &ByteColumn,
    seconds: &ByteColumn,
    texts: usize,
) -> PageOutcome
    requires { let q : PageState = page_state layout page collected cells.old stack arena.old ends.old in PageReady planted q line.now row.old firsts.now seconds.now texts × WordsFilled line.now to cells.old (across_of collected.room) gap placed }
    ensures { let q : PageState = page_state layout page collected cells.old stack arena.old ends.old in PageRefines (λ ts s. rule.filled (placed_of (across_of collected.indent) (across_of collected.room) cells.old (across_of collected.next) line.now to placed) gap s) firsts.now seconds.now texts planted q result.way result.written (page_state result.layout result.page result.collected cells.new result.stack arena.new ends.new) row.new }
{
    match placed {
        Ok(length) => collect(length, gap, layout, page, collected, stack),
        Err(o) => overflow(
            o, gap, line, to, layout, page, collected, planted, cells, row, stack, arena, ends,
            firsts, seconds, texts,
        ),
    }
}

// The first word starts a line, and the others follow it.
fn fill_new(
    lead: Cells,
    found: WordAt,
    gap: u8,
    line: &LineBytes,
    to: usize,
    layout: Layout,
    page: Page,
    collected: Collected,
    planted: Planted,
    cells: &mut LineBytes,
    row: &mut RowBytes,
    stack: Stack,
    arena: &mut StackBytes,
    ends: &mut StackEnds,
    firsts: &ByteColumn,
    seconds: &ByteColumn,
    texts: usize,
) -> PageOutcome
    requires { let q : PageState = page_state layout page collected cells.old stack arena.old ends.old in PageReady planted q line.now row.old firsts.now seconds.now texts × WordStarts line.now to (across_of lead) gap found × (collected.there ≡ false) }
    ensures { let q : PageState = page_state layout page collected cells.old stack arena.old ends.old in PageRefines (λ ts s. rule.fill (leading_word (across_of lead) (bytes_between line.now found.from found.to) ∷ words (bytes_between line.now found.to to)) gap s) firsts.now seconds.now texts planted q result.way result.written (page_state result.layout result.page result.collected cells.new result.stack arena.new ends.new) row.new }
{
    let at = found.to;
    let room = settings::layout::room_now(layout);
    let begun = settings::layout::begun(layout);
    let length = fill::collected::begin_line(line, lead, found.from, at, &mut *cells);
    let fresh = Collected {
        there: true,
        indent: settings::layout::indent_now(layout),
        room,
        length,
        next: Cells(1),
    };
    let placed = fill::collected::place_others(line, at, to, &mut *cells, length, room);
    fill_placed(
        placed, gap, line, to, begun, page, fresh, planted, cells, row, stack, arena, ends, firsts,
        seconds, texts,
    )
}

// The words of a line go on behind what is collected, after their own gaps.
pub fn fill_rest(
    gap: Cells,
    line: &LineBytes,
    to: usize,
    layout: Layout,
    page: Page,
    collected: Collected,
    planted: Planted,
    cells: &mut LineBytes,
    row: &mut RowBytes,
    stack: Stack,
    arena: &mut StackBytes,
    ends: &mut StackEnds,
    firsts: &ByteColumn,
    seconds: &ByteColumn,
    texts: usize,
) -> PageOutcome
    requires { let q : PageState = page_state layout page collected cells.old stack arena.old ends.old in PageReady planted q line.now row.old firsts.now seconds.now texts × Places line.now 0 to × (across_of gap ≤ 2) }
    ensures { let q : PageState = page_state layout page collected cells.old stack arena.old ends.old in PageRefines (λ ts s. rule.fill (words (bytes_between line.now 0 to)) (across_of gap) s) firsts.now seconds.now texts planted q result.way result.written (page_state result.layout result.page result.collected cells.new result.stack arena.new ends.new) row.new }
{
    let behind = fill::words::count(gap) as u8;
    let Some(found) = fill::words::next_word(line, 0, to) else {
        return stay(Way::On, layout, page, collected, stack);
    };
    if collected.there {
        let placed = fill::collected::place_others(
            line,
            0,
            to,
            &mut *cells,
            collected.length,
            collected.room,
        );
        return fill_placed(
            placed, behind, line, to, layout, page, collected, planted, cells, row, stack, arena,
            ends, firsts, seconds, texts,
        );
    }
    fill_new(
        Cells(0),
        found,
        behind,
        line,
        to,
        layout,
        page,
        collected,
        planted,
        cells,
        row,
        stack,
        arena,
        ends,
        firsts,
        seconds,
        texts,
    )
}

// The words of a text line are filled, the first after the gap to this line, or with its leading spaces as fixed blanks.
pub fn fill_line(
    line: &LineBytes,
    to: usize,
    layout: Layout,
    page: Page,
    collected: Collected,
    planted: Planted,
    cells: &mut LineBytes,
    row: &mut RowBytes,
    stack: Stack,
    arena: &mut StackBytes,
    ends: &mut StackEnds,
    firsts: &ByteColumn,
    seconds: &ByteColumn,
    texts: usize,
) -> PageOutcome
    requires { let q : PageState = page_state layout page collected cells.old stack arena.old ends.old in PageReady planted q line.now row.old firsts.now seconds.now texts × Places line.now 0 to × Follows collected.there (words (bytes_between line.now 0 to)) }
    ensures { let q : PageState = page_state layout page collected cells.old stack arena.old ends.old in PageRefines (λ ts s. rule.text_way fills (words (bytes_between line.now 0 to)) (bytes_between line.now 0 to) s) firsts.now seconds.now texts planted q result.way result.written (page_state result.layout result.page result.collected cells.new result.stack arena.new ends.new) row.new }
{
    let Some(found) = fill::words::next_word(line, 0, to) else {
        return stay(Way::On, layout, page, collected, stack);
    };
    let behind = fill::words::gap_after(line, 0, to);
    let gap = fill::words::count(behind) as u8;
    if collected.there {
        let placed = fill::collected::place(
            line,
            0,
            to,
            collected.next,
            &mut *cells,
            collected.length,
            collected.room,
        );
        return fill_placed(
            placed, gap, line, to, layout, page, collected, planted, cells, row, stack, arena,
            ends, firsts, seconds, texts,
        );
    }
    fill_new(
        found.gap, found, gap, line, to, layout, page, collected, planted, cells, row, stack,
        arena, ends, firsts, seconds, texts,
    )
}
