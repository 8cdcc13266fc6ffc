// What a text line does: its words are filled, or it is written as it stands.
ghost use Rattle.std.specs.Prelude.{◌-◌, length, ◌≡◌, false};
ghost use Rattle.measure.specs.Counts.{across_of};
ghost use Rattle.rules.specs.Filling.{words, leads};
ghost use Rattle.rules.specs.TextLines as rule;
ghost use Rattle.rules.specs.TextLines.{stands, breaks};
ghost use Rattle.fill.specs.Words.Parts.{bytes_between, Places};
ghost use Rattle.fill.specs.Collected.Filled.{collected_line};
ghost use Rattle.settings.specs.Layout.Layouts.{layout_of};
ghost use Rattle.composition.specs.PageRows.PageState.{PageState, page_state, PageReady, PageRefines};
ghost use Rattle.composition.specs.Filling.Words.{word_way, breaks_first, fresh_way};

use super::page_rows::{Collected, PageOutcome};
use input_stack::frames::What;
use input_stack::stack::Stack;
use measure::Rows;
use page::position::Page;
use rules::Breaking;
use rules::arrays::{ByteColumn, LineBytes, RowBytes, StackBytes, StackEnds};
use settings::layout::Layout;
use traps::table::Planted;

// "With nf each line is written as it stands; ce centres".
fn stand(
    line: &LineBytes,
    to: usize,
    layout: Layout,
    page: Page,
    collected: Collected,
    planted: Planted,
    cells: &LineBytes,
    row: &mut RowBytes,
    stack: Stack,
    arena: &mut StackBytes,
    ends: &mut StackEnds,
    firsts: &ByteColumn,
    seconds: &ByteColumn,
    texts: usize,
) -> PageOutcome
    requires { let q : PageState = page_state layout page collected cells.now stack arena.old ends.old in PageReady planted q line.now row.old firsts.now seconds.now texts × Places line.now 0 to }
    ensures { let q : PageState = page_state layout page collected cells.now stack arena.old ends.old in PageRefines (λ ts s. rule.text_way stands (words (bytes_between line.now 0 to)) (bytes_between line.now 0 to) s) firsts.now seconds.now texts planted q result.way result.written (page_state result.layout result.page result.collected cells.now result.stack arena.new ends.new) row.new }
{
    let centred = layout.centred > 0;
    let indent = settings::layout::indent_now(layout);
    let room = settings::layout::room_now(layout);
    let written = fill::unfilled::standing_row(
        line,
        0,
        to,
        centred,
        room,
        layout.offset.now,
        indent,
        &mut *row,
    );
    let counted = settings::layout::counted(layout);
    let landed = page::springs::down(
        Rows(1),
        page,
        counted.page,
        planted,
        None,
        b"",
        stack,
        arena,
        ends,
        firsts,
        seconds,
        texts,
    );
    super::page_rows::lead_to(counted, collected, landed, written)
}

// "A line that, as expanded, has no bytes or only spaces acts as sp 1", its break too.
fn blank_line(
    layout: Layout,
    page: Page,
    collected: Collected,
    planted: Planted,
    cells: &LineBytes,
    row: &mut RowBytes,
    stack: Stack,
    arena: &mut StackBytes,
    ends: &mut StackEnds,
    firsts: &ByteColumn,
    seconds: &ByteColumn,
    texts: usize,
) -> PageOutcome
    requires { let q : PageState = page_state layout page collected cells.now stack arena.old ends.old in PageReady planted q cells.now row.old firsts.now seconds.now texts }
    ensures { let q : PageState = page_state layout page collected cells.now stack arena.old ends.old in PageRefines (λ ts s. rule.blank_from s.collected s) firsts.now seconds.now texts planted q result.way result.written (page_state result.layout result.page result.collected cells.now result.stack arena.new ends.new) row.new }
{
    if collected.there {
        return super::page_rows::break_line(
            Some(What::Acts(Breaking::Sp)),
            b"",
            layout,
            page,
            collected,
            planted,
            cells,
            row,
            stack,
            arena,
            ends,
            firsts,
            seconds,
            texts,
        );
    }
    super::page_rows::skip(
        Rows(1),
        layout,
        page,
        collected,
        planted,
        cells,
        row,
        stack,
        arena,
        ends,
        firsts,
        seconds,
        texts,
    )
}

// A text line breaks first where nf, ce or leading spaces ask for it, and is dealt with afresh.
fn break_first(
    line: &LineBytes,
    to: usize,
    layout: Layout,
    page: Page,
    collected: Collected,
    planted: Planted,
    cells: &LineBytes,
    row: &mut RowBytes,
    stack: Stack,
    arena: &mut StackBytes,
    ends: &mut StackEnds,
    firsts: &ByteColumn,
    seconds: &ByteColumn,
    texts: usize,
) -> PageOutcome
    requires { let q : PageState = page_state layout page collected cells.now stack arena.old ends.old in PageReady planted q line.now row.old firsts.now seconds.now texts × Places line.now 0 to }
    ensures { let q : PageState = page_state layout page collected cells.now stack arena.old ends.old in PageRefines (λ ts s. rule.text_way (breaks (collected_line (across_of collected.indent) (across_of collected.room) cells.now collected.length (across_of collected.next))) (words (bytes_between line.now 0 to)) (bytes_between line.now 0 to) s) firsts.now seconds.now texts planted q result.way result.written (page_state result.layout result.page result.collected cells.now result.stack arena.new ends.new) row.new }
{
    let bytes = fill::words::slice(line, 0, to);
    super::page_rows::break_line(
        Some(What::Text),
        bytes,
        layout,
        page,
        collected,
        planted,
        cells,
        row,
        stack,
        arena,
        ends,
        firsts,
        seconds,
        texts,
    )
}

// Whether a line of words breaks first: one is collected, and nf, ce or leading spaces ask for it.
fn breaks_first(line: &LineBytes, to: usize, layout: Layout, there: bool) -> bool
    requires { Places line.now 0 to }
    ensures { result ≡ breaks_first there (rule.as_it_stands (layout_of layout)) (leads (words (bytes_between line.now 0 to))) }
{
    there && (fill::words::leads(line, 0, to) || settings::layout::stands(layout))
}

// A line of words that need not break first: it stands, or its words are filled.
fn fresh_line(
    line: &LineBytes,
    to: usize,
    layout: Layout,
    page: Page,
    collected: Collected,
    planted: Planted,
    cells: &mut LineBytes,
    row: &mut RowBytes,
    stack: Stack,
    arena: &mut StackBytes,
    ends: &mut StackEnds,
    firsts: &ByteColumn,
    seconds: &ByteColumn,
    texts: usize,
) -> PageOutcome
    requires { let q : PageState = page_state layout page collected cells.old stack arena.old ends.old in PageReady planted q line.now row.old firsts.now seconds.now texts × Places line.now 0 to × (breaks_first collected.there (rule.as_it_stands (layout_of layout)) (leads (words (bytes_between line.now 0 to))) ≡ false) }
    ensures { let q : PageState = page_state layout page collected cells.old stack arena.old ends.old in PageRefines (λ ts s. rule.text_way (fresh_way (rule.as_it_stands (layout_of layout))) (words (bytes_between line.now 0 to)) (bytes_between line.now 0 to) s) firsts.now seconds.now texts planted q result.way result.written (page_state result.layout result.page result.collected cells.new result.stack arena.new ends.new) row.new }
{
    if settings::layout::stands(layout) {
        return stand(
            line, to, layout, page, collected, planted, &*cells, row, stack, arena, ends, firsts,
            seconds, texts,
        );
    }
    super::filling::fill_line(
        line, to, layout, page, collected, planted, cells, row, stack, arena, ends, firsts,
        seconds, texts,
    )
}

// A text line with words, on a page that has started.
fn word_line(
    line: &LineBytes,
    to: usize,
    layout: Layout,
    page: Page,
    collected: Collected,
    planted: Planted,
    cells: &mut LineBytes,
    row: &mut RowBytes,
    stack: Stack,
    arena: &mut StackBytes,
    ends: &mut StackEnds,
    firsts: &ByteColumn,
    seconds: &ByteColumn,
    texts: usize,
) -> PageOutcome
    requires { let q : PageState = page_state layout page collected cells.old stack arena.old ends.old in PageReady planted q line.now row.old firsts.now seconds.now texts × Places line.now 0 to }
    ensures { let q : PageState = page_state layout page collected cells.old stack arena.old ends.old in PageRefines (λ ts s. rule.text_way (word_way collected.there (rule.as_it_stands (layout_of layout)) (leads (words (bytes_between line.now 0 to))) (collected_line (across_of collected.indent) (across_of collected.room) cells.old collected.length (across_of collected.next))) (words (bytes_between line.now 0 to)) (bytes_between line.now 0 to) s) firsts.now seconds.now texts planted q result.way result.written (page_state result.layout result.page result.collected cells.new result.stack arena.new ends.new) row.new }
{
    if breaks_first(line, to, layout, collected.there) {
        return break_first(
            line, to, layout, page, collected, planted, &*cells, row, stack, arena, ends, firsts,
            seconds, texts,
        );
    }
    fresh_line(
        line, to, layout, page, collected, planted, cells, row, stack, arena, ends, firsts,
        seconds, texts,
    )
}

// A text line, as expanded.
pub fn text_line(
    line: &LineBytes,
    to: usize,
    layout: Layout,
    page: Page,
    collected: Collected,
    planted: Planted,
    cells: &mut LineBytes,
    row: &mut RowBytes,
    stack: Stack,
    arena: &mut StackBytes,
    ends: &mut StackEnds,
    firsts: &ByteColumn,
    seconds: &ByteColumn,
    texts: usize,
) -> PageOutcome
    requires { let q : PageState = page_state layout page collected cells.old stack arena.old ends.old in PageReady planted q line.now row.old firsts.now seconds.now texts × Places line.now 0 to }
    ensures { let q : PageState = page_state layout page collected cells.old stack arena.old ends.old in PageRefines (λ ts s. rule.text_line (bytes_between line.now 0 to) s) firsts.now seconds.now texts planted q result.way result.written (page_state result.layout result.page result.collected cells.new result.stack arena.new ends.new) row.new }
{
    if page.number == 0 {
        let bytes = fill::words::slice(line, 0, to);
        return super::page_rows::start(
            Some(What::Text),
            bytes,
            layout,
            page,
            collected,
            planted,
            &*cells,
            row,
            stack,
            arena,
            ends,
            firsts,
            seconds,
            texts,
        );
    }
    if fill::words::is_blank(line, 0, to) {
        return blank_line(
            layout, page, collected, planted, &*cells, row, stack, arena, ends, firsts, seconds,
            texts,
        );
    }
    word_line(
        line, to, layout, page, collected, planted, cells, row, stack, arena, ends, firsts,
        seconds, texts,
    )
}
