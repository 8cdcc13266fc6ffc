// A text is called by its name.
ghost use Rattle.std.specs.Prelude.{◌≡◌, length};
ghost use Rattle.rules.specs.Texts.{text_of};
ghost use Rattle.rules.specs.Rows.{goes};
ghost use Rattle.composition.specs.PageRows.PageState.{PageState, page_state, PageReady, PageRefines};
ghost use Rattle.composition.specs.TextCalls.Calls.{called_outcome, called_text, Known};

use super::page_rows::{Collected, PageOutcome, stay};
use input_stack::stack::Stack;
use page::position::Page;
use page::springs::Way;
use rules::arrays::{ARGUMENT_COUNT, ByteColumn, LineBytes, RowBytes, StackBytes, StackEnds};
use rules::{Name, Refusal};
use settings::layout::Layout;
use traps::table::Planted;

// A text that is called, or "10: input stack past 16 items".
fn land(
    called: Result<Stack, Refusal>,
    layout: Layout,
    page: Page,
    collected: Collected,
    stack: Stack,
) -> PageOutcome
    ensures { result ≡ called_outcome called layout page collected stack }
{
    match called {
        Ok(over) => stay(Way::On, layout, page, collected, over),
        Err(refusal) => stay(
            Way::Refused(refusal.number()),
            layout,
            page,
            collected,
            stack,
        ),
    }
}

// A text is called by its name with the arguments of a line.
pub fn call(
    name: Name,
    line: &[u8],
    parts: &mut LineBytes,
    layout: Layout,
    page: Page,
    collected: Collected,
    planted: Planted,
    cells: &LineBytes,
    row: &RowBytes,
    stack: Stack,
    arena: &mut StackBytes,
    ends: &mut StackEnds,
    firsts: &ByteColumn,
    seconds: &ByteColumn,
    texts: usize,
) -> PageOutcome
    requires { let q : PageState = page_state layout page collected cells.now stack arena.old ends.old in PageReady planted q line.now row.now firsts.now seconds.now texts × (length parts.old ≡ 512) × Known name firsts.now seconds.now texts }
    ensures { let q : PageState = page_state layout page collected cells.now stack arena.old ends.old in PageRefines (λ ts s. goes (called_text (text_of name ts) line.now s)) firsts.now seconds.now texts planted q result.way result.written (page_state result.layout result.page result.collected cells.now result.stack arena.new ends.new) row.now }
{
    let mut given = [0u16; ARGUMENT_COUNT];
    let count = scan::arguments::arguments(line, 0, &mut *parts, &mut given);
    let called = page::springs::call(
        name,
        count as u8,
        &*parts,
        &given,
        None,
        b"",
        page.last,
        stack,
        arena,
        ends,
    );
    land(called, layout, page, collected, stack)
}
