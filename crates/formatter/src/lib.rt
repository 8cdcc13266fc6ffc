#![tactic(auto)]

// One piece of work on the whole state: a line as it was taken, and the items of the input stack.
pub mod held_items;
pub mod stored_lines;
pub mod stored_text;

ghost use Rattle.std.specs.Prelude.{[], ◌≡◌};
ghost use Rattle.rules.specs.ControlLines as rules;
ghost use Rattle.rules.specs.Session.{work_end};
ghost use Rattle.settings.specs.Layout.Layouts.{printer_of};
ghost use Rattle.line_expansion.specs.Dealing.{numbered};
ghost use Rattle.composition.specs.PageRows.PageState as page-state;
ghost use Rattle.composition.specs.PageRows.PageState.{PageState, page_state, PageRefines};
ghost use Rattle.state.specs.Whole.{WholeState, StateRefines};
ghost use Rattle.state.specs.Statuses.{whole_of, StateReady};
ghost use Rattle.formatter.specs.StoredLines.Works.{StepReady, StepRefines};

use composition::page_rows::PageOutcome;
use input_stack::frames::What;
use line_expansion::Dealt;
use page::springs::Way;
use registers::columns::RegisterValues;
use rules::Refusal;
use rules::arrays::{
    ARGUMENT_COUNT, ByteColumn, LINE_SIZE, LengthColumn, LineBytes, NumberColumn, RowBytes,
    StackBytes, StackEnds,
};
use settings::layout::Printer;
use state::{Status, WorkOutcome, moved, stay};
use stored_lines::Performed;
use texts::columns::TextsRef;
use texts::lines::Top;

// A line that is refused, by the number of its refusal.
fn numbered(dealt: Result<Dealt, Refusal>) -> Result<Dealt, u8>
    ensures { result ≡ numbered dealt }
{
    dealt.map_err(|refusal| refusal.number())
}

// A source line, as it was taken. Its one caller has the status in hand: inlined, it is not copied on the way in and back.
#[inline(always)]
pub fn deal(
    line: &[u8],
    printer: Printer,
    status: Status,
    cells: &mut LineBytes,
    row: &mut RowBytes,
    arena: &mut StackBytes,
    ends: &mut StackEnds,
    store: &mut [u8],
    text_firsts: &mut ByteColumn,
    text_seconds: &mut ByteColumn,
    kinds: &mut ByteColumn,
    lengths: &mut LengthColumn,
    firsts: &mut ByteColumn,
    seconds: &mut ByteColumn,
    values: &mut NumberColumn,
    steps: &mut NumberColumn,
) -> WorkOutcome
    requires { let q : WholeState = whole_of status cells.old arena.old ends.old store.old text_firsts.old text_seconds.old kinds.old lengths.old firsts.old seconds.old values.old steps.old in StateReady q line.now row.old printer }
    ensures { let q : WholeState = whole_of status cells.old arena.old ends.old store.old text_firsts.old text_seconds.old kinds.old lengths.old firsts.old seconds.old values.old steps.old in StateRefines (λ s. rules.deal (printer_of printer) [] line.now s) q result.way result.written (whole_of result.status cells.new arena.new ends.new store.new text_firsts.new text_seconds.new kinds.new lengths.new firsts.new seconds.new values.new steps.new) row.new }
{
    let layout = status.layout;
    let page = status.page;
    let opening = status.opening;
    let none = [0u16; ARGUMENT_COUNT];
    let mut out = [0u8; LINE_SIZE];
    let texts = TextsRef {
        store: &*store,
        firsts: &*text_firsts,
        seconds: &*text_seconds,
        kinds: &*kinds,
        lengths: &*lengths,
        count: status.texts,
    };
    let mut registers = RegisterValues {
        firsts: &*firsts,
        seconds: &*seconds,
        values: &mut *values,
        steps: &*steps,
        count: status.registers,
    };
    let dealt = line_expansion::read(
        line,
        Top::Source(line.len()),
        opening.there,
        printer,
        layout,
        page,
        &texts,
        &mut registers,
        b"",
        &none,
        0,
        &mut out,
    );
    line_execution::expanded_lines::finish(
        numbered(dealt),
        &out,
        printer,
        status,
        cells,
        row,
        arena,
        ends,
        store,
        text_firsts,
        text_seconds,
        kinds,
        lengths,
        firsts,
        seconds,
        values,
        steps,
    )
}

// The end begins, or goes on after a trap.
fn work_end(
    status: Status,
    cells: &LineBytes,
    row: &mut RowBytes,
    arena: &mut StackBytes,
    ends: &mut StackEnds,
    text_firsts: &ByteColumn,
    text_seconds: &ByteColumn,
) -> PageOutcome
    requires { let q : PageState = page_state status.layout status.page status.collected cells.now status.stack arena.old ends.old in page-state.PageReady status.planted q [] row.old text_firsts.now text_seconds.now status.texts }
    ensures { let q : PageState = page_state status.layout status.page status.collected cells.now status.stack arena.old ends.old in PageRefines (λ ts s. work_end s.page.last s) text_firsts.now text_seconds.now status.texts status.planted q result.way result.written (page_state result.layout result.page result.collected cells.now result.stack arena.new ends.new) row.new }
{
    let layout = status.layout;
    let page = status.page;
    let collected = status.collected;
    let planted = status.planted;
    let stack = status.stack;
    if page.last {
        return composition::eject::eject_last(
            layout,
            page,
            collected,
            planted,
            cells,
            row,
            stack,
            arena,
            ends,
            text_firsts,
            text_seconds,
            status.texts,
        );
    }
    composition::eject::begin_end(
        layout,
        page,
        collected,
        planted,
        cells,
        row,
        stack,
        arena,
        ends,
        text_firsts,
        text_seconds,
        status.texts,
    )
}

// One piece of work: the item on top of the input stack, or the end.
pub fn work(
    stored: u16,
    printer: Printer,
    status: Status,
    cells: &mut LineBytes,
    row: &mut RowBytes,
    arena: &mut StackBytes,
    ends: &mut StackEnds,
    store: &mut [u8],
    text_firsts: &mut ByteColumn,
    text_seconds: &mut ByteColumn,
    kinds: &mut ByteColumn,
    lengths: &mut LengthColumn,
    firsts: &mut ByteColumn,
    seconds: &mut ByteColumn,
    values: &mut NumberColumn,
    steps: &mut NumberColumn,
) -> Performed
    requires { let q : WholeState = whole_of status cells.old arena.old ends.old store.old text_firsts.old text_seconds.old kinds.old lengths.old firsts.old seconds.old values.old steps.old in StepReady q stored row.old printer }
    ensures { let q : WholeState = whole_of status cells.old arena.old ends.old store.old text_firsts.old text_seconds.old kinds.old lengths.old firsts.old seconds.old values.old steps.old in StepRefines (printer_of printer) q stored result.way result.written (whole_of result.status cells.new arena.new ends.new store.new text_firsts.new text_seconds.new kinds.new lengths.new firsts.new seconds.new values.new steps.new) result.stored row.new }
{
    let stack = status.stack;
    let opening = status.opening;
    if stack.depth == 0 {
        if opening.there {
            return stored_lines::counted(
                stay(Way::Refused(Refusal::OpenMacro.number()), status),
                stored,
            );
        }
        let outcome = work_end(
            status,
            &*cells,
            row,
            arena,
            ends,
            &*text_firsts,
            &*text_seconds,
        );
        return stored_lines::counted(moved(outcome, status), stored);
    }
    let entry = input_stack::stack::top(stack, &*ends);
    let what = entry.what;
    match what {
        What::Reading(name, place, count) => stored_text::read_text(
            name,
            place,
            count,
            stored,
            printer,
            status,
            cells,
            row,
            arena,
            ends,
            store,
            text_firsts,
            text_seconds,
            kinds,
            lengths,
            firsts,
            seconds,
            values,
            steps,
        ),
        _ => held_items::take_item(
            what,
            stored,
            printer,
            status,
            cells,
            row,
            arena,
            ends,
            store,
            text_firsts,
            text_seconds,
            kinds,
            lengths,
            firsts,
            seconds,
            values,
            steps,
        ),
    }
}
