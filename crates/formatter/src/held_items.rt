// Work that waits on the stack is taken up.
ghost use Rattle.std.specs.Prelude.{true, take, ◌≡◌};
ghost use Rattle.settings.specs.Layout.Layouts.{printer_of};
ghost use Rattle.state.specs.Whole.{WholeState, StateRefines};
ghost use Rattle.state.specs.Statuses.{whole_of, StateReady};
ghost use Rattle.formatter.specs.StoredLines.Works.{resumed, ItemReady, TakenReady, StepRefines};

use super::stored_lines::Performed;
use input_stack::frames::What;
use page::springs::Way;
use rules::arrays::{
    ByteColumn, LINE_SIZE, LengthColumn, LineBytes, NumberColumn, RowBytes, StackBytes, StackEnds,
};
use settings::layout::Printer;
use state::{Status, WorkOutcome, moved, stay};
use texts::columns::TextsRef;

// An item that is no text, taken off the stack: an expanded line, words, a request after its break, or a bp.
fn resume(
    what: What,
    line: &LineBytes,
    size: usize,
    printer: Printer,
    status: Status,
    cells: &mut LineBytes,
    row: &mut RowBytes,
    arena: &mut StackBytes,
    ends: &mut StackEnds,
    store: &mut [u8],
    text_firsts: &mut ByteColumn,
    text_seconds: &mut ByteColumn,
    kinds: &mut ByteColumn,
    lengths: &mut LengthColumn,
    firsts: &mut ByteColumn,
    seconds: &mut ByteColumn,
    values: &mut NumberColumn,
    steps: &mut NumberColumn,
) -> WorkOutcome
    requires { let q : WholeState = whole_of status cells.old arena.old ends.old store.old text_firsts.old text_seconds.old kinds.old lengths.old firsts.old seconds.old values.old steps.old in StateReady q line.now row.old printer × ItemReady what line.now size status.opening.there }
    ensures { let q : WholeState = whole_of status cells.old arena.old ends.old store.old text_firsts.old text_seconds.old kinds.old lengths.old firsts.old seconds.old values.old steps.old in StateRefines (resumed (printer_of printer) what (take size line.now)) q result.way result.written (whole_of result.status cells.new arena.new ends.new store.new text_firsts.new text_seconds.new kinds.new lengths.new firsts.new seconds.new values.new steps.new) row.new }
{
    let layout = status.layout;
    let page = status.page;
    let collected = status.collected;
    let planted = status.planted;
    let stack = status.stack;
    match what {
        What::Text => {
            let outcome = composition::text_lines::text_line(
                line,
                size,
                layout,
                page,
                collected,
                planted,
                cells,
                row,
                stack,
                arena,
                ends,
                &*text_firsts,
                &*text_seconds,
                status.texts,
            );
            moved(outcome, status)
        }
        What::Control(period, name) => {
            let texts = TextsRef {
                store: &*store,
                firsts: &*text_firsts,
                seconds: &*text_seconds,
                kinds: &*kinds,
                lengths: &*lengths,
                count: status.texts,
            };
            let meaning = line_syntax::lines::meaning_of(&texts, name);
            let rest = &line[..size];
            line_execution::control_lines::obey(
                meaning,
                true,
                period,
                name,
                rest,
                printer,
                status,
                &*cells,
                row,
                arena,
                ends,
                store,
                text_firsts,
                text_seconds,
                kinds,
                lengths,
                firsts,
                seconds,
                values,
                steps,
            )
        }
        What::Reading(_, _, _) | What::Ignored => stay(Way::On, status),
        What::Others(gap) => {
            let behind = measure::cells_across(u16::from(gap));
            let outcome = composition::filling::fill_rest(
                behind,
                line,
                size,
                layout,
                page,
                collected,
                planted,
                cells,
                row,
                stack,
                arena,
                ends,
                &*text_firsts,
                &*text_seconds,
                status.texts,
            );
            moved(outcome, status)
        }
        What::Acts(request) => {
            let mut parts = [0u8; LINE_SIZE];
            let rest = &line[..size];
            let outcome = composition::break_requests::act(
                request,
                rest,
                &mut parts,
                printer,
                layout,
                page,
                collected,
                planted,
                &*cells,
                row,
                stack,
                arena,
                ends,
                &*text_firsts,
                &*text_seconds,
                status.texts,
            );
            moved(outcome, status)
        }
        What::Ejects(from) => {
            let outcome = composition::eject::eject(
                from,
                layout,
                page,
                collected,
                planted,
                &*cells,
                row,
                stack,
                arena,
                ends,
                &*text_firsts,
                &*text_seconds,
                status.texts,
            );
            moved(outcome, status)
        }
    }
}

// An item that is no text leaves the stack, and is dealt with.
pub fn take_item(
    what: What,
    stored: u16,
    printer: Printer,
    status: Status,
    cells: &mut LineBytes,
    row: &mut RowBytes,
    arena: &mut StackBytes,
    ends: &mut StackEnds,
    store: &mut [u8],
    text_firsts: &mut ByteColumn,
    text_seconds: &mut ByteColumn,
    kinds: &mut ByteColumn,
    lengths: &mut LengthColumn,
    firsts: &mut ByteColumn,
    seconds: &mut ByteColumn,
    values: &mut NumberColumn,
    steps: &mut NumberColumn,
) -> Performed
    requires { let q : WholeState = whole_of status cells.old arena.old ends.old store.old text_firsts.old text_seconds.old kinds.old lengths.old firsts.old seconds.old values.old steps.old in TakenReady q stored row.old printer what }
    ensures { let q : WholeState = whole_of status cells.old arena.old ends.old store.old text_firsts.old text_seconds.old kinds.old lengths.old firsts.old seconds.old values.old steps.old in StepRefines (printer_of printer) q stored result.way result.written (whole_of result.status cells.new arena.new ends.new store.new text_firsts.new text_seconds.new kinds.new lengths.new firsts.new seconds.new values.new steps.new) result.stored row.new }
{
    let stack = status.stack;
    let mut line = [0u8; LINE_SIZE];
    let size = input_stack::stack::load(stack, &*arena, &*ends, &mut line);
    let after = state::with_stack(status, input_stack::stack::pop(stack));
    let step = resume(
        what,
        &line,
        size,
        printer,
        after,
        cells,
        row,
        arena,
        ends,
        store,
        text_firsts,
        text_seconds,
        kinds,
        lengths,
        firsts,
        seconds,
        values,
        steps,
    );
    super::stored_lines::counted(step, stored)
}
