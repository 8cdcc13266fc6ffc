// The line of a text that is read is dealt with.
ghost use Rattle.std.specs.Prelude.{[], ◌+◌, ◌<◌, ◌≡◌};
ghost use Rattle.rules.specs.ControlLines as rules;
ghost use Rattle.scan.specs.Arguments.Around.{arguments_of, Arguments};
ghost use Rattle.texts.specs.Lines.Lines.{next_line, TopInside};
ghost use Rattle.settings.specs.Layout.Layouts.{printer_of};
ghost use Rattle.input_stack.specs.Stack.Frames.{top_bytes, top_ends, Topped};
ghost use Rattle.state.specs.Whole.{WholeState, StateRefines};
ghost use Rattle.state.specs.Statuses.{whole_of, StateReady};
ghost use Rattle.formatter.specs.StoredLines.Works.{TextReady, StepRefines};

use super::stored_lines::Performed;
use page::springs::Way;
use registers::columns::RegisterValues;
use rules::arrays::{
    ARGUMENT_COUNT, ByteColumn, LINE_SIZE, LengthColumn, LineBytes, NumberColumn, RowBytes,
    StackBytes, StackEnds,
};
use rules::{Name, Refusal};
use settings::layout::Printer;
use state::{Status, WorkOutcome, stay};
use texts::columns::TextsRef;
use texts::lines::Top;

// A line of the text on top of the stack, with the arguments of its call.
fn deal_stored(
    top: Top,
    count: u8,
    printer: Printer,
    status: Status,
    cells: &mut LineBytes,
    row: &mut RowBytes,
    arena: &mut StackBytes,
    ends: &mut StackEnds,
    store: &mut [u8],
    text_firsts: &mut ByteColumn,
    text_seconds: &mut ByteColumn,
    kinds: &mut ByteColumn,
    lengths: &mut LengthColumn,
    firsts: &mut ByteColumn,
    seconds: &mut ByteColumn,
    values: &mut NumberColumn,
    steps: &mut NumberColumn,
) -> WorkOutcome
    requires { let q : WholeState = whole_of status cells.old arena.old ends.old store.old text_firsts.old text_seconds.old kinds.old lengths.old firsts.old seconds.old values.old steps.old in StateReady q [] row.old printer × TopInside [] store.old top × Topped status.stack ends.old × Arguments (top_bytes status.stack arena.old ends.old) (top_ends status.stack ends.old) count }
    ensures { let q : WholeState = whole_of status cells.old arena.old ends.old store.old text_firsts.old text_seconds.old kinds.old lengths.old firsts.old seconds.old values.old steps.old in StateRefines (λ s. rules.deal (printer_of printer) (arguments_of (top_bytes status.stack arena.old ends.old) (top_ends status.stack ends.old) count) (next_line [] store.old top) s) q result.way result.written (whole_of result.status cells.new arena.new ends.new store.new text_firsts.new text_seconds.new kinds.new lengths.new firsts.new seconds.new values.new steps.new) row.new }
{
    let layout = status.layout;
    let page = status.page;
    let opening = status.opening;
    let stack = status.stack;
    let mut given = [0u16; ARGUMENT_COUNT];
    input_stack::stack::load_ends(stack, &*ends, &mut given);
    let mut out = [0u8; LINE_SIZE];
    let arguments = input_stack::stack::top_bytes(stack, &*arena, &*ends);
    let texts = TextsRef {
        store: &*store,
        firsts: &*text_firsts,
        seconds: &*text_seconds,
        kinds: &*kinds,
        lengths: &*lengths,
        count: status.texts,
    };
    let mut registers = RegisterValues {
        firsts: &*firsts,
        seconds: &*seconds,
        values: &mut *values,
        steps: &*steps,
        count: status.registers,
    };
    let dealt = line_expansion::read(
        b"",
        top,
        opening.there,
        printer,
        layout,
        page,
        &texts,
        &mut registers,
        arguments,
        &given,
        usize::from(count),
        &mut out,
    );
    line_execution::expanded_lines::finish(
        super::numbered(dealt),
        &out,
        printer,
        status,
        cells,
        row,
        arena,
        ends,
        store,
        text_firsts,
        text_seconds,
        kinds,
        lengths,
        firsts,
        seconds,
        values,
        steps,
    )
}

// A text on top of the stack: its next line is dealt with, or it leaves the stack.
pub fn read_text(
    name: Name,
    place: u16,
    count: u8,
    stored: u16,
    printer: Printer,
    status: Status,
    cells: &mut LineBytes,
    row: &mut RowBytes,
    arena: &mut StackBytes,
    ends: &mut StackEnds,
    store: &mut [u8],
    text_firsts: &mut ByteColumn,
    text_seconds: &mut ByteColumn,
    kinds: &mut ByteColumn,
    lengths: &mut LengthColumn,
    firsts: &mut ByteColumn,
    seconds: &mut ByteColumn,
    values: &mut NumberColumn,
    steps: &mut NumberColumn,
) -> Performed
    requires { let q : WholeState = whole_of status cells.old arena.old ends.old store.old text_firsts.old text_seconds.old kinds.old lengths.old firsts.old seconds.old values.old steps.old in TextReady q stored row.old printer name place count }
    ensures { let q : WholeState = whole_of status cells.old arena.old ends.old store.old text_firsts.old text_seconds.old kinds.old lengths.old firsts.old seconds.old values.old steps.old in StepRefines (printer_of printer) q stored result.way result.written (whole_of result.status cells.new arena.new ends.new store.new text_firsts.new text_seconds.new kinds.new lengths.new firsts.new seconds.new values.new steps.new) result.stored row.new }
{
    let stack = status.stack;
    let texts = TextsRef {
        store: &*store,
        firsts: &*text_firsts,
        seconds: &*text_seconds,
        kinds: &*kinds,
        lengths: &*lengths,
        count: status.texts,
    };
    let found = texts::table::look_up(&texts, name);
    match super::stored_lines::unread_line(&*store, found, place) {
        Some((top, next)) => {
            input_stack::stack::set_place(stack, &mut *ends, next);
            if stored < 10000 {
                let step = deal_stored(
                    top,
                    count,
                    printer,
                    status,
                    cells,
                    row,
                    arena,
                    ends,
                    store,
                    text_firsts,
                    text_seconds,
                    kinds,
                    lengths,
                    firsts,
                    seconds,
                    values,
                    steps,
                );
                return super::stored_lines::counted(step, stored + 1);
            }
            super::stored_lines::counted(
                stay(Way::Refused(Refusal::DeepStack.number()), status),
                stored,
            )
        }
        None => super::stored_lines::counted(
            super::stored_lines::leave(state::with_stack(status, input_stack::stack::pop(stack))),
            stored,
        ),
    }
}
