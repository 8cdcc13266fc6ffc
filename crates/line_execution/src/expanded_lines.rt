// What is left to do with a line, once it is expanded.
ghost use Rattle.std.specs.Prelude.{◌≡◌, false, length};
ghost use Rattle.texts.specs.Table.Table.{TextsInvariant};
ghost use Rattle.texts.specs.Table.Changes.{Opens, ClosedTo};
ghost use Rattle.settings.specs.Layout.Layouts.{printer_of};
ghost use Rattle.state.specs.Whole.{WholeState, texts_in, StateRefines};
ghost use Rattle.state.specs.Statuses.{whole_of, StateReady};
ghost use Rattle.line_expansion.specs.Dealing.{dealt_of, DealtInvariant};
ghost use Rattle.line_execution.specs.ExpandedLines.Steps.{closed_to, kept_to, LineKept};

use line_expansion::Dealt;
use page::springs::Way;
use rules::arrays::{
    ByteColumn, LengthColumn, LineBytes, NumberColumn, RowBytes, StackBytes, StackEnds,
};
use rules::{Name, Refusal};
use settings::layout::Printer;
use state::{Opening, Status, WorkOutcome};

// A definition is closed: so many texts, and none open.
fn closed(texts: usize, status: Status) -> WorkOutcome
    ensures { result ≡ closed_to texts status }
{
    let opening = Opening {
        there: false,
        name: Name {
            first: 0,
            second: 0,
        },
        length: 0,
    };
    state::stay(Way::On, state::with_texts(status, texts, opening))
}

// A body line is kept, or "11: .. live text past 8,192 bytes".
fn kept(answer: Result<usize, Refusal>, status: Status) -> WorkOutcome
    ensures { result ≡ kept_to answer status }
{
    match answer {
        Ok(length) => {
            let opening = Opening {
                there: true,
                name: status.opening.name,
                length,
            };
            state::stay(Way::On, state::with_texts(status, status.texts, opening))
        }
        Err(refusal) => state::stay(Way::Refused(refusal.number()), status),
    }
}

// The open definition becomes a text.
fn close(
    status: Status,
    store: &[u8],
    text_firsts: &mut ByteColumn,
    text_seconds: &mut ByteColumn,
    kinds: &mut ByteColumn,
    lengths: &mut LengthColumn,
) -> WorkOutcome
    requires { TextsInvariant store.now text_firsts.old text_seconds.old kinds.old lengths.old status.texts × Opens store.now lengths.old status.texts status.opening.length }
    ensures { (result ≡ closed_to result.status.texts status) × ClosedTo store.now text_firsts.old text_seconds.old kinds.old lengths.old status.texts status.opening.length status.opening.name result.status.texts text_firsts.new text_seconds.new kinds.new lengths.new }
{
    let texts = texts::definitions::close_macro(
        store,
        text_firsts,
        text_seconds,
        kinds,
        lengths,
        status.texts,
        status.opening.length,
        status.opening.name,
    );
    closed(texts, status)
}

// A line goes to the end of the open definition.
fn keep(line: &[u8], status: Status, store: &mut [u8], lengths: &LengthColumn) -> WorkOutcome
    requires { Opens store.old lengths.now status.texts status.opening.length }
    ensures { LineKept status store.old lengths.now line.now result store.new }
{
    let answer = texts::definitions::keep_line(
        store,
        lengths,
        status.texts,
        status.opening.length,
        line,
    );
    kept(answer, status)
}

// What is left to do with a line, once it is expanded, or the number of the refusal that it earned.
pub fn finish(
    dealt: Result<Dealt, u8>,
    out: &LineBytes,
    printer: Printer,
    status: Status,
    cells: &mut LineBytes,
    row: &mut RowBytes,
    arena: &mut StackBytes,
    ends: &mut StackEnds,
    store: &mut [u8],
    text_firsts: &mut ByteColumn,
    text_seconds: &mut ByteColumn,
    kinds: &mut ByteColumn,
    lengths: &mut LengthColumn,
    firsts: &mut ByteColumn,
    seconds: &mut ByteColumn,
    values: &mut NumberColumn,
    steps: &mut NumberColumn,
) -> WorkOutcome
    requires { let q : WholeState = whole_of status cells.old arena.old ends.old store.old text_firsts.old text_seconds.old kinds.old lengths.old firsts.old seconds.old values.old steps.old in StateReady q out.now row.old printer × (length out.now ≡ 512) × DealtInvariant status.opening.there (texts_in q.texts) dealt }
    ensures { let q : WholeState = whole_of status cells.old arena.old ends.old store.old text_firsts.old text_seconds.old kinds.old lengths.old firsts.old seconds.old values.old steps.old in StateRefines (dealt_of (printer_of printer) dealt out.now) q result.way result.written (whole_of result.status cells.new arena.new ends.new store.new text_firsts.new text_seconds.new kinds.new lengths.new firsts.new seconds.new values.new steps.new) row.new }
{
    let dealt = match dealt {
        Ok(dealt) => dealt,
        Err(number) => return state::stay(Way::Refused(number), status),
    };
    match dealt {
        Dealt::Closes => close(status, &*store, text_firsts, text_seconds, kinds, lengths),
        Dealt::Keeps(n) => keep(&out[..n], status, store, &*lengths),
        Dealt::Words(n) => {
            let outcome = composition::text_lines::text_line(
                out,
                n,
                status.layout,
                status.page,
                status.collected,
                status.planted,
                cells,
                row,
                status.stack,
                arena,
                ends,
                &*text_firsts,
                &*text_seconds,
                status.texts,
            );
            state::moved(outcome, status)
        }
        Dealt::Control(period, name, meaning, n) => super::control_lines::obey(
            Some(meaning),
            false,
            period,
            name,
            &out[..n],
            printer,
            status,
            &*cells,
            row,
            arena,
            ends,
            store,
            text_firsts,
            text_seconds,
            kinds,
            lengths,
            firsts,
            seconds,
            values,
            steps,
        ),
        Dealt::Nothing => state::stay(Way::On, status),
    }
}
