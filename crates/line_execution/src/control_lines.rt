// What a control line does: a text called, a request, or nothing.
ghost use Rattle.std.specs.Prelude.{◌≡◌, false};
ghost use Rattle.rules.specs.ControlLines as rules;
ghost use Rattle.rules.specs.ControlLines.{means_request, meaning_of};
ghost use Rattle.settings.specs.Layout.Layouts.{printer_of};
ghost use Rattle.line_syntax.specs.Lines.Meanings.{MeaningIs};
ghost use Rattle.state.specs.Whole.{WholeState, texts_in, StateRefines};
ghost use Rattle.state.specs.Statuses.{whole_of, StateReady};

use line_syntax::lines::Meaning;
use page::springs::Way;
use rules::arrays::{
    ByteColumn, LINE_SIZE, LengthColumn, LineBytes, NumberColumn, RowBytes, StackBytes, StackEnds,
};
use rules::{Name, Request};
use settings::layout::Printer;
use state::{Status, WorkOutcome};
use texts::columns::Texts;

// A request, whose line is expanded behind its name.
fn request(
    request: Request,
    after_if: bool,
    period: bool,
    name: Name,
    line: &[u8],
    printer: Printer,
    status: Status,
    cells: &LineBytes,
    row: &mut RowBytes,
    arena: &mut StackBytes,
    ends: &mut StackEnds,
    store: &mut [u8],
    text_firsts: &mut ByteColumn,
    text_seconds: &mut ByteColumn,
    kinds: &mut ByteColumn,
    lengths: &mut LengthColumn,
    firsts: &mut ByteColumn,
    seconds: &mut ByteColumn,
    values: &mut NumberColumn,
    steps: &mut NumberColumn,
) -> WorkOutcome
    requires { let q : WholeState = whole_of status cells.now arena.old ends.old store.old text_firsts.old text_seconds.old kinds.old lengths.old firsts.old seconds.old values.old steps.old in StateReady q line.now row.old printer × (status.opening.there ≡ false) }
    ensures { let q : WholeState = whole_of status cells.now arena.old ends.old store.old text_firsts.old text_seconds.old kinds.old lengths.old firsts.old seconds.old values.old steps.old in StateRefines (λ s. rules.obey (printer_of printer) (means_request request) after_if period name line.now s) q result.way result.written (whole_of result.status cells.now arena.new ends.new store.new text_firsts.new text_seconds.new kinds.new lengths.new firsts.new seconds.new values.new steps.new) row.new }
{
    let layout = status.layout;
    let page = status.page;
    let collected = status.collected;
    let planted = status.planted;
    let stack = status.stack;
    let mut parts = [0u8; LINE_SIZE];
    match request {
        Request::Breaks(breaking) => {
            let outcome = composition::break_requests::obey(
                period,
                breaking,
                name,
                line,
                &mut parts,
                printer,
                layout,
                page,
                collected,
                planted,
                cells,
                row,
                stack,
                arena,
                ends,
                &*text_firsts,
                &*text_seconds,
                status.texts,
            );
            state::moved(outcome, status)
        }
        Request::Lays(setting) => {
            let new = composition::no_break_requests::set_page(
                setting, line, &mut parts, page.used, layout, printer,
            );
            let outcome = composition::page_rows::settle(new, layout, page, collected, stack);
            state::moved(outcome, status)
        }
        Request::Changes(change) => super::table_steps::change(
            change,
            line,
            printer,
            status,
            cells,
            &*row,
            &*arena,
            &*ends,
            store,
            text_firsts,
            text_seconds,
            kinds,
            lengths,
            firsts,
            seconds,
            values,
            steps,
        ),
        Request::Ds => {
            let mut texts = Texts {
                store,
                firsts: text_firsts,
                seconds: text_seconds,
                kinds,
                lengths,
                count: status.texts,
            };
            let answer = requests::definitions::define(
                line, after_if, stack, &*ends, &mut texts, &mut parts,
            );
            super::table_steps::texts_changed(answer, texts.count, status)
        }
        Request::If => {
            let outcome = composition::no_break_requests::decide(
                line,
                printer,
                layout,
                page,
                collected,
                planted,
                cells,
                &*row,
                stack,
                arena,
                ends,
                &*text_firsts,
                &*text_seconds,
                status.texts,
            );
            state::moved(outcome, status)
        }
    }
}

// A control line that is expanded behind its name: it calls a text, or is a request.
pub fn obey(
    meaning: Option<Meaning>,
    after_if: bool,
    period: bool,
    name: Name,
    line: &[u8],
    printer: Printer,
    status: Status,
    cells: &LineBytes,
    row: &mut RowBytes,
    arena: &mut StackBytes,
    ends: &mut StackEnds,
    store: &mut [u8],
    text_firsts: &mut ByteColumn,
    text_seconds: &mut ByteColumn,
    kinds: &mut ByteColumn,
    lengths: &mut LengthColumn,
    firsts: &mut ByteColumn,
    seconds: &mut ByteColumn,
    values: &mut NumberColumn,
    steps: &mut NumberColumn,
) -> WorkOutcome
    requires { let q : WholeState = whole_of status cells.now arena.old ends.old store.old text_firsts.old text_seconds.old kinds.old lengths.old firsts.old seconds.old values.old steps.old in StateReady q line.now row.old printer × (status.opening.there ≡ false) × MeaningIs (texts_in q.texts) name meaning }
    ensures { let q : WholeState = whole_of status cells.now arena.old ends.old store.old text_firsts.old text_seconds.old kinds.old lengths.old firsts.old seconds.old values.old steps.old in StateRefines (λ s. rules.obey (printer_of printer) (meaning_of name s) after_if period name line.now s) q result.way result.written (whole_of result.status cells.now arena.new ends.new store.new text_firsts.new text_seconds.new kinds.new lengths.new firsts.new seconds.new values.new steps.new) row.new }
{
    let layout = status.layout;
    let page = status.page;
    let collected = status.collected;
    let planted = status.planted;
    let stack = status.stack;
    let Some(meaning) = meaning else {
        return state::stay(Way::On, status);
    };
    match meaning {
        Meaning::Calls(_) => {
            let mut parts = [0u8; LINE_SIZE];
            let outcome = composition::text_calls::call(
                name,
                line,
                &mut parts,
                layout,
                page,
                collected,
                planted,
                cells,
                &*row,
                stack,
                arena,
                ends,
                &*text_firsts,
                &*text_seconds,
                status.texts,
            );
            state::moved(outcome, status)
        }
        Meaning::Requests(known) => request(
            known,
            after_if,
            period,
            name,
            line,
            printer,
            status,
            cells,
            row,
            arena,
            ends,
            store,
            text_firsts,
            text_seconds,
            kinds,
            lengths,
            firsts,
            seconds,
            values,
            steps,
        ),
    }
}
