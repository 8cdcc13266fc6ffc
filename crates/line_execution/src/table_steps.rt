// The requests that change a table, on the whole state.
ghost use Rattle.std.specs.Prelude.{◌≡◌, false};
ghost use Rattle.rules.specs.Acts as rule;
ghost use Rattle.rules.specs.Acts.{settles};
ghost use Rattle.rules.specs.Results.{refusal_number};
ghost use Rattle.settings.specs.Layout.Layouts.{printer_of};
ghost use Rattle.state.specs.Whole.{WholeState, StateRefines};
ghost use Rattle.page.specs.declared.springs.Way.TheVariants.{Refused};
ghost use Rattle.state.specs.Steps.{stayed};
ghost use Rattle.state.specs.Statuses.{whole_of, StateReady};
ghost use Rattle.texts.specs.Table.Lent.{counted};
ghost use Rattle.requests.specs.Definitions.Lent.{count_done};
ghost use Rattle.line_execution.specs.TableSteps.Steps.{assigned_to, planted_to, changed_by, changed_to, opened_to};

use page::springs::Way;
use registers::columns::Registers;
use rules::arrays::{
    ByteColumn, LINE_SIZE, LengthColumn, LineBytes, NumberColumn, RowBytes, StackBytes, StackEnds,
};
use rules::{Refusal, TableChange};
use settings::layout::Printer;
use state::{Opened, Status, WorkOutcome, stay, with_planted, with_registers, with_texts};
use texts::columns::Texts;
use traps::table::Planted;

// A change that is refused closes the session.
fn refused(refusal: Refusal, status: Status) -> WorkOutcome
    ensures { result ≡ stayed (Refused (refusal_number refusal)) status }
{
    stay(Way::Refused(refusal.number()), status)
}

// After nr, with so many registers. This and the three below stay apart: each sets another part of the status, and a closure at each call is no plainer.
fn assigned(answer: Result<(), Refusal>, registers: usize, status: Status) -> WorkOutcome
    ensures { result ≡ assigned_to (counted answer registers) status }
{
    match answer {
        Ok(()) => stay(Way::On, with_registers(status, registers)),
        Err(refusal) => refused(refusal, status),
    }
}

// After wh.
fn trapped(answer: Result<Planted, Refusal>, status: Status) -> WorkOutcome
    ensures { result ≡ planted_to answer status }
{
    match answer {
        Ok(planted) => stay(Way::On, with_planted(status, planted)),
        Err(refusal) => refused(refusal, status),
    }
}

// After de.
fn opened(answer: Result<Option<Opened>, Refusal>, status: Status) -> WorkOutcome
    ensures { result ≡ opened_to answer status }
{
    match answer {
        Ok(Some(new)) => stay(Way::On, with_texts(status, new.texts, new.opening)),
        Ok(None) => stay(Way::On, status),
        Err(refusal) => refused(refusal, status),
    }
}

// After ds and rm, with so many texts, or the number of the refusal that they earned.
pub fn changed(answer: Result<bool, u8>, texts: usize, status: Status) -> WorkOutcome
    ensures { result ≡ changed_by answer texts status }
{
    match answer {
        Ok(true) => stay(Way::On, with_texts(status, texts, status.opening)),
        Ok(false) => stay(Way::On, status),
        Err(number) => stay(Way::Refused(number), status),
    }
}

// The same for the answer that a change of the texts gives.
pub fn texts_changed(answer: Result<bool, Refusal>, texts: usize, status: Status) -> WorkOutcome
    ensures { result ≡ changed_to (count_done answer texts) status }
{
    match answer {
        Ok(done) => changed(Ok(done), texts, status),
        Err(refusal) => changed(Err(refusal.number()), texts, status),
    }
}

// A request that changes a table; `line` is what follows its name.
pub fn change(
    request: TableChange,
    line: &[u8],
    printer: Printer,
    status: Status,
    cells: &LineBytes,
    row: &RowBytes,
    arena: &StackBytes,
    ends: &StackEnds,
    store: &mut [u8],
    text_firsts: &mut ByteColumn,
    text_seconds: &mut ByteColumn,
    kinds: &mut ByteColumn,
    lengths: &mut LengthColumn,
    firsts: &mut ByteColumn,
    seconds: &mut ByteColumn,
    values: &mut NumberColumn,
    steps: &mut NumberColumn,
) -> WorkOutcome
    requires { let q : WholeState = whole_of status cells.now arena.now ends.now store.old text_firsts.old text_seconds.old kinds.old lengths.old firsts.old seconds.old values.old steps.old in StateReady q line.now row.now printer × (status.opening.there ≡ false) }
    ensures { let q : WholeState = whole_of status cells.now arena.now ends.now store.old text_firsts.old text_seconds.old kinds.old lengths.old firsts.old seconds.old values.old steps.old in StateRefines (λ s. settles (rule.change (printer_of printer) request line.now s) s) q result.way result.written (whole_of result.status cells.now arena.now ends.now store.new text_firsts.new text_seconds.new kinds.new lengths.new firsts.new seconds.new values.new steps.new) row.now }
{
    let mut parts = [0u8; LINE_SIZE];
    match request {
        TableChange::Nr => {
            let mut registers = Registers {
                firsts,
                seconds,
                values,
                steps,
                count: status.registers,
            };
            let answer = super::table_requests::assign(line, &mut parts, printer, &mut registers);
            assigned(answer, registers.count, status)
        }
        TableChange::Wh => {
            let answer = super::table_requests::plant(line, &mut parts, printer, status.planted);
            trapped(answer, status)
        }
        TableChange::Rm => {
            let mut texts = Texts {
                store,
                firsts: text_firsts,
                seconds: text_seconds,
                kinds,
                lengths,
                count: status.texts,
            };
            let answer = super::table_requests::remove(
                line,
                &mut parts,
                printer,
                status.stack,
                ends,
                &mut texts,
            );
            texts_changed(answer, texts.count, status)
        }
        TableChange::De => {
            let mut texts = Texts {
                store,
                firsts: text_firsts,
                seconds: text_seconds,
                kinds,
                lengths,
                count: status.texts,
            };
            let answer = super::table_requests::open(
                line,
                &mut parts,
                printer,
                status.stack,
                ends,
                &mut texts,
            );
            opened(answer, status)
        }
    }
}
