// A piece of work as a turn of a call.
ghost use Rattle.std.specs.Prelude.{None, ◌≡◌, length};
ghost use Rattle.rules.specs.Printers.{ten_to_the_inch};
ghost use Rattle.rules.specs.Session.{step};
ghost use Rattle.state.specs.Whole.{WholeState, state_in};
ghost use Rattle.state.specs.Statuses.{whole_of};
ghost use Rattle.record.specs.View.{sourced};
ghost use Rattle.record.specs.Turns.{record_of, core_in, Whichever, RecordRefines, WorkReady};

use record::TurnOutcome;
use rules::arrays::{
    ByteColumn, LengthColumn, LineBytes, NumberColumn, RowBytes, StackBytes, StackEnds,
};
use source_line::Source;
use state::Status;

// One piece of work: the item on top of the input stack, or the end.
pub fn work(
    taken: usize,
    status: Status,
    source: Source,
    cells: &mut LineBytes,
    row: &mut RowBytes,
    arena: &mut StackBytes,
    ends: &mut StackEnds,
    store: &mut [u8],
    text_firsts: &mut ByteColumn,
    text_seconds: &mut ByteColumn,
    kinds: &mut ByteColumn,
    lengths: &mut LengthColumn,
    firsts: &mut ByteColumn,
    seconds: &mut ByteColumn,
    values: &mut NumberColumn,
    steps: &mut NumberColumn,
) -> TurnOutcome
    requires { let q : WholeState = whole_of status cells.old arena.old ends.old store.old text_firsts.old text_seconds.old kinds.old lengths.old firsts.old seconds.old values.old steps.old in WorkReady status source q row.old }
    ensures { let q : WholeState = whole_of status cells.old arena.old ends.old store.old text_firsts.old text_seconds.old kinds.old lengths.old firsts.old seconds.old values.old steps.old in (Whichever (λ g. RecordRefines (step ten_to_the_inch (state_in q (sourced source g))) store.old (record_of (core_in result) g cells.new row.new arena.new ends.new text_firsts.new text_seconds.new kinds.new lengths.new firsts.new seconds.new values.new steps.new) store.new)) × (result.stop ≡ None) × (result.taken ≡ taken) }
{
    let worked = formatter::work(
        source.stored,
        settings::layout::ten_to_the_inch(),
        status,
        cells,
        row,
        arena,
        ends,
        store,
        text_firsts,
        text_seconds,
        kinds,
        lengths,
        firsts,
        seconds,
        values,
        steps,
    );
    let after = Source {
        stored: worked.stored,
        ..source
    };
    record::turn_after(worked.status, after, worked.way, worked.written, taken)
}
