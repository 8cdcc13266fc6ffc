// A line of the source is gathered and dealt with.
ghost use Rattle.std.specs.Prelude.{None, ◌≡◌, ◌<◌, length};
ghost use Rattle.rules.specs.Session.{step, read_end};
ghost use Rattle.state.specs.Statuses.{whole_of};
ghost use Rattle.record.specs.View.{state_of};
ghost use Rattle.record.specs.Turns.{record_of, resting, core_in, Whichever, DealReady, LineRefines, InputReady, Arrives, InputRefines};
ghost use Rattle.record.specs.declared.Record.{Record};
ghost use Rattle.state.specs.Whole.{WholeState};

use page::springs::Way;
use record::TurnOutcome;
use rules::arrays::{
    ByteColumn, LengthColumn, LineBytes, NumberColumn, RowBytes, StackBytes, StackEnds,
};
use source_line::{Source, Why};
use state::Status;

// A source line is dealt with. By a call of its own each line would copy the status twice more.
#[inline(always)]
fn deal_line(
    line: &[u8],
    taken: usize,
    status: Status,
    source: Source,
    cells: &mut LineBytes,
    row: &mut RowBytes,
    arena: &mut StackBytes,
    ends: &mut StackEnds,
    store: &mut [u8],
    text_firsts: &mut ByteColumn,
    text_seconds: &mut ByteColumn,
    kinds: &mut ByteColumn,
    lengths: &mut LengthColumn,
    firsts: &mut ByteColumn,
    seconds: &mut ByteColumn,
    values: &mut NumberColumn,
    steps: &mut NumberColumn,
) -> TurnOutcome
    requires { let q : WholeState = whole_of status cells.old arena.old ends.old store.old text_firsts.old text_seconds.old kinds.old lengths.old firsts.old seconds.old values.old steps.old in DealReady q source line.now row.old }
    ensures { let q : WholeState = whole_of status cells.old arena.old ends.old store.old text_firsts.old text_seconds.old kinds.old lengths.old firsts.old seconds.old values.old steps.old in (Whichever (λ g. LineRefines line.now q source g (record_of (core_in result) g cells.new row.new arena.new ends.new text_firsts.new text_seconds.new kinds.new lengths.new firsts.new seconds.new values.new steps.new) store.new)) × (result.stop ≡ None) × (result.taken ≡ taken) }
{
    let step = formatter::deal(
        line,
        settings::layout::ten_to_the_inch(),
        status,
        cells,
        row,
        arena,
        ends,
        store,
        text_firsts,
        text_seconds,
        kinds,
        lengths,
        firsts,
        seconds,
        values,
        steps,
    );
    record::turn_after(step.status, source, step.way, step.written, taken)
}

// The end is read, with the line it closes.
pub fn read_end(
    taken: usize,
    status: Status,
    source: Source,
    gathered: &LineBytes,
    cells: &mut LineBytes,
    row: &mut RowBytes,
    arena: &mut StackBytes,
    ends: &mut StackEnds,
    store: &mut [u8],
    text_firsts: &mut ByteColumn,
    text_seconds: &mut ByteColumn,
    kinds: &mut ByteColumn,
    lengths: &mut LengthColumn,
    firsts: &mut ByteColumn,
    seconds: &mut ByteColumn,
    values: &mut NumberColumn,
    steps: &mut NumberColumn,
) -> TurnOutcome
    requires { let q : Record = record_of (resting status source) gathered.now cells.old row.old arena.old ends.old text_firsts.old text_seconds.old kinds.old lengths.old firsts.old seconds.old values.old steps.old in InputReady q store.old }
    ensures { let q : Record = record_of (resting status source) gathered.now cells.old row.old arena.old ends.old text_firsts.old text_seconds.old kinds.old lengths.old firsts.old seconds.old values.old steps.old in (Arrives (read_end (state_of q store.old)) store.old (record_of (core_in result) gathered.now cells.new row.new arena.new ends.new text_firsts.new text_seconds.new kinds.new lengths.new firsts.new seconds.new values.new steps.new) store.new) × (result.stop ≡ None) × (result.taken ≡ taken) }
{
    let after = record::emptied(source, true);
    if source.length == 0 {
        return record::turn_after(status, after, Way::On, 0, taken);
    }
    deal_line(
        fill::words::slice(gathered, 0, source.length),
        taken,
        status,
        after,
        cells,
        row,
        arena,
        ends,
        store,
        text_firsts,
        text_seconds,
        kinds,
        lengths,
        firsts,
        seconds,
        values,
        steps,
    )
}

// Bytes of the block are taken: a line up to its end, or as many as there are.
pub fn take_line(
    block: &[u8],
    taken: usize,
    status: Status,
    source: Source,
    gathered: &mut LineBytes,
    cells: &mut LineBytes,
    row: &mut RowBytes,
    arena: &mut StackBytes,
    ends: &mut StackEnds,
    store: &mut [u8],
    text_firsts: &mut ByteColumn,
    text_seconds: &mut ByteColumn,
    kinds: &mut ByteColumn,
    lengths: &mut LengthColumn,
    firsts: &mut ByteColumn,
    seconds: &mut ByteColumn,
    values: &mut NumberColumn,
    steps: &mut NumberColumn,
) -> TurnOutcome
    requires { let q : Record = record_of (resting status source) gathered.old cells.old row.old arena.old ends.old text_firsts.old text_seconds.old kinds.old lengths.old firsts.old seconds.old values.old steps.old in InputReady q store.old × (taken < length block.now) }
    ensures { let q : Record = record_of (resting status source) gathered.old cells.old row.old arena.old ends.old text_firsts.old text_seconds.old kinds.old lengths.old firsts.old seconds.old values.old steps.old in (InputRefines block.now q store.old taken (record_of (core_in result) gathered.new cells.new row.new arena.new ends.new text_firsts.new text_seconds.new kinds.new lengths.new firsts.new seconds.new values.new steps.new) store.new result.taken) × (result.stop ≡ None) }
{
    let got = source_line::gather(block, taken, gathered, source);
    let after = got.source;
    let to = taken + got.taken;
    match got.why {
        Why::More => record::turn_after(status, after, Way::On, 0, to),
        Why::Refused(refusal) => record::turn_after(
            status,
            after,
            Way::Refused(refusal.number()),
            0,
            to,
        ),
        Why::Ended => deal_line(
            fill::words::slice(gathered, 0, after.length),
            to,
            status,
            record::emptied(after, false),
            cells,
            row,
            arena,
            ends,
            store,
            text_firsts,
            text_seconds,
            kinds,
            lengths,
            firsts,
            seconds,
            values,
            steps,
        ),
    }
}
