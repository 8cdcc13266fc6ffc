#![tactic(auto)]

// The turns of a call: what waits is written, and then a piece of work is done, bytes are taken or the end is read.
pub mod item_work;
pub mod source_input;

ghost use Rattle.std.specs.Prelude.{◌<◌, ◌≡◌};
ghost use Rattle.record.specs.View.{ValidRecord};
ghost use Rattle.record.specs.Turns.{record_of, resting, core_of, core_in, TurnReady, TurnContract, RunContract, reply_from};
ghost use Rattle.record.specs.declared.Record.{Record};

use record::{Closing, Ran, RecordCore, TurnOutcome, Waiting};
use rules::arrays::{
    ByteColumn, LengthColumn, LineBytes, NumberColumn, RowBytes, StackBytes, StackEnds,
};
use source_line::Source;
use state::Status;
use stream::Answer;

// One turn of a call on an open session for which nothing waits: a piece of work; else bytes of the block; else the end, if this is marked last.
fn take_turn(
    block: &[u8],
    taken: usize,
    last: bool,
    status: Status,
    source: Source,
    gathered: &mut LineBytes,
    cells: &mut LineBytes,
    row: &mut RowBytes,
    arena: &mut StackBytes,
    ends: &mut StackEnds,
    store: &mut [u8],
    text_firsts: &mut ByteColumn,
    text_seconds: &mut ByteColumn,
    kinds: &mut ByteColumn,
    lengths: &mut LengthColumn,
    firsts: &mut ByteColumn,
    seconds: &mut ByteColumn,
    values: &mut NumberColumn,
    steps: &mut NumberColumn,
) -> TurnOutcome
    requires { let q : Record = record_of (resting status source) gathered.old cells.old row.old arena.old ends.old text_firsts.old text_seconds.old kinds.old lengths.old firsts.old seconds.old values.old steps.old in TurnReady block.now q store.old taken }
    ensures { let q : Record = record_of (resting status source) gathered.old cells.old row.old arena.old ends.old text_firsts.old text_seconds.old kinds.old lengths.old firsts.old seconds.old values.old steps.old in TurnContract result.stop block.now last q store.old taken (record_of (core_in result) gathered.new cells.new row.new arena.new ends.new text_firsts.new text_seconds.new kinds.new lengths.new firsts.new seconds.new values.new steps.new) store.new result.taken }
{
    if record::has_work(status.stack.depth, source.ended) {
        return item_work::work(
            taken,
            status,
            source,
            cells,
            row,
            arena,
            ends,
            store,
            text_firsts,
            text_seconds,
            kinds,
            lengths,
            firsts,
            seconds,
            values,
            steps,
        );
    }
    if taken < block.len() {
        return source_input::take_line(
            block,
            taken,
            status,
            source,
            gathered,
            cells,
            row,
            arena,
            ends,
            store,
            text_firsts,
            text_seconds,
            kinds,
            lengths,
            firsts,
            seconds,
            values,
            steps,
        );
    }
    if last {
        return source_input::read_end(
            taken,
            status,
            source,
            gathered,
            cells,
            row,
            arena,
            ends,
            store,
            text_firsts,
            text_seconds,
            kinds,
            lengths,
            firsts,
            seconds,
            values,
            steps,
        );
    }
    TurnOutcome {
        stop: Some(Answer::NeedsInput),
        status,
        source,
        waiting: Waiting { at: 0, end: 0 },
        closing: Closing::Open,
        taken,
    }
}

// A call that ends with an answer.
fn ran(
    answer: Answer,
    status: Status,
    source: Source,
    waiting: Waiting,
    closing: Closing,
    taken: usize,
    written: usize,
) -> Ran
    ensures { (result.answer ≡ answer) × (result.place ≡ core_of status source waiting closing) × (result.taken ≡ taken) × (result.written ≡ written) }
{
    Ran {
        answer,
        place: RecordCore {
            status,
            source,
            waiting,
            closing,
        },
        taken,
        written,
    }
}

// The turns of a call.
pub fn run(
    block: &[u8],
    last: bool,
    start: RecordCore,
    out: &mut [u8],
    gathered: &mut LineBytes,
    cells: &mut LineBytes,
    row: &mut RowBytes,
    arena: &mut StackBytes,
    ends: &mut StackEnds,
    store: &mut [u8],
    text_firsts: &mut ByteColumn,
    text_seconds: &mut ByteColumn,
    kinds: &mut ByteColumn,
    lengths: &mut LengthColumn,
    firsts: &mut ByteColumn,
    seconds: &mut ByteColumn,
    values: &mut NumberColumn,
    steps: &mut NumberColumn,
) -> Ran
    requires { let q : Record = record_of start gathered.old cells.old row.old arena.old ends.old text_firsts.old text_seconds.old kinds.old lengths.old firsts.old seconds.old values.old steps.old in ValidRecord q store.old }
    ensures { let q : Record = record_of start gathered.old cells.old row.old arena.old ends.old text_firsts.old text_seconds.old kinds.old lengths.old firsts.old seconds.old values.old steps.old in RunContract q store.old block.now last out.old (reply_from result (record_of result.place gathered.new cells.new row.new arena.new ends.new text_firsts.new text_seconds.new kinds.new lengths.new firsts.new seconds.new values.new steps.new)) store.new out.new }
{
    let mut status = start.status;
    let mut source = start.source;
    let mut waiting = start.waiting;
    let mut closing = start.closing;
    let mut taken: usize = 0;
    let mut written: usize = 0;
    // a turn writes, takes or works by as much as there is: no count of turns is known
    loop {
        let wrote = record::write_out(waiting, row, out, written);
        waiting = wrote.waiting;
        written = wrote.written;
        if waiting.at < waiting.end {
            return ran(
                Answer::NeedsRoom,
                status,
                source,
                waiting,
                closing,
                taken,
                written,
            );
        }
        if let Some(answer) = record::closed(closing) {
            return ran(answer, status, source, waiting, closing, taken, written);
        }
        let turned = take_turn(
            block,
            taken,
            last,
            status,
            source,
            gathered,
            cells,
            row,
            arena,
            ends,
            store,
            text_firsts,
            text_seconds,
            kinds,
            lengths,
            firsts,
            seconds,
            values,
            steps,
        );
        status = turned.status;
        source = turned.source;
        waiting = turned.waiting;
        closing = turned.closing;
        taken = turned.taken;
        if let Some(answer) = turned.stop {
            return ran(answer, status, source, waiting, closing, taken, written);
        }
    }
}
