#![tactic(auto)]

// A session: calls that take bytes of a source and write bytes of its pages.

ghost use Rattle.std.specs.Prelude.{◌≡◌};
ghost use Rattle.record.specs.View.{most_lines, ValidRecord};
ghost use Rattle.record.specs.Turns.{record_of, reply_from};
ghost use Rattle.session.specs.Start.{first_layout, first_status, start_place, start_record};
ghost use Rattle.session.specs.Contract.{CallContract};
ghost use Rattle.session.specs.Limits.{ArrayLengths, EndsWith, is_open, AnsweredJudged, CoreJudged, ValidJudged};
ghost use Rattle.record.specs.declared.Record.{Record};

use measure::{Cells, Rows};
use page::position::Page;
use record::{Closing, Ran, Record, RecordCore, Reply, Waiting};
use rules::Name;
use rules::arrays::{
    ByteColumn, LINE_SIZE, LengthColumn, LineBytes, NumberColumn, ROW_SIZE, RowBytes, STACK_SIZE,
    STACK_WORDS, StackBytes, StackEnds, TABLE_SIZE,
};
use settings::layout::Layout;
use settings::lengths::Setting;
use source_line::Source;
use state::{Opening, Status};
use stream::Answer;

// The settings at the start.
fn first_layout() -> Layout
    ensures { result ≡ first_layout }
{
    let line = Setting {
        now: Cells(65),
        former: Cells(65),
    };
    let none = Setting {
        now: Cells(0),
        former: Cells(0),
    };
    Layout {
        line,
        indent: none,
        offset: none,
        page: Rows(66),
        total: None,
        filling: true,
        adjusting: true,
        centred: 0,
    }
}

// The state at the start, but for its arrays.
fn first_status() -> Status
    ensures { result ≡ first_status }
{
    Status {
        layout: first_layout(),
        page: Page {
            number: 0,
            used: Rows(0),
            last: false,
        },
        collected: composition::page_rows::nothing_collected(),
        planted: traps::table::empty(),
        stack: input_stack::stack::empty(),
        texts: 0,
        opening: Opening {
            there: false,
            name: Name {
                first: 0,
                second: 0,
            },
            length: 0,
        },
        registers: 0,
    }
}

// What is no array of the record that the first call gets.
pub fn start_place() -> RecordCore
    ensures { result ≡ start_place }
{
    RecordCore {
        status: first_status(),
        source: Source {
            line: 0,
            length: 0,
            ended: false,
            stored: 0,
        },
        waiting: Waiting { at: 0, end: 0 },
        closing: Closing::Open,
    }
}

// The record of a place and the arrays.
fn recorded(
    place: RecordCore,
    gathered: LineBytes,
    cells: LineBytes,
    row: RowBytes,
    arena: StackBytes,
    ends: StackEnds,
    text_firsts: ByteColumn,
    text_seconds: ByteColumn,
    kinds: ByteColumn,
    lengths: LengthColumn,
    firsts: ByteColumn,
    seconds: ByteColumn,
    values: NumberColumn,
    steps: NumberColumn,
) -> Record
    ensures { result ≡ record_of place gathered cells row arena ends text_firsts text_seconds kinds lengths firsts seconds values steps }
{
    Record {
        status: place.status,
        source: place.source,
        waiting: place.waiting,
        closing: place.closing,
        gathered,
        cells,
        row,
        arena,
        ends,
        text_firsts,
        text_seconds,
        kinds,
        lengths,
        firsts,
        seconds,
        values,
        steps,
    }
}

// The record that the first call gets.
pub fn start() -> Record
    ensures { result ≡ start_record }
{
    recorded(
        start_place(),
        [0u8; LINE_SIZE],
        [0u8; LINE_SIZE],
        [0u8; ROW_SIZE],
        [0u8; STACK_SIZE],
        [0u16; STACK_WORDS],
        [0u8; TABLE_SIZE],
        [0u8; TABLE_SIZE],
        [0u8; TABLE_SIZE],
        [0u16; TABLE_SIZE],
        [0u8; TABLE_SIZE],
        [0u8; TABLE_SIZE],
        [0i32; TABLE_SIZE],
        [0i32; TABLE_SIZE],
    )
}

// The answer of a session, if it is closed and nothing waits any more.
fn ended(closing: Closing, waiting: Waiting) -> Option<Answer>
    ensures { EndsWith result closing waiting }
{
    if waiting.at != waiting.end {
        return None;
    }
    record::closed(closing)
}

// "12: past 1,000,000 source lines"
fn last_line(closing: Closing) -> u32
    ensures { result ≡ most_lines closing }
{
    match closing {
        Closing::Open => 1_000_000,
        Closing::Done | Closing::Refused(..) => 1_000_001,
    }
}

// Whether a session is not closed.
fn is_open(closing: Closing) -> bool
    ensures { result ≡ is_open closing }
{
    matches!(closing, Closing::Open)
}

// "first refusal (2 to 12)": a closing refusal is one of these, at the source line.
fn is_answered(closing: Closing, line: u32) -> bool
    ensures { AnsweredJudged result closing line }
{
    match closing {
        Closing::Open | Closing::Done => true,
        Closing::Refused(number, at) => (2..=12).contains(&number) && at == line,
    }
}

// Whether the source and the waiting bytes keep their limits.
fn is_placed(source: Source, waiting: Waiting, closing: Closing) -> bool
    ensures { CoreJudged result source waiting closing }
{
    source.length <= LINE_SIZE
        && source.line <= last_line(closing)
        && source.stored <= 10_000
        && waiting.at <= waiting.end
        && waiting.end <= ROW_SIZE
        && is_answered(closing, source.line)
}

// Whether the parts of a record and a store keep their limits.
pub fn is_valid(
    place: RecordCore,
    gathered: &LineBytes,
    cells: &LineBytes,
    row: &RowBytes,
    arena: &StackBytes,
    ends: &StackEnds,
    store: &[u8],
    text_firsts: &ByteColumn,
    text_seconds: &ByteColumn,
    kinds: &ByteColumn,
    lengths: &LengthColumn,
    firsts: &ByteColumn,
    seconds: &ByteColumn,
    values: &NumberColumn,
    steps: &NumberColumn,
) -> bool
    requires { let q : Record = record_of place gathered.now cells.now row.now arena.now ends.now text_firsts.now text_seconds.now kinds.now lengths.now firsts.now seconds.now values.now steps.now in ArrayLengths q }
    ensures { let q : Record = record_of place gathered.now cells.now row.now arena.now ends.now text_firsts.now text_seconds.now kinds.now lengths.now firsts.now seconds.now values.now steps.now in ValidJudged result q store.now }
{
    if !is_placed(place.source, place.waiting, place.closing) {
        return false;
    }
    if !record_checks::soundness::is_sound(
        place.status,
        store.len(),
        ends,
        text_firsts,
        text_seconds,
        lengths,
        firsts,
        seconds,
    ) {
        return false;
    }
    record_checks::state_limits::is_within(
        place.status,
        is_open(place.closing),
        ends,
        gathered,
        place.source.length,
        text_firsts,
        text_seconds,
        values,
        steps,
    )
}

// A call on parts that keep their limits.
pub fn serve(
    block: &[u8],
    last: bool,
    place: RecordCore,
    out: &mut [u8],
    gathered: &mut LineBytes,
    cells: &mut LineBytes,
    row: &mut RowBytes,
    arena: &mut StackBytes,
    ends: &mut StackEnds,
    store: &mut [u8],
    text_firsts: &mut ByteColumn,
    text_seconds: &mut ByteColumn,
    kinds: &mut ByteColumn,
    lengths: &mut LengthColumn,
    firsts: &mut ByteColumn,
    seconds: &mut ByteColumn,
    values: &mut NumberColumn,
    steps: &mut NumberColumn,
) -> Ran
    requires { let q : Record = record_of place gathered.old cells.old row.old arena.old ends.old text_firsts.old text_seconds.old kinds.old lengths.old firsts.old seconds.old values.old steps.old in ValidRecord q store.old }
    ensures { let q : Record = record_of place gathered.old cells.old row.old arena.old ends.old text_firsts.old text_seconds.old kinds.old lengths.old firsts.old seconds.old values.old steps.old in CallContract q store.old block.now last out.old (reply_from result (record_of result.place gathered.new cells.new row.new arena.new ends.new text_firsts.new text_seconds.new kinds.new lengths.new firsts.new seconds.new values.new steps.new)) store.new out.new }
{
    match ended(place.closing, place.waiting) {
        Some(answer) => Ran {
            answer,
            place,
            taken: 0,
            written: 0,
        },
        None => call_loop::run(
            block,
            last,
            place,
            out,
            gathered,
            cells,
            row,
            arena,
            ends,
            store,
            text_firsts,
            text_seconds,
            kinds,
            lengths,
            firsts,
            seconds,
            values,
            steps,
        ),
    }
}

// One session call on the parts of a record, where they lie. That the arrays have their lengths is a fact of their types.
pub fn call_parts(
    block: &[u8],
    last: bool,
    place: RecordCore,
    out: &mut [u8],
    gathered: &mut LineBytes,
    cells: &mut LineBytes,
    row: &mut RowBytes,
    arena: &mut StackBytes,
    ends: &mut StackEnds,
    store: &mut [u8],
    text_firsts: &mut ByteColumn,
    text_seconds: &mut ByteColumn,
    kinds: &mut ByteColumn,
    lengths: &mut LengthColumn,
    firsts: &mut ByteColumn,
    seconds: &mut ByteColumn,
    values: &mut NumberColumn,
    steps: &mut NumberColumn,
) -> Ran
    requires { let q : Record = record_of place gathered.old cells.old row.old arena.old ends.old text_firsts.old text_seconds.old kinds.old lengths.old firsts.old seconds.old values.old steps.old in ArrayLengths q }
    ensures { let q : Record = record_of place gathered.old cells.old row.old arena.old ends.old text_firsts.old text_seconds.old kinds.old lengths.old firsts.old seconds.old values.old steps.old in CallContract q store.old block.now last out.old (reply_from result (record_of result.place gathered.new cells.new row.new arena.new ends.new text_firsts.new text_seconds.new kinds.new lengths.new firsts.new seconds.new values.new steps.new)) store.new out.new }
{
    if !is_valid(
        place,
        &*gathered,
        &*cells,
        &*row,
        &*arena,
        &*ends,
        &*store,
        &*text_firsts,
        &*text_seconds,
        &*kinds,
        &*lengths,
        &*firsts,
        &*seconds,
        &*values,
        &*steps,
    ) {
        return Ran {
            answer: Answer::Refused(1, 0),
            place,
            taken: 0,
            written: 0,
        };
    }
    serve(
        block,
        last,
        place,
        out,
        gathered,
        cells,
        row,
        arena,
        ends,
        store,
        text_firsts,
        text_seconds,
        kinds,
        lengths,
        firsts,
        seconds,
        values,
        steps,
    )
}

// One session call: the record and the store as the call before handed them out, a block of the source, whether the source ends with it, and room for output.
pub fn call(session: Record, store: &mut [u8], block: &[u8], last: bool, out: &mut [u8]) -> Reply
    ensures { CallContract session store.old block.now last out.old result store.new out.new }
{
    let start = RecordCore {
        status: session.status,
        source: session.source,
        waiting: session.waiting,
        closing: session.closing,
    };
    let mut gathered = session.gathered;
    let mut cells = session.cells;
    let mut row = session.row;
    let mut arena = session.arena;
    let mut ends = session.ends;
    let mut text_firsts = session.text_firsts;
    let mut text_seconds = session.text_seconds;
    let mut kinds = session.kinds;
    let mut lengths = session.lengths;
    let mut firsts = session.firsts;
    let mut seconds = session.seconds;
    let mut values = session.values;
    let mut steps = session.steps;
    let ran = call_parts(
        block,
        last,
        start,
        out,
        &mut gathered,
        &mut cells,
        &mut row,
        &mut arena,
        &mut ends,
        store,
        &mut text_firsts,
        &mut text_seconds,
        &mut kinds,
        &mut lengths,
        &mut firsts,
        &mut seconds,
        &mut values,
        &mut steps,
    );
    Reply {
        answer: ran.answer,
        taken: ran.taken,
        written: ran.written,
        next: recorded(
            ran.place,
            gathered,
            cells,
            row,
            arena,
            ends,
            text_firsts,
            text_seconds,
            kinds,
            lengths,
            firsts,
            seconds,
            values,
            steps,
        ),
    }
}
