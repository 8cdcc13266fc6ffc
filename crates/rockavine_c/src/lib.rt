#![tactic(auto)]

// The session for C: a record is 68 words and 13 arrays of numbers, any bytes make one, and the arrays are lent where they lie.
pub mod replies;

ghost use Rattle.std.specs.Prelude.{◌≡◌};
ghost use Rattle.session.specs.Limits.{ArrayLengths};
ghost use Rattle.session.specs.Start.{start_record};
ghost use Rattle.source_line.specs.Gathering.{Appends};
ghost use Rattle.record_words.specs.Encoding.Kept.{record_in};
ghost use Rattle.rockavine_c.specs.Calls.{BlockTaken, CCallContract};
ghost use Rattle.record.specs.declared.Record.{Record};

use rules::arrays::{
    ByteColumn, LINE_SIZE, LengthColumn, LineBytes, NumberColumn, ROW_SIZE, RecordWords, RowBytes,
    STACK_SIZE, STACK_WORDS, StackBytes, StackEnds, TABLE_SIZE,
};

// The version of this interface.
#[unsafe(no_mangle)]
pub extern "C" fn rockavine_version() -> u32
    ensures { result ≡ 1 }
{
    1
}

// The starting record.
#[unsafe(no_mangle)]
pub extern "C" fn rockavine_start_parts(
    words: &mut RecordWords,
    gathered: &mut LineBytes,
    cells: &mut LineBytes,
    row: &mut RowBytes,
    arena: &mut StackBytes,
    ends: &mut StackEnds,
    text_firsts: &mut ByteColumn,
    text_seconds: &mut ByteColumn,
    kinds: &mut ByteColumn,
    lengths: &mut LengthColumn,
    firsts: &mut ByteColumn,
    seconds: &mut ByteColumn,
    values: &mut NumberColumn,
    steps: &mut NumberColumn,
)
    ensures { (record_in words.new gathered.new cells.new row.new arena.new ends.new text_firsts.new text_seconds.new kinds.new lengths.new firsts.new seconds.new values.new steps.new) ≡ start_record }
{
    record_words::encoding::write_place(words, session::start_place());
    *gathered = [0u8; LINE_SIZE];
    *cells = [0u8; LINE_SIZE];
    *row = [0u8; ROW_SIZE];
    *arena = [0u8; STACK_SIZE];
    *ends = [0u16; STACK_WORDS];
    *text_firsts = [0u8; TABLE_SIZE];
    *text_seconds = [0u8; TABLE_SIZE];
    *kinds = [0u8; TABLE_SIZE];
    *lengths = [0u16; TABLE_SIZE];
    *firsts = [0u8; TABLE_SIZE];
    *seconds = [0u8; TABLE_SIZE];
    *values = [0i32; TABLE_SIZE];
    *steps = [0i32; TABLE_SIZE];
}

// A block goes into the source line that is being taken: the length of the line is the one word that changes.
fn take_block(block: &[u8], words: &mut RecordWords, gathered: &mut LineBytes, start: usize)
    requires { Appends block.now gathered.old start }
    ensures { BlockTaken block.now start words.old gathered.old words.new gathered.new }
{
    source_line::append(block, gathered, start);
    record_words::encoding::write_length(words, start + block.len());
}

// One session call on a record where it lies.
#[unsafe(no_mangle)]
pub extern "C" fn rockavine_call_parts(
    words: &mut RecordWords,
    gathered: &mut LineBytes,
    cells: &mut LineBytes,
    row: &mut RowBytes,
    arena: &mut StackBytes,
    ends: &mut StackEnds,
    text_firsts: &mut ByteColumn,
    text_seconds: &mut ByteColumn,
    kinds: &mut ByteColumn,
    lengths: &mut LengthColumn,
    firsts: &mut ByteColumn,
    seconds: &mut ByteColumn,
    values: &mut NumberColumn,
    steps: &mut NumberColumn,
    store: &mut [u8],
    block: &[u8],
    last: u8,
    out: &mut [u8],
    taken: &mut usize,
    written: &mut usize,
    number: &mut u8,
    line: &mut u32,
) -> u32
    requires { let q : Record = record_in words.old gathered.old cells.old row.old arena.old ends.old text_firsts.old text_seconds.old kinds.old lengths.old firsts.old seconds.old values.old steps.old in ArrayLengths q }
    ensures { let q : Record = record_in words.old gathered.old cells.old row.old arena.old ends.old text_firsts.old text_seconds.old kinds.old lengths.old firsts.old seconds.old values.old steps.old in CCallContract q words.old store.old block.now last out.old result taken.new written.new number.new line.new (record_in words.new gathered.new cells.new row.new arena.new ends.new text_firsts.new text_seconds.new kinds.new lengths.new firsts.new seconds.new values.new steps.new) words.new store.new out.new }
{
    let place = record_words::encoding::place(&*words);
    if !session::is_valid(
        place,
        &*gathered,
        &*cells,
        &*row,
        &*arena,
        &*ends,
        &*store,
        &*text_firsts,
        &*text_seconds,
        &*kinds,
        &*lengths,
        &*firsts,
        &*seconds,
        &*values,
        &*steps,
    ) {
        *taken = 0;
        *written = 0;
        *number = 1;
        *line = 0;
        return 3;
    }
    // most calls with few bytes: a line is neither begun nor ended, and the record stays as it is but for that line
    if record::is_inside(
        block,
        replies::is_last(last),
        place.status.stack.depth,
        place.source,
        place.waiting,
        place.closing,
    ) {
        take_block(block, words, gathered, place.source.length);
        *taken = block.len();
        *written = 0;
        *number = 0;
        *line = 0;
        return 0;
    }
    let ran = session::serve(
        block,
        replies::is_last(last),
        place,
        out,
        gathered,
        cells,
        row,
        arena,
        ends,
        store,
        text_firsts,
        text_seconds,
        kinds,
        lengths,
        firsts,
        seconds,
        values,
        steps,
    );
    *taken = ran.taken;
    *written = ran.written;
    *number = replies::number_of(ran.answer);
    *line = replies::line_of(ran.answer);
    record_words::encoding::write_place(words, ran.place);
    replies::code_of(ran.answer)
}
