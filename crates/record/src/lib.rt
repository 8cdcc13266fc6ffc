#![tactic(auto)]

// The record of a session, and what a turn of a call leads to.
ghost use Rattle.std.specs.Prelude.{◌≡◌};
ghost use Rattle.source_line.specs.Writing.{Writes};
ghost use Rattle.record.specs.Turns.{closing_of, turn_after, emptied as emptiedOf, HasWork, ClosedIs, WrittenOutTo};
ghost use Rattle.record.specs.Inside.{InsideJudged};

use page::springs::Way;
use rules::arrays::{
    ByteColumn, LengthColumn, LineBytes, NumberColumn, RowBytes, StackBytes, StackEnds,
};
use source_line::Source;
use state::Status;
use stream::Answer;

// The bytes of the row that wait to be written: those from one place up to another.
#[derive(Clone, Copy)]
pub struct Waiting {
    pub at: usize,
    pub end: usize,
}

// The closing answer, once there is one.
#[derive(Clone, Copy)]
pub enum Closing {
    Open,
    Done,
    // the refusal's number and source line: any number, as a record that is handed in may hold any
    Refused(u8, u32),
}

// What a call hands out for the next one.
#[derive(Drop)]
pub struct Record {
    pub status: Status,
    pub source: Source,
    pub waiting: Waiting,
    pub closing: Closing,
    pub gathered: LineBytes,
    pub cells: LineBytes,
    pub row: RowBytes,
    pub arena: StackBytes,
    pub ends: StackEnds,
    pub text_firsts: ByteColumn,
    pub text_seconds: ByteColumn,
    pub kinds: ByteColumn,
    pub lengths: LengthColumn,
    pub firsts: ByteColumn,
    pub seconds: ByteColumn,
    pub values: NumberColumn,
    pub steps: NumberColumn,
}

// What a call answers, and the record for the next one.
#[derive(Drop)]
pub struct Reply {
    pub answer: Answer,
    pub taken: usize,
    pub written: usize,
    pub next: Record,
}

// The parts of a record that are no arrays.
#[derive(Clone, Copy)]
pub struct RecordCore {
    pub status: Status,
    pub source: Source,
    pub waiting: Waiting,
    pub closing: Closing,
}

// How a call ends.
#[derive(Clone, Copy)]
pub struct Ran {
    pub answer: Answer,
    pub place: RecordCore,
    pub taken: usize,
    pub written: usize,
}

// What a turn leads to, with the answer if the call ends there: the parts of a core stand by themselves, so that the status is copied no more than once.
#[derive(Clone, Copy)]
pub struct TurnOutcome {
    pub stop: Option<Answer>,
    pub status: Status,
    pub source: Source,
    pub waiting: Waiting,
    pub closing: Closing,
    pub taken: usize,
}

// The bytes that still wait, and how many are written.
#[derive(Clone, Copy)]
pub struct WrittenOut {
    pub waiting: Waiting,
    pub written: usize,
}

// The closing that a way leads to, at a source line.
fn closing_of(way: Way, line: u32) -> Closing
    ensures { result ≡ closing_of way line }
{
    match way {
        Way::On => Closing::Open,
        Way::Done => Closing::Done,
        Way::Refused(number) => Closing::Refused(number, line),
    }
}

// A turn that goes on after a piece of work: so many bytes of the row wait.
pub fn turn_after(
    status: Status,
    source: Source,
    way: Way,
    written: usize,
    taken: usize,
) -> TurnOutcome
    ensures { result ≡ turn_after status source way written taken }
{
    TurnOutcome {
        stop: None,
        status,
        source,
        waiting: Waiting {
            at: 0,
            end: written,
        },
        closing: closing_of(way, source.line),
        taken,
    }
}

// Whether an item lies on the stack, or the end was read.
pub fn has_work(depth: usize, ended: bool) -> bool
    ensures { HasWork depth ended result }
{
    depth != 0 || ended
}

// The source once its line is dealt with.
pub fn emptied(source: Source, ended: bool) -> Source
    ensures { result ≡ emptiedOf source ended }
{
    Source {
        length: 0,
        ended,
        ..source
    }
}

// The answer of a session, if it is closed.
pub fn closed(closing: Closing) -> Option<Answer>
    ensures { ClosedIs result closing }
{
    match closing {
        Closing::Open => None,
        Closing::Done => Some(Answer::Done),
        Closing::Refused(number, line) => Some(Answer::Refused(number, line)),
    }
}

// As many of the waiting bytes as fit are written.
pub fn write_out(waiting: Waiting, row: &RowBytes, out: &mut [u8], written: usize) -> WrittenOut
    requires { Writes row.now waiting.at waiting.end out.old written }
    ensures { WrittenOutTo waiting row.now out.old written result out.new }
{
    let count = source_line::write(row, waiting.at, waiting.end, out, written);
    WrittenOut {
        waiting: Waiting {
            at: waiting.at + count,
            end: waiting.end,
        },
        written: written + count,
    }
}

// Whether all that a call does is to take its block into the source line that is being taken: the session is open, nothing waits, there is no work, and no line begins or ends.
pub fn is_inside(
    block: &[u8],
    last: bool,
    depth: usize,
    source: Source,
    waiting: Waiting,
    closing: Closing,
) -> bool
    ensures { InsideJudged result block.now last depth source waiting closing }
{
    !last
        && !block.is_empty()
        && waiting.at == waiting.end
        && !has_work(depth, source.ended)
        && matches!(closing, Closing::Open)
        && source_line::is_inside(block, source.length)
}
