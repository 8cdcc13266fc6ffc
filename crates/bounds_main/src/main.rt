#![tactic(auto)]

// Formats documents on both sides of each bound, whole and in small blocks and rooms, and writes their pages and what the calls
// answered. It holds no rule: it lends memory and calls the session.
//
// Standard input has a title or a document on each line. A title starts with `#` and is written as it is. In a document `|` is a
// newline, `{512 x}` stands for 512 times `x`, and `{9}` for the byte with the number 9.
ghost use Rattle.std.specs.Prelude.{◌≡◌, ◌≤◌, IfSome, length};

use record::Record;
use report::{read_full, text};
use rules::arrays::STORE_SIZE;
use std::io;
use stream::Answer;

// The place for a document: each is shorter.
const DOCUMENT: usize = 2097152;
// The room of a call that is lent a whole document.
const ROOM: usize = 65536;
// A document longer than this, or with more bytes of pages than are shown, is cut into longer blocks and rooms.
const SMALL: usize = 10000;
// The most bytes of pages that are shown; of longer ones only a sum is.
const SHOWN: usize = 2000;
// Sums are taken modulo this prime.
const PRIME: u64 = 1000000007;

// The lengths of the blocks, and those of the rooms by turns.
#[derive(Clone, Copy)]
struct CutSizes {
    block: usize,
    room: usize,
    next_room: usize,
}

// What is seen of the calls so far: the sums are over their answers and over the pages.
#[derive(Clone, Copy)]
struct Observed {
    answer: Answer,
    taken: usize,
    written: usize,
    calls: u64,
    input: u64,
    room: u64,
    answers: u64,
    pages: u64,
}

// The record after a call, and what is seen then.
#[derive(Drop)]
struct AfterCall {
    record: Record,
    seen: Observed,
}

// The parts of the document and of the pages that a call is lent.
#[derive(Clone, Copy)]
struct Window {
    from: usize,
    end: usize,
    at: usize,
    behind: usize,
}

// A number, and the place behind its digits.
#[derive(Clone, Copy)]
struct NumberAt {
    value: u64,
    next: usize,
}

// The place of the first such byte at or behind a place, or the end.
fn find(s: &[u8], from: usize, byte: u8) -> usize
    requires { from ≤ length s.now }
    ensures { (from ≤ result) × (result ≤ length s.now) }
{
    match s[from..].iter().position(|&each| each == byte) {
        Some(place) => from + place,
        None => s.len(),
    }
}

// Puts a byte at a place; the place behind it. What does not fit is left out.
fn put(bytes: &mut [u8], at: usize, byte: u8) -> usize {
    if at < bytes.len() {
        bytes[at] = byte;
        return at + 1;
    }
    at
}

// The byte that a byte of a line stands for.
fn plain(byte: u8) -> u8 {
    if byte == b'|' {
        return 10;
    }
    byte
}

fn put_all(text: &[u8], document: &mut [u8], from: usize) -> usize {
    let mut at = from;
    for &byte in text {
        at = put(document, at, plain(byte));
    }
    at
}

fn repeat(text: &[u8], count: u64, document: &mut [u8], from: usize) -> usize {
    let mut at = from;
    for _ in 0..count {
        at = put_all(text, document, at);
    }
    at
}

// A digit's value.
fn digit(byte: u8) -> Option<u64>
    ensures { IfSome result (λ value. value ≤ 9) }
{
    if byte.is_ascii_digit() {
        return Some(u64::from(byte - b'0'));
    }
    None
}

// The number at the start of a text. One that is larger than any count here is cut, so that no sum passes its type.
fn number(s: &[u8]) -> NumberAt {
    let mut value: u64 = 0;
    for (i, &byte) in s.iter().enumerate() {
        let Some(next) = digit(byte) else {
            return NumberAt { value, next: i };
        };
        value = (value % 100000000) * 10 + next;
    }
    NumberAt {
        value,
        next: s.len(),
    }
}

// What stands between braces: a byte's number, or a count and a text.
fn put_braced(inside: &[u8], document: &mut [u8], at: usize) -> usize {
    let counted = number(inside);
    let space = counted.next;
    if space < inside.len() {
        let start = space + 1;
        return repeat(&inside[start..], counted.value, document, at);
    }
    put(document, at, (counted.value % 256) as u8)
}

// The document of a line, and its length.
fn decode(line: &[u8], document: &mut [u8]) -> usize {
    let mut at = 0;
    let mut i = 0;
    // a turn moves on by a byte, or past a closing brace
    while i < line.len() {
        let start = i + 1;
        if line[i] == b'{' {
            let end = find(line, start, b'}');
            at = put_braced(&line[start..end], document, at);
            i = end + 1;
        } else {
            at = put(document, at, plain(line[i]));
            i = start;
        }
    }
    at
}

fn mixed(sum: u64, value: u64) -> u64 {
    ((sum % PRIME) * 257 + (value % PRIME) + 1) % PRIME
}

fn sum_of(before: u64, bytes: &[u8]) -> u64 {
    bytes
        .iter()
        .fold(before, |sum, &byte| mixed(sum, u64::from(byte)))
}

fn code(answer: Answer) -> u64 {
    match answer {
        Answer::NeedsInput => 0,
        Answer::NeedsRoom => 1,
        Answer::Done => 2,
        Answer::Refused(_, _) => 3,
    }
}

fn nothing_seen() -> Observed {
    Observed {
        answer: Answer::NeedsInput,
        taken: 0,
        written: 0,
        calls: 0,
        input: 0,
        room: 0,
        answers: 0,
        pages: 0,
    }
}

// What is seen after one more call.
fn noted(seen: Observed, answer: Answer, taken: usize, written: usize, pages: u64) -> Observed {
    let answers = mixed(
        mixed(mixed(seen.answers, code(answer)), taken as u64),
        written as u64,
    );
    Observed {
        answer,
        taken: seen.taken.wrapping_add(taken),
        written: seen.written.wrapping_add(written),
        calls: seen.calls.wrapping_add(1),
        input: seen
            .input
            .wrapping_add(u64::from(matches!(answer, Answer::NeedsInput))),
        room: seen
            .room
            .wrapping_add(u64::from(matches!(answer, Answer::NeedsRoom))),
        answers,
        pages,
    }
}

// Where the next bytes of pages go: behind those before, as long as the pages may be shown, else to the start again.
fn place(written: usize) -> usize {
    if written <= SHOWN { written } else { 0 }
}

fn room_of(cut: CutSizes, calls: u64) -> usize {
    if calls % 2 == 0 {
        cut.room
    } else {
        cut.next_room
    }
}

// One call.
fn call(
    record: Record,
    store: &mut [u8],
    block: &[u8],
    last: bool,
    room: &mut [u8],
    seen: Observed,
) -> AfterCall {
    let reply = session::call(record, store, block, last, &mut *room);
    let count = reply.written.min(room.len());
    let pages = sum_of(seen.pages, &room[..count]);
    AfterCall {
        seen: noted(seen, reply.answer, reply.taken, reply.written, pages),
        record: reply.next,
    }
}

// Which parts of the document and of the pages the next call is lent.
fn parts_lent(cut: CutSizes, seen: Observed, document: usize, pages: usize) -> Window
    ensures { ((result.from ≤ result.end) × (result.end ≤ document)) × ((result.at ≤ result.behind) × (result.behind ≤ pages)) }
{
    let from = seen.taken.min(document);
    let end = from + cut.block.min(document - from);
    let at = place(seen.written).min(pages);
    let behind = at + room_of(cut, seen.calls).min(pages - at);
    Window {
        from,
        end,
        at,
        behind,
    }
}

// The next call. The rooms are parts of `pages`, so that the pages stand there whole if they are short.
fn cut_call(
    record: Record,
    store: &mut [u8],
    document: &[u8],
    cut: CutSizes,
    pages: &mut [u8],
    seen: Observed,
) -> AfterCall {
    let lent = parts_lent(cut, seen, document.len(), pages.len());
    call(
        record,
        store,
        &document[lent.from..lent.end],
        lent.end == document.len(),
        &mut pages[lent.at..lent.behind],
        seen,
    )
}

// Calls the session until it is closed, over a store whose first content is no text. A proved loop has to end: it counts its
// turns, up to a number that no run here uses up.
fn run(document: &[u8], cut: CutSizes, pages: &mut [u8]) -> Observed {
    let mut store = [255u8; STORE_SIZE];
    let mut record = session::start();
    let mut seen = nothing_seen();
    for _ in 0..10000000u64 {
        let step = cut_call(record, &mut store, document, cut, &mut *pages, seen);
        record = step.record;
        seen = step.seen;
        if matches!(seen.answer, Answer::Done | Answer::Refused(..)) {
            return seen;
        }
    }
    seen
}

fn say_answer(rt: &impl Print, answer: Answer) -> io::Result<()> {
    match answer {
        Answer::NeedsInput => print!(rt; "needs input"),
        Answer::NeedsRoom => print!(rt; "needs room"),
        Answer::Done => print!(rt; "done"),
        Answer::Refused(number, line) => print!(rt; "refused {number} at line {line}"),
    }
}

fn bar_newlines(pages: &mut [u8]) {
    for byte in pages.iter_mut() {
        if *byte == b'\n' {
            *byte = b'|';
        }
    }
}

// The pages on one line, with a bar for each newline.
fn say_pages(rt: &impl Print, pages: &mut [u8]) -> io::Result<()> {
    bar_newlines(&mut *pages);
    print!(rt; "  ")?;
    text(rt, &*pages)?;
    println!(rt)
}

fn say_seen(rt: &impl Print, seen: Observed, pages: &mut [u8]) -> io::Result<()> {
    say_answer(rt, seen.answer)?;
    print!(rt; "; taken {}, written {}", seen.taken, seen.written)?;
    print!(rt;
        "; calls {}, for input {}, for room {}",
        seen.calls, seen.input, seen.room
    )?;
    println!(rt; ", sum {}", seen.answers)?;
    if seen.written > SHOWN {
        return println!(rt; "  pages with sum {}", seen.pages);
    }
    if seen.written == 0 {
        return Ok(());
    }
    let end = seen.written.min(pages.len());
    say_pages(rt, &mut pages[..end])
}

// A run in blocks and rooms of these lengths.
fn cut_run(
    rt: &impl Print,
    document: &[u8],
    block: usize,
    room: usize,
    next_room: usize,
    pages: &mut [u8],
) -> io::Result<()> {
    print!(rt; "blocks {block}, rooms {room} {next_room}: ")?;
    let cut = CutSizes {
        block,
        room,
        next_room,
    };
    let seen = run(document, cut, &mut *pages);
    say_seen(rt, seen, pages)
}

// A room of 0 alone never leads on, so it takes turns with another.
fn runs(rt: &impl Print, document: &[u8], pages: &mut [u8]) -> io::Result<()> {
    print!(rt; "whole: ")?;
    let cut = CutSizes {
        block: DOCUMENT,
        room: ROOM,
        next_room: ROOM,
    };
    let seen = run(document, cut, &mut *pages);
    say_seen(rt, seen, &mut *pages)?;
    if document.len() > SMALL || seen.written > SHOWN {
        return cut_run(rt, document, 509, 0, 4093, pages);
    }
    cut_run(rt, document, 1, 0, 1, &mut *pages)?;
    cut_run(rt, document, 3, 1, 1, &mut *pages)?;
    cut_run(rt, document, 7, 5, 5, pages)
}

fn answer(rt: &impl Print, line: &[u8], document: &mut [u8], pages: &mut [u8]) -> io::Result<()> {
    if line.starts_with(b"#") {
        text(rt, line)?;
        return println!(rt);
    }
    let length = decode(line, &mut *document);
    if length >= document.len() {
        return println!(rt; "too long");
    }
    runs(rt, &document[..length], pages)
}

fn answer_all(rt: &impl Print, s: &[u8], document: &mut [u8], pages: &mut [u8]) -> io::Result<()> {
    for line in s.split_inclusive(|byte| *byte == b'\n') {
        let line = line.strip_suffix(b"\n").unwrap_or(line);
        answer(rt, line, &mut *document, &mut *pages)?;
    }
    Ok(())
}

fn document_buffer() -> [u8; DOCUMENT]
    ensures { 2097152 ≡ length result }
{
    [0u8; DOCUMENT]
}

fn main(rt: HostRuntime) -> io::Result<()> {
    let mut lines = [0u8; 65536];
    let count = read_full(&mut rt.stdin(), &mut lines)?;
    let mut document = document_buffer();
    let mut pages = [0u8; 65536];
    answer_all(&rt, &lines[..count], &mut document, &mut pages)
}
