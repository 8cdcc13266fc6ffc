#![tactic(auto)]

// Formats a file, or standard input, and writes the pages as they come. It holds no rule: it lends memory and calls the session.
ghost use Rattle.std.specs.Prelude.{◌≡◌, ◌+◌, drop, min};
ghost use Rattle.std.specs.Io.{StartsWith};

use record::Record;
use rules::arrays::STORE_SIZE;
use std::env::FillError;
use std::io::Read;
use std::rt::{Env, Files};
use std::{fmt, fs, io};
use stream::Answer;

// A refusal by its number: it is shown as a phrase for it.
#[derive(Drop)]
struct Why(u8);

impl fmt::Display for Why {
    fn fmt<W: fmt::Write>(&self, f: &mut fmt::Formatter<W>) -> fmt::Result {
        f.write_str(match self.0 {
            1 => "damaged record or store",
            2 => "byte not allowed in the source",
            3 => "line too long",
            4 => "strings nested too deep, or too much to scan",
            5 => "unknown or unfinished escape",
            6 => "malformed number",
            7 => "value out of range",
            8 => "macro definition not ended",
            9 => "text in use, or macro named as a string",
            10 => "input stack or stored lines past their limit",
            11 => "no room for a register, name, trap or text",
            _ => "too many lines or pages",
        })
    }
}

// A message that standard error does not take is lost: there is no other place for it.
fn say(rt: &impl Eprint, text: &str) {
    let _ = rt.eprint(text);
}

// What failed, and the system's words for why. std puts the error's number behind them, which is said only where no memory is left to cut it off.
fn say_failed(rt: &(impl Eprint + AllocGlobal), what: &str, error: io::Error) {
    match error.to_string(rt.alloc()) {
        Ok(text) => {
            let words = before_number(text.as_str());
            let _ = eprintln!(rt; "{what}: {words}");
        }
        Err(_) => {
            let _ = eprintln!(rt; "{what}: {error}");
        }
    }
}

// The words of an error's text before its number, or all of them where it has none.
fn before_number(text: &str) -> &str
    ensures { StartsWith text.now result.now }
{
    match text.split_once(" (os error ") {
        Some((words, _)) => words,
        None => text,
    }
}

// What is left of a block from a place on.
fn rest(block: &[u8], from: usize) -> &[u8]
    ensures { result.now ≡ drop from block.now }
{
    &block[from.min(block.len())..]
}

// The first bytes of the room are the next ones of the pages.
fn write_pages(rt: &impl Print, room: &[u8], count: usize) -> io::Result<()> {
    match room.get(..count) {
        Some(pages) => rt.write_all(pages),
        None => Err(io::Error::from(io::ErrorKind::InvalidData)),
    }
}

// The place behind so many bytes taken of a block.
fn behind(from: usize, taken: usize, length: usize) -> usize
    ensures { result ≡ min (from + taken) length }
{
    from.saturating_add(taken).min(length)
}

// Calls the session on a block until it wants the next one, which gives the record for that, or is closed. A proved loop has to end: it counts its turns, up to a number that no run uses up.
fn feed(
    rt: &(impl Print + Eprint + AllocGlobal),
    start: Record,
    store: &mut [u8],
    block: &[u8],
    last: bool,
) -> Option<Record> {
    let mut record = start;
    let mut from: usize = 0;
    for _ in 0..u64::MAX {
        let mut room = [0u8; 65536];
        let reply = session::call(record, &mut *store, rest(block, from), last, &mut room);
        let answer = reply.answer;
        record = reply.next;
        if let Err(error) = write_pages(rt, &room, reply.written) {
            say_failed(rt, "rockavine: standard output", error);
            return None;
        }
        from = behind(from, reply.taken, block.len());
        match answer {
            Answer::NeedsRoom => {}
            Answer::NeedsInput => return Some(record),
            Answer::Done => return None,
            Answer::Refused(number, line) => {
                let _ = eprintln!(rt;
                    "rockavine: refused {number} at line {line}: {}",
                    Why(number)
                );
                return None;
            }
        }
    }
    None
}

// Reads a block and feeds it; a block of no bytes is the last.
fn feed_some(
    rt: &(impl Print + Eprint + AllocGlobal),
    input: &mut impl Read,
    record: Record,
    store: &mut [u8],
) -> Option<Record> {
    let mut block = [0u8; 65536];
    match input.read(&mut block) {
        Ok(count) => feed(rt, record, store, &block[..count], count == 0),
        Err(error) => {
            say_failed(rt, "rockavine: input", error);
            None
        }
    }
}

fn format(rt: &(impl Print + Eprint + AllocGlobal), input: &mut impl Read) {
    let mut store = [0u8; STORE_SIZE];
    let mut record = session::start();
    for _ in 0..u64::MAX {
        match feed_some(rt, input, record, &mut store) {
            Some(next) => record = next,
            None => return,
        }
    }
}

// A name that is no text is refused: std opens no such file.
fn format_file(rt: &(impl Files + Print + Eprint + AllocGlobal), name: &[u8]) {
    let Ok(path) = str::from_utf8(name) else {
        say(rt, "rockavine: file name: not UTF-8\n");
        return;
    };
    match fs::open(rt, path) {
        Ok(mut file) => format(rt, &mut file),
        Err(error) => {
            say(rt, "rockavine: ");
            say_failed(rt, path, error);
        }
    }
}

fn main(rt: HostRuntime) {
    let mut path = [0u8; 4096];
    match rt.arg(1, &mut path) {
        Ok(length) => format_file(&rt, &path[..length]),
        Err(FillError::NotPresent) => format(&rt, &mut rt.stdin()),
        Err(FillError::TooLong) => say(&rt, "rockavine: file name: File name too long\n"),
    }
}
