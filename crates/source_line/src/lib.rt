#![tactic(auto)]

// The two ends of a session: the bytes of a source line are gathered, and the bytes of a row that wait are written.
ghost use Rattle.std.specs.Prelude.{◌≡◌, ◌≤◌, length};
ghost use Rattle.std.proofs.Math.Seq.{paste};
ghost use Rattle.source_line.specs.Gathering.{begun_source, Reaches, ReachedTo, Gathers, GatheredTo, is_plain, are_plain, is_inside, Appends};
ghost use Rattle.source_line.specs.Writing.{Writes, WrittenTo};

use rules::Refusal;
use rules::arrays::{LINE_SIZE, LineBytes, RowBytes};

// The source lines begun, the bytes of the line being taken, whether the end was read, and the stored lines read for this source line.
#[derive(Clone, Copy, Debug, PartialEq, Eq)]
pub struct Source {
    pub line: u32,
    pub length: usize,
    pub ended: bool,
    pub stored: u16,
}

// Why no more bytes are taken. No Result: a refusal too has its place, its line and what is gathered.
#[derive(Clone, Copy, Debug, PartialEq, Eq)]
pub enum Why {
    // the block is used up
    More,
    // a newline was taken
    Ended,
    // a byte was refused
    Refused(Refusal),
}

// How many bytes were taken, the source after them, and why no more.
#[derive(Clone, Copy, Debug, PartialEq, Eq)]
pub struct Gathered {
    pub taken: usize,
    pub source: Source,
    pub why: Why,
}

// The place in the block behind the bytes taken, the length of the line, and why no more.
#[derive(Clone, Copy, Debug, PartialEq, Eq)]
struct Reach {
    to: usize,
    length: usize,
    why: Why,
}

// The source with the line of its next byte begun.
fn begin(source: Source) -> Source
    requires { source.line ≤ 1000000 }
    ensures { result ≡ begun_source source }
{
    if source.length == 0 {
        return Source {
            line: source.line + 1,
            length: 0,
            ended: source.ended,
            stored: 0,
        };
    }
    source
}

// Whether a byte may stand in a source line.
fn is_plain(byte: u8) -> bool
    ensures { result ≡ is_plain byte }
{
    matches!(byte, 32..=126)
}

// The bytes of a block up to the end of a line go behind those that the line has.
fn gather_line(block: &[u8], from: usize, line: &mut LineBytes, start: usize) -> Reach
    requires { Reaches block.now from line.old start }
    ensures { ReachedTo block.now from line.old start result line.new }
{
    let mut length = start;
    for at in from..block.len() {
        let byte = block[at];
        let to = at + 1;
        if byte == b'\n' {
            let why = Why::Ended;
            return Reach { to, length, why };
        }
        if length >= LINE_SIZE {
            let why = Why::Refused(Refusal::LongLine);
            return Reach { to, length, why };
        }
        if !is_plain(byte) {
            let why = Why::Refused(Refusal::BadByte);
            return Reach { to, length, why };
        }
        line[length] = byte;
        length += 1;
    }
    Reach {
        to: block.len(),
        length,
        why: Why::More,
    }
}

// The bytes of a block from a place on are taken, until a line ends, a byte is refused or none is left.
pub fn gather(block: &[u8], from: usize, line: &mut LineBytes, source: Source) -> Gathered
    requires { Gathers block.now from line.old source }
    ensures { GatheredTo block.now from line.old source result line.new }
{
    let begun = begin(source);
    if begun.line > 1000000 {
        return Gathered {
            taken: 1,
            source: begun,
            why: Why::Refused(Refusal::LongDocument),
        };
    }
    let reach = gather_line(block, from, line, begun.length);
    Gathered {
        taken: reach.to - from,
        source: Source {
            line: begun.line,
            length: reach.length,
            ended: begun.ended,
            stored: begun.stored,
        },
        why: reach.why,
    }
}

// Whether all bytes of a block may stand in a source line.
#[tactic(auto, unfolding(crate::specs::Gathering::are_plain))]
fn are_plain(block: &[u8]) -> bool
    ensures { result ≡ are_plain block.now }
{
    block.iter().all(|byte| is_plain(*byte))
}

// Whether a line that has so many bytes takes a whole block and goes on: the block neither begins a line nor ends one.
pub fn is_inside(block: &[u8], start: usize) -> bool
    ensures { result ≡ is_inside block.now start }
{
    start > 0 && start <= LINE_SIZE && block.len() <= LINE_SIZE - start && are_plain(block)
}

// A block goes behind the bytes that a line has. This loop and the next: `copy_from_slice` would call memmove, which the C archive is
// not to ask for.
pub fn append(block: &[u8], line: &mut LineBytes, start: usize)
    requires { Appends block.now line.old start }
    ensures { line.new ≡ paste line.old start block.now (length block.now) }
{
    for (j, byte) in block.iter().enumerate() {
        line[start + j] = *byte;
    }
}

// As many of the waiting bytes as fit are written; how many those are.
pub fn write(row: &RowBytes, at: usize, end: usize, out: &mut [u8], from: usize) -> usize
    requires { Writes row.now at end out.old from }
    ensures { WrittenTo row.now at end out.old from result out.new }
{
    let n = (end - at).min(out.len() - from);
    for j in 0..n {
        out[from + j] = row[at + j];
    }
    n
}
