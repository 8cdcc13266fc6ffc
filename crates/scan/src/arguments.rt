// A line is parted into its arguments.
ghost use Rattle.rules.specs.Arguments.{bare, quoted};
ghost use Rattle.scan.specs.Arguments.Parting.{Spaces, WordEnds, quote_at, UnreadRoom, Parted, ArgumentTaken, PartedAll};
ghost use Rattle.std.specs.Prelude.{◌≡◌, ◌-◌, ◌≤◌, length};

use rules::arrays::{ARGUMENT_COUNT, ArgumentEnds, LineBytes};

// Where a line goes on, and how many bytes have been written.
#[derive(Clone, Copy)]
pub struct Cut {
    pub at: usize,
    pub written: usize,
}

// The place behind the spaces that stand at a place.
pub fn skip_spaces(line: &[u8], at: usize) -> usize
    requires { at ≤ length line.now }
    ensures { Spaces line.now at result }
{
    for i in at..line.len() {
        if line[i] != b' ' {
            return i;
        }
    }
    line.len()
}

// The place of the first space from a place on, or the end of the line.
pub fn word_end(line: &[u8], at: usize) -> usize
    requires { at ≤ length line.now }
    ensures { WordEnds line.now at result }
{
    for i in at..line.len() {
        if line[i] == b' ' {
            return i;
        }
    }
    line.len()
}

// Whether a double quote stands at a place.
fn quote_at(line: &[u8], at: usize) -> bool
    ensures { result ≡ quote_at line.now at }
{
    line.get(at) == Some(&b'"')
}

// The argument that begins here without a quote.
fn bare_argument(line: &[u8], at: usize, out: &mut LineBytes, written: usize) -> Cut
    requires { UnreadRoom line.now at out.old written }
    ensures { Parted bare line.now at out.old written result out.new }
{
    let mut w = written;
    for i in at..line.len() {
        if line[i] == b' ' {
            return Cut { at: i, written: w };
        }
        out[w] = line[i];
        w += 1;
    }
    Cut {
        at: line.len(),
        written: w,
    }
}

// The argument behind a quote, up to the next lone one; two quotes inside are one.
// A while: a turn passes one byte or two, and writes one.
fn quoted_argument(line: &[u8], at: usize, out: &mut LineBytes, written: usize) -> Cut
    requires { UnreadRoom line.now at out.old written }
    ensures { Parted quoted line.now at out.old written result out.new }
{
    let mut i = at;
    let mut w = written;
    while i < line.len() {
        let b = line[i];
        if b != b'"' {
            out[w] = b;
            w += 1;
            i += 1;
            continue;
        }
        if quote_at(line, i + 1) {
            out[w] = b;
            w += 1;
            i += 2;
            continue;
        }
        return Cut {
            at: i + 1,
            written: w,
        };
    }
    Cut { at: i, written: w }
}

// The next argument of a line, written behind what is written.
pub fn next_argument(line: &[u8], at: usize, out: &mut LineBytes, written: usize) -> Option<Cut>
    requires { UnreadRoom line.now at out.old written }
    ensures { ArgumentTaken line.now at out.old written result out.new }
{
    let i = skip_spaces(line, at);
    if i == line.len() {
        return None;
    }
    if line[i] == b'"' {
        return Some(quoted_argument(line, i + 1, &mut *out, written));
    }
    Some(bare_argument(line, i, &mut *out, written))
}

// The arguments of a line, "past nine are dropped": their bytes one after the other, where each ends, and how many there are.
pub fn arguments(line: &[u8], at: usize, out: &mut LineBytes, ends: &mut ArgumentEnds) -> usize
    requires { UnreadRoom line.now at out.old 0 × (length ends.old ≡ 9) }
    ensures { PartedAll line.now at result out.new ends.new }
{
    let mut i = at;
    let mut w = 0;
    for count in 0..ARGUMENT_COUNT {
        let Some(cut) = next_argument(line, i, &mut *out, w) else {
            return count;
        };
        ends[count] = cut.written as u16;
        w = cut.written;
        i = cut.at;
    }
    ARGUMENT_COUNT
}
