// Words are collected into a line.
ghost use Rattle.std.specs.Prelude.{◌≡◌, ◌++◌, length, replicate, ◌+◌, ◌-◌, ◌≤◌, eqb};
ghost use Rattle.std.proofs.lemmas.List.Edits.{sets};
ghost use Rattle.measure.specs.Counts.{across_of};
ghost use Rattle.fill.specs.Collected.Writing.{shown_if, Written};
ghost use Rattle.rules.specs.Bytes.{fixed_blank};
ghost use Rattle.rules.specs.Filling.{words, width, printed, gap_cells, after};
ghost use Rattle.fill.specs.Words.Parts.{bytes_between, Places};
ghost use Rattle.fill.specs.Collected.Filled.{CollectedInvariant, PlacedTo};

use measure::Cells;
use rules::arrays::LineBytes;
use rules::{FIXED_BLANK, GAP_START, MARK};

// A collected line that is full: its cells, and the word that did not fit, with the gap that is lost.
#[derive(Clone, Copy)]
pub struct Overflow {
    pub length: usize,
    pub gap: Cells,
    pub from: usize,
    pub to: usize,
    pub width: Cells,
}

// "Output is .. text": fixed blanks are spaces.
fn shown(byte: u8) -> u8
    ensures { result ≡ shown_if (eqb byte fixed_blank) byte }
{
    if byte == FIXED_BLANK { b' ' } else { byte }
}

// Puts one byte `n` times at a place.
pub fn put_run(buffer: &mut [u8], at: usize, n: usize, byte: u8)
    requires { at + n ≤ length buffer.old }
    ensures { buffer.new ≡ sets buffer.old at (replicate n byte) }
{
    buffer[at..at + n].fill(byte);
}

// Puts what is printed of a part of a line at a place: marks are not, fixed blanks are spaces.
pub fn put_word(line: &LineBytes, from: usize, to: usize, buffer: &mut [u8], at: usize) -> usize
    requires { Places line.now from to × (at + width (bytes_between line.now from to) ≤ length buffer.old) }
    ensures { Written buffer.old at (printed (bytes_between line.now from to)) buffer.new result }
{
    let part = super::words::slice(line, from, to);
    let mut n = at;
    for &byte in part {
        if byte == MARK {
            continue;
        }
        buffer[n] = shown(byte);
        n += 1;
    }
    n
}

// Puts a gap behind the cells collected; the first of its cells is marked as such.
fn put_gap(cells: &mut LineBytes, count: usize, gap: usize) -> usize
    requires { (length cells.old ≡ 512) × (count + gap ≤ 512) }
    ensures { Written cells.old count (gap_cells gap) cells.new result }
{
    if gap == 0 {
        return count;
    }
    cells[count] = GAP_START;
    put_run(&mut *cells, count + 1, gap - 1, b' ');
    count + gap
}

// The first word of a collected line. "Leading spaces .. stand as fixed blanks."
pub fn begin_line(
    line: &LineBytes,
    lead: Cells,
    from: usize,
    to: usize,
    cells: &mut LineBytes,
) -> usize
    requires { Places line.now from to × (across_of lead ≤ from) × (length cells.old ≡ 512) }
    ensures written { Written cells.old 0 (printed (replicate (across_of lead) fixed_blank ++ bytes_between line.now from to)) cells.new result }
    ensures places { Places cells.new 0 result }
{
    let n = super::words::count(lead);
    put_run(&mut *cells, 0, n, b' ');
    put_word(line, from, to, &mut *cells, n)
}

// Words join the collected line until one does not fit: how many cells are collected then, or the full line. The first one's gap is given, the others have their own.
pub fn place(
    line: &LineBytes,
    at: usize,
    to: usize,
    gap: Cells,
    cells: &mut LineBytes,
    length: usize,
    room: Cells,
) -> Result<usize, Overflow>
    requires { Places line.now at to × (across_of gap ≤ 512) × CollectedInvariant cells.old length (across_of room) }
    ensures { PlacedTo line.now at to (after (across_of gap) (words (bytes_between line.now at to))) cells.old length (across_of room) result cells.new }
{
    let limit = super::words::count(room);
    let mut from = super::words::skip_spaces(line, at, to);
    let mut before = super::words::count(gap);
    let mut n = length;
    // a turn goes on by a word and the gap behind it
    while from < to {
        let word = super::words::word_end(line, from, to);
        let end = word.to;
        let width = word.width;
        if limit < n + before + super::words::count(width) {
            return Err(Overflow {
                length: n,
                gap: super::words::as_cells(before),
                from,
                to: end,
                width,
            });
        }
        n = put_gap(&mut *cells, n, before);
        n = put_word(line, from, end, &mut *cells, n);
        from = super::words::skip_spaces(line, end, to);
        before = from - end;
    }
    Ok(n)
}

// The same for words that all have their own gaps, as those behind a word that did not fit.
pub fn place_others(
    line: &LineBytes,
    at: usize,
    to: usize,
    cells: &mut LineBytes,
    length: usize,
    room: Cells,
) -> Result<usize, Overflow>
    requires { Places line.now at to × CollectedInvariant cells.old length (across_of room) }
    ensures { PlacedTo line.now at to (words (bytes_between line.now at to)) cells.old length (across_of room) result cells.new }
{
    let from = super::words::skip_spaces(line, at, to);
    let gap = super::words::as_cells(from - at);
    place(line, from, to, gap, &mut *cells, length, room)
}
