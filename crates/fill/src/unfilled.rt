// Lines that are printed as they stand, and blank rows.
ghost use Rattle.std.specs.Prelude.{◌≡◌, length, ◌+◌, ◌-◌, ◌≤◌};
ghost use Rattle.measure.specs.Counts.{across_of, down_of};
ghost use Rattle.fill.specs.Collected.Writing.{Written};
ghost use Rattle.rules.specs.Filling.{words, width, printed, row as row_of, left};
ghost use Rattle.rules.specs.Traps.{blank_rows};
ghost use Rattle.fill.specs.Words.Parts.{bytes_between, Places};
ghost use Rattle.fill.specs.Unfilled.Lines.{RowRoom, Margins, one_if, is_blank_byte, TextEnd, standing_of};

use measure::{Cells, Rows};
use rules::arrays::{LineBytes, RowBytes};
use rules::{FIXED_BLANK, MARK};

// A count of rows as a plain number: `usize` has no `From<u32>`.
fn count_rows(rows: Rows) -> usize
    ensures { result ≡ down_of rows }
{
    measure::down(rows) as usize
}

// What is left of a count, none if more is taken.
pub fn spare(count: usize, taken: usize) -> usize
    ensures { result ≡ count - taken }
{
    count.saturating_sub(taken)
}

// "left blanks half the spare room, cut down, none if the line is wider"
fn left_blanks(line: &LineBytes, at: usize, to: usize, centred: bool, room: usize) -> usize
    requires { Places line.now at to }
    ensures { result ≡ left (one_if centred) (room - width (bytes_between line.now at to)) }
{
    if centred {
        let width = super::words::width_of(line, at, to);
        return spare(room, super::words::count(width)) / 2;
    }
    0
}

// A byte of which nothing or a blank is printed.
fn is_blank_byte(byte: u8) -> bool
    ensures { result ≡ is_blank_byte byte }
{
    matches!(byte, b' ' | FIXED_BLANK | MARK)
}

// The place behind the last byte of which more than a blank is printed.
fn text_end(line: &LineBytes, at: usize, to: usize) -> usize
    requires { Places line.now at to }
    ensures { TextEnd line.now at to result }
{
    let part = super::words::slice(line, at, to);
    let blanks = part
        .iter()
        .rev()
        .take_while(|&&byte| is_blank_byte(byte))
        .count();
    to - blanks
}

// Puts a part of a line as a row. A collected line's row has its cells spread, by another writer (rows::put_row).
fn put_text(line: &LineBytes, at: usize, to: usize, blanks: usize, row: &mut RowBytes) -> usize
    requires { Places line.now at to × RowRoom row.old (blanks + 1) (printed (bytes_between line.now at to)) }
    ensures written { Written row.old 0 (row_of blanks (printed (bytes_between line.now at to))) row.new result }
    ensures upper_bound { result ≤ 872 }
{
    let end = text_end(line, at, to);
    if end == at {
        row[0] = b'\n';
        return 1;
    }
    super::collected::put_run(&mut *row, 0, blanks, b' ');
    let n = super::collected::put_word(line, at, end, &mut *row, blanks);
    row[n] = b'\n';
    n + 1
}

// A line that is written as it stands, or centred.
pub fn standing_row(
    line: &LineBytes,
    at: usize,
    to: usize,
    centred: bool,
    room: Cells,
    offset: Cells,
    indent: Cells,
    row: &mut RowBytes,
) -> usize
    requires { Places line.now at to × (across_of room ≤ 512) × Margins row.old offset indent }
    ensures written { Written row.old 0 (standing_of (across_of offset) (across_of indent) (across_of room) centred (words (bytes_between line.now at to))) row.new result }
    ensures upper_bound { result ≤ 872 }
{
    let end = super::words::trim_end(line, at, to);
    let left = left_blanks(line, at, end, centred, super::words::count(room));
    let blanks = super::words::count(offset) + super::words::count(indent) + left;
    put_text(line, at, end, blanks, row)
}

// Blank rows.
pub fn blank_rows(rows: Rows, row: &mut RowBytes) -> usize
    requires { (length row.old ≡ 872) × (down_of rows ≤ 500) }
    ensures written { Written row.old 0 (blank_rows (down_of rows)) row.new result }
    ensures upper_bound { result ≤ 872 }
{
    let n = count_rows(rows);
    super::collected::put_run(&mut *row, 0, n, b'\n');
    n
}
