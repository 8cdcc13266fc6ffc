// Collected lines as they are printed.
ghost use Rattle.std.specs.Prelude.{◌≡◌, [], length, take, ◌+◌, ◌-◌, ◌≤◌, eqb};
ghost use Rattle.measure.specs.Counts.{across_of};
ghost use Rattle.fill.specs.Collected.Writing.{Written};
ghost use Rattle.rules.specs.Bytes.{gap_start};
ghost use Rattle.rules.specs.Filling.{words, gaps, spread, adjusted, more_if, few_after, spread_cell, level, row as row_of, left};
ghost use Rattle.fill.specs.Words.Parts.{bytes_between, Places};
ghost use Rattle.fill.specs.Collected.Filled.{collected_line, CollectedInvariant};
ghost use Rattle.fill.specs.Unfilled.Lines.{is_blank_cell, CellsEnd, RowRoom, Margins};

use measure::Cells;
use rules::GAP_START;
use rules::arrays::{LineBytes, RowBytes};

// The gaps of a collected line.
fn count_gaps(cells: &LineBytes, length: usize) -> usize
    requires { Places cells.now 0 length }
    ensures { result ≡ gaps (bytes_between cells.now 0 length) }
{
    super::words::slice(cells, 0, length)
        .iter()
        .filter(|&&byte| byte == GAP_START)
        .count()
}

// How a full line is spread: "e/k each, the last e mod k gaps one more".
#[derive(Clone, Copy)]
struct Share {
    each: usize,
    few: usize,
}

// "Lines written for overflow, with adjusting on, share the missing e cells over k gaps."
fn share_of(cells: &LineBytes, length: usize, room: usize, adjusting: bool) -> Share
    requires { Places cells.now 0 length }
    ensures { spread result.each result.few (bytes_between cells.now 0 length) ≡ adjusted adjusting (collected_line 0 room cells.now length 1) }
{
    if adjusting {
        let k = count_gaps(cells, length);
        if k == 0 {
            return Share { each: 0, few: 0 };
        }
        let e = super::unfilled::spare(room, length);
        return Share {
            each: e / k,
            few: k - e % k,
        };
    }
    Share {
        each: 0,
        few: length,
    }
}

// A cell that is printed as a blank.
fn is_blank_cell(byte: u8) -> bool
    ensures { result ≡ is_blank_cell byte }
{
    matches!(byte, b' ' | GAP_START)
}

// The place behind the last cell that is not printed as a blank.
fn cells_end(cells: &LineBytes, length: usize) -> usize
    requires { Places cells.now 0 length }
    ensures { CellsEnd cells.now length result }
{
    let all = super::words::slice(cells, 0, length);
    let blanks = all
        .iter()
        .rev()
        .take_while(|&&byte| is_blank_cell(byte))
        .count();
    length - blanks
}

// "the last e mod k gaps one more": those behind the first few.
fn more_if(few: usize) -> usize
    ensures value { result ≡ more_if few }
    ensures upper_bound { result ≤ 1 }
{
    usize::from(few == 0)
}

// How many gaps behind a cell have no cell more.
fn few_after(byte: u8, few: usize) -> usize
    ensures { result ≡ few_after (eqb byte gap_start) few }
{
    if byte == GAP_START {
        few.saturating_sub(1)
    } else {
        few
    }
}

// Puts a cell of a collected line into a row: the first of a gap is widened.
fn put_cell(row: &mut RowBytes, at: usize, byte: u8, each: usize, few: usize) -> usize
    requires { (length row.old ≡ 872) × (at + length (spread_cell (eqb byte gap_start) (each + more_if few) byte []) ≤ 872) }
    ensures { Written row.old at (spread_cell (eqb byte gap_start) (each + more_if few) byte []) row.new result }
{
    if byte == GAP_START {
        let n = each + more_if(few) + 1;
        super::collected::put_run(&mut *row, at, n, b' ');
        return at + n;
    }
    row[at] = byte;
    at + 1
}

// Puts a collected line into a row, its gaps widened.
fn spread_cells(
    cells: &LineBytes,
    length: usize,
    each: usize,
    few: usize,
    row: &mut RowBytes,
    at: usize,
) -> usize
    requires { Places cells.now 0 length × RowRoom row.old at (spread each few (bytes_between cells.now 0 length)) }
    ensures { Written row.old at (spread each few (bytes_between cells.now 0 length)) row.new result }
{
    let all = super::words::slice(cells, 0, length);
    let mut n = at;
    let mut left = few;
    for &byte in all {
        n = put_cell(&mut *row, n, byte, each, left);
        left = few_after(byte, left);
    }
    n
}

// Puts a collected line as a row: "po, indent, text, newline; blanks at a line's end are not written".
fn put_row(
    cells: &LineBytes,
    length: usize,
    each: usize,
    few: usize,
    blanks: usize,
    row: &mut RowBytes,
) -> usize
    requires { Places cells.now 0 length × RowRoom row.old (blanks + 1) (spread each few (bytes_between cells.now 0 length)) }
    ensures written { Written row.old 0 (row_of blanks (spread each few (bytes_between cells.now 0 length))) row.new result }
    ensures upper_bound { result ≤ 872 }
{
    let end = cells_end(cells, length);
    if end == 0 {
        row[0] = b'\n';
        return 1;
    }
    super::collected::put_run(&mut *row, 0, blanks, b' ');
    let n = spread_cells(cells, end, each, few, &mut *row, blanks);
    row[n] = b'\n';
    n + 1
}

// A collected line that a break writes.
pub fn broken_row(
    cells: &LineBytes,
    length: usize,
    offset: Cells,
    indent: Cells,
    row: &mut RowBytes,
) -> usize
    requires { Places cells.now 0 length × Margins row.old offset indent }
    ensures written { Written row.old 0 (row_of (across_of offset + across_of indent) (level (take length cells.now))) row.new result }
    ensures upper_bound { result ≤ 872 }
{
    let blanks = super::words::count(offset) + super::words::count(indent);
    put_row(cells, length, 0, length, blanks, row)
}

// A collected line that is written for overflow.
pub fn full_row(
    cells: &LineBytes,
    length: usize,
    room: Cells,
    adjusting: bool,
    offset: Cells,
    indent: Cells,
    row: &mut RowBytes,
) -> usize
    requires { CollectedInvariant cells.now length (across_of room) × Margins row.old offset indent }
    ensures written { Written row.old 0 (row_of (across_of offset + across_of indent) (adjusted adjusting (collected_line (across_of indent) (across_of room) cells.now length 1))) row.new result }
    ensures upper_bound { result ≤ 872 }
{
    let blanks = super::words::count(offset) + super::words::count(indent);
    let share = share_of(cells, length, super::words::count(room), adjusting);
    put_row(cells, length, share.each, share.few, blanks, row)
}
