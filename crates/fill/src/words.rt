// The words of an expanded line and the gaps between them.
ghost use Rattle.std.specs.Prelude.{◌≡◌, ◌+◌, ◌-◌, ◌≤◌, eqb, length};
ghost use Rattle.measure.specs.Counts.{across_of, cells_across};
ghost use Rattle.rules.specs.Bytes.{mark};
ghost use Rattle.rules.specs.Filling.{words, count_if, leads as leadsOf, trimmed, is_stop, gap_if, gap_after, width};
ghost use Rattle.fill.specs.Words.Parts.{bytes_between, Places};
ghost use Rattle.fill.specs.Words.Words.{spaces, WordEndIs, words_from, GoodNext, is_none};

use measure::Cells;
use rules::MARK;
use rules::arrays::LineBytes;

// The place behind a word, and the word's width.
#[derive(Clone, Copy)]
pub struct WordEnd {
    pub to: usize,
    pub width: Cells,
}

// A word of a line: the gap before it, where it stands, and its width.
#[derive(Clone, Copy)]
pub struct WordAt {
    pub gap: Cells,
    pub from: usize,
    pub to: usize,
    pub width: Cells,
}

// The bytes of a line from a place up to another.
#[tactic(auto, unfolding(crate::specs::Words::Parts::bytes_between))]
pub fn slice(bytes: &[u8], at: usize, to: usize) -> &[u8]
    requires { (at ≤ to) × (to ≤ length bytes.now) }
    ensures { result.now ≡ bytes_between bytes.now at to }
{
    &bytes[at..to]
}

// The place behind the spaces that lead.
pub fn skip_spaces(line: &LineBytes, at: usize, to: usize) -> usize
    requires { Places line.now at to }
    ensures value { result ≡ at + spaces (bytes_between line.now at to) }
    ensures lower_bound { (at ≤ result) × (result ≤ to) }
{
    let spaces = slice(line, at, to)
        .iter()
        .take_while(|&&byte| byte == b' ')
        .count();
    at + spaces
}

// "a mark of no width"
fn cell_of(byte: u8) -> usize
    ensures value { result ≡ count_if (eqb byte mark) 0 }
    ensures upper_bound { result ≤ 1 }
{
    usize::from(byte != MARK)
}

// The end of the word that begins at a place, and its width, in one pass.
pub fn word_end(line: &LineBytes, at: usize, to: usize) -> WordEnd
    requires { Places line.now at to }
    ensures { WordEndIs line.now at to result }
{
    let mut width = 0;
    for i in at..to {
        let byte = line[i];
        if byte == b' ' {
            return WordEnd {
                to: i,
                width: as_cells(width),
            };
        }
        width += cell_of(byte);
    }
    WordEnd {
        to,
        width: as_cells(width),
    }
}

// The width of a part of a line: "a mark of no width".
pub fn width_of(line: &LineBytes, at: usize, to: usize) -> Cells
    requires { Places line.now at to }
    ensures { result ≡ cells_across (width (bytes_between line.now at to)) }
{
    let cells = slice(line, at, to)
        .iter()
        .filter(|&&byte| byte != MARK)
        .count();
    as_cells(cells)
}

// The first word of a part of a line, if there is one.
pub fn next_word(line: &LineBytes, at: usize, to: usize) -> Option<WordAt>
    requires { Places line.now at to }
    ensures result_value { words_from line.now to result ≡ words (bytes_between line.now at to) }
    ensures good_next { GoodNext line.now at to result }
{
    let from = skip_spaces(line, at, to);
    if from == to {
        return None;
    }
    let end = word_end(line, from, to);
    let width = end.width;
    Some(WordAt {
        gap: as_cells(from - at),
        from,
        to: end.to,
        width,
    })
}

// "A line that, as expanded, has no bytes or only spaces"
#[tactic(auto, using(crate::proofs::words::Words::none_is))]
pub fn is_blank(line: &LineBytes, at: usize, to: usize) -> bool
    requires { Places line.now at to }
    ensures { result ≡ is_none (words (bytes_between line.now at to)) }
{
    skip_spaces(line, at, to) == to
}

// "Leading spaces break": whether there are any before a word.
pub fn leads(line: &LineBytes, at: usize, to: usize) -> bool
    requires { Places line.now at to }
    ensures { result ≡ leadsOf (words (bytes_between line.now at to)) }
{
    let from = skip_spaces(line, at, to);
    at < from && from < to
}

// The place behind the last byte that is no space: "trailing spaces are dropped".
pub fn trim_end(line: &LineBytes, at: usize, to: usize) -> usize
    requires { Places line.now at to }
    ensures result_value { bytes_between line.now at result ≡ trimmed (bytes_between line.now at to) }
    ensures lower_bound { (at ≤ result) × (result ≤ to) }
{
    let spaces = slice(line, at, to)
        .iter()
        .rev()
        .take_while(|&&last| last == b' ')
        .count();
    to - spaces
}

// "the gap between input lines is 1, or 2 after a line ending in . ? !"
fn gap_behind(byte: u8) -> Cells
    ensures value { result ≡ cells_across (gap_if (is_stop byte)) }
    ensures result_bound { across_of result ≤ 2 }
{
    match byte {
        b'.' | b'?' | b'!' => Cells(2),
        _ => Cells(1),
    }
}

// The gap that a line's ending asks for.
pub fn gap_after(line: &LineBytes, at: usize, to: usize) -> Cells
    requires { Places line.now at to }
    ensures value { result ≡ cells_across (gap_after (words (bytes_between line.now at to))) }
    ensures result_bound { across_of result ≤ 2 }
{
    let end = trim_end(line, at, to);
    if end == at {
        return Cells(1);
    }
    gap_behind(line[end - 1])
}

// So many cells of a line.
pub fn as_cells(count: usize) -> Cells
    requires { count ≤ 512 }
    ensures { result ≡ cells_across count }
{
    measure::cells_across(count as u16)
}

// A count of cells as a plain number: `usize` has no `From<u32>`.
pub fn count(cells: Cells) -> usize
    ensures { result ≡ across_of cells }
{
    measure::across(cells) as usize
}
