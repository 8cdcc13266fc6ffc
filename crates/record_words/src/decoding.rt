// The parts of a place are read from plain words.
ghost use Rattle.std.specs.Prelude.{◌≡◌, ◌+◌, ◌*◌, ◌<◌, min, length};
ghost use Rattle.measure.specs.Counts.{cells_across};
ghost use Rattle.record_words.specs.Decoding.Words.{Short, word_at, count_at, is_set, cells_at, rows_at, setting_at, name_from, name_at, total_by, layout_in, page_in, collected_in, counts_in, opening_in, source_from_words, waiting_in, closing_by, closing_in, trap_at, planted_in};

use super::places;
use composition::page_rows::Collected;
use measure::{Cells, Rows};
use page::position::Page;
use record::{Closing, Waiting};
use rules::arrays::RecordWords;
use rules::{Name, Trap};
use settings::layout::Layout;
use settings::lengths::Setting;
use source_line::Source;
use state::Opening;
use std::array::from_fn;
use traps::table::Planted;

// The items on the input stack, the texts and the registers that there are.
#[derive(Clone, Copy)]
pub struct Counts {
    pub depth: usize,
    pub texts: usize,
    pub registers: usize,
}

// A count; a word below 0 is none.
fn count_at(words: &RecordWords, at: usize) -> u32
    requires { at < 68 }
    ensures { (result ≡ count_at words.now at) × Short result }
{
    words[at].max(0) as u32
}

// A count as a size: `usize` has no `From<u32>`.
fn size_at(words: &RecordWords, at: usize) -> usize
    requires { at < 68 }
    ensures { (result ≡ count_at words.now at) × Short result }
{
    count_at(words, at) as usize
}

// A count, or the largest of its type if it is larger.
fn short_at(words: &RecordWords, at: usize) -> u16
    requires { at < 68 }
    ensures { result ≡ min (count_at words.now at) 65535 }
{
    count_at(words, at).min(65535) as u16
}

fn byte_at(words: &RecordWords, at: usize) -> u8
    requires { at < 68 }
    ensures { result ≡ min (count_at words.now at) 255 }
{
    count_at(words, at).min(255) as u8
}

// Any word but 0 is true.
fn flag_at(words: &RecordWords, at: usize) -> bool
    requires { at < 68 }
    ensures { result ≡ is_set (word_at words.now at) }
{
    words[at] != 0
}

// A gap is a count of cells.
fn gap_at(words: &RecordWords, at: usize) -> Cells
    requires { at < 68 }
    ensures { result ≡ cells_across (count_at words.now at) }
{
    Cells(count_at(words, at) as i32)
}

fn setting_at(words: &RecordWords, at: usize) -> Setting
    requires { at < 67 }
    ensures { result ≡ setting_at words.now at }
{
    Setting {
        now: Cells(words[at]),
        former: Cells(words[at + 1]),
    }
}

// A name of two bytes: `From` knows nothing of a quotient and a remainder by 256.
fn name_of(number: u16) -> Name
    ensures { result ≡ name_from number }
{
    Name {
        first: (number / 256) as u8,
        second: (number % 256) as u8,
    }
}

fn name_at(words: &RecordWords, at: usize) -> Name
    requires { at < 68 }
    ensures { result ≡ name_at words.now at }
{
    name_of(short_at(words, at))
}

fn total_by(there: bool, count: Cells) -> Option<Cells>
    ensures { result ≡ total_by there count }
{
    there.then_some(count)
}

pub fn layout(words: &RecordWords) -> Layout
    ensures { result ≡ layout_in words.now }
{
    Layout {
        line: setting_at(words, places::LINE_LENGTH),
        indent: setting_at(words, places::INDENT),
        offset: setting_at(words, places::OFFSET),
        page: Rows(words[places::PAGE_LENGTH]),
        total: total_by(
            flag_at(words, places::HAS_TOTAL),
            Cells(words[places::TOTAL]),
        ),
        filling: flag_at(words, places::FILLING),
        adjusting: flag_at(words, places::ADJUSTING),
        centred: count_at(words, places::CENTRED),
    }
}

pub fn page(words: &RecordWords) -> Page
    ensures { result ≡ page_in words.now }
{
    Page {
        number: count_at(words, places::PAGE_NUMBER),
        used: Rows(words[places::ROWS_USED]),
        last: flag_at(words, places::IS_LAST_PAGE),
    }
}

pub fn collected(words: &RecordWords) -> Collected
    ensures { result ≡ collected_in words.now }
{
    Collected {
        there: flag_at(words, places::HAS_LINE),
        indent: Cells(words[places::LINE_INDENT]),
        room: Cells(words[places::LINE_ROOM]),
        length: size_at(words, places::LINE_CELLS),
        next: gap_at(words, places::NEXT_GAP),
    }
}

pub fn counts_in(words: &RecordWords) -> Counts
    ensures { result ≡ counts_in words.now }
{
    Counts {
        depth: size_at(words, places::STACK_DEPTH),
        texts: size_at(words, places::TEXT_COUNT),
        registers: size_at(words, places::REGISTER_COUNT),
    }
}

pub fn opening(words: &RecordWords) -> Opening
    ensures { (result ≡ opening_in words.now) × Short result.length }
{
    Opening {
        there: flag_at(words, places::HAS_OPENING),
        name: name_at(words, places::OPENING_NAME),
        length: size_at(words, places::OPENING_LENGTH),
    }
}

pub fn source(words: &RecordWords) -> Source
    ensures { result ≡ source_from_words words.now }
{
    Source {
        line: count_at(words, places::SOURCE_LINES),
        length: size_at(words, places::GATHERED_LENGTH),
        ended: flag_at(words, places::IS_ENDED),
        stored: short_at(words, places::STORED_LINES),
    }
}

pub fn waiting(words: &RecordWords) -> Waiting
    ensures { result ≡ waiting_in words.now }
{
    Waiting {
        at: size_at(words, places::WAITING_FROM),
        end: size_at(words, places::WAITING_END),
    }
}

fn closing_by(there: bool, tag: u32, number: u8, line: u32) -> Closing
    ensures { result ≡ closing_by there tag number line }
{
    if !there {
        return Closing::Open;
    }
    if tag == 1 {
        return Closing::Done;
    }
    Closing::Refused(number, line)
}

pub fn closing(words: &RecordWords) -> Closing
    ensures { result ≡ closing_in words.now }
{
    let there = flag_at(words, places::CLOSING_TAG);
    let tag = count_at(words, places::CLOSING_TAG);
    closing_by(
        there,
        tag,
        byte_at(words, places::REFUSAL_NUMBER),
        count_at(words, places::REFUSAL_LINE),
    )
}

// A trap by its number, from 0.
fn trap_at(words: &RecordWords, i: usize) -> Trap
    requires { i < 16 }
    ensures { result ≡ trap_at words.now (36 + 2 * i) }
{
    let at = places::TRAPS + 2 * i;
    Trap {
        place: Rows(words[at]),
        name: name_at(words, at + 1),
    }
}

pub fn planted(words: &RecordWords) -> Planted
    ensures { result ≡ planted_in words.now }
{
    Planted {
        traps: from_fn(|i| trap_at(words, i)),
        count: size_at(words, places::TRAP_COUNT),
    }
}
