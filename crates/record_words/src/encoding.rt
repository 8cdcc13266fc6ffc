// The parts of a record that are no arrays, read from 68 plain words and written as them. Any words are read as parts.
ghost use Rattle.std.specs.Prelude.{◌≡◌, [], ◌∷◌, ◌+◌, ◌*◌, ◌<◌, ◌≤◌, length, set};
ghost use Rattle.std.proofs.lemmas.List.Edits.{sets};
ghost use Rattle.record_words.specs.Decoding.Words.{Short, word_of, flag_word, name_to_word, total_tag, total_value, layout_words, page_words, collected_words, counts_words, opening_words, source_words, waiting_words, closing_words, planted_words, TwoByteName, AllNamed, refusal_number, WordsWritten, core_from_words, PlaceWritten};

use super::decoding::Counts;
use super::places;
use composition::page_rows::Collected;
use input_stack::stack::Stack;
use measure::{Cells, Rows};
use page::position::Page;
use record::{Closing, RecordCore, Waiting};
use rules::arrays::{RECORD_WORDS, RecordWords};
use rules::{Name, Trap};
use settings::layout::Layout;
use settings::lengths::Setting;
use source_line::Source;
use state::{Opening, Status};
use traps::table::Planted;

// A count as a word; the largest word if it is larger than any.
fn word_of(count: usize) -> i32
    ensures { result ≡ word_of count }
{
    count.min(2147483647) as i32
}

fn put_count(words: &mut RecordWords, at: usize, count: usize)
    requires { at < 68 }
    ensures { words.new ≡ set words.old at (word_of count) }
{
    words[at] = word_of(count);
}

fn put_flag(words: &mut RecordWords, at: usize, flag: bool)
    requires { at < 68 }
    ensures { words.new ≡ set words.old at (flag_word flag) }
{
    words[at] = i32::from(flag);
}

fn put_name(words: &mut RecordWords, at: usize, name: Name)
    requires { at < 68 }
    ensures { (words.new ≡ set words.old at (name_to_word name)) × TwoByteName name }
{
    put_count(
        words,
        at,
        usize::from(name.first) * 256 + usize::from(name.second),
    );
}

fn put_setting(words: &mut RecordWords, at: usize, setting: Setting)
    requires { at < 67 }
    ensures { words.new ≡ set (set words.old at setting.now.0) (at + 1) setting.former.0 }
{
    words[at] = setting.now.0;
    words[at + 1] = setting.former.0;
}

fn put_total(words: &mut RecordWords, total: Option<Cells>)
    ensures { words.new ≡ sets words.old 7 (total_tag total ∷ total_value total ∷ []) }
{
    match total {
        Some(count) => {
            put_flag(words, places::HAS_TOTAL, true);
            words[places::TOTAL] = count.0;
        }
        None => {
            put_flag(words, places::HAS_TOTAL, false);
            put_count(words, places::TOTAL, 0);
        }
    }
}

fn put_layout(words: &mut RecordWords, layout: Layout)
    ensures { words.new ≡ sets words.old 0 (layout_words layout) }
{
    put_setting(words, places::LINE_LENGTH, layout.line);
    put_setting(words, places::INDENT, layout.indent);
    put_setting(words, places::OFFSET, layout.offset);
    words[places::PAGE_LENGTH] = layout.page.0;
    put_total(words, layout.total);
    put_flag(words, places::FILLING, layout.filling);
    put_flag(words, places::ADJUSTING, layout.adjusting);
    put_count(words, places::CENTRED, layout.centred as usize);
}

fn put_page(words: &mut RecordWords, page: Page)
    ensures { words.new ≡ sets words.old 12 (page_words page) }
{
    put_count(words, places::PAGE_NUMBER, page.number as usize);
    words[places::ROWS_USED] = page.used.0;
    put_flag(words, places::IS_LAST_PAGE, page.last);
}

fn put_collected(words: &mut RecordWords, collected: Collected)
    ensures { words.new ≡ sets words.old 15 (collected_words collected) }
{
    put_flag(words, places::HAS_LINE, collected.there);
    words[places::LINE_INDENT] = collected.indent.0;
    words[places::LINE_ROOM] = collected.room.0;
    put_count(words, places::LINE_CELLS, collected.length);
    put_count(
        words,
        places::NEXT_GAP,
        measure::across(collected.next) as usize,
    );
}

fn put_counts(words: &mut RecordWords, counts: Counts)
    ensures { words.new ≡ sets words.old 20 (counts_words counts) }
{
    put_count(words, places::STACK_DEPTH, counts.depth);
    put_count(words, places::TEXT_COUNT, counts.texts);
    put_count(words, places::REGISTER_COUNT, counts.registers);
}

fn put_opening(words: &mut RecordWords, opening: Opening)
    ensures { (words.new ≡ sets words.old 23 (opening_words opening)) × TwoByteName opening.name }
{
    put_flag(words, places::HAS_OPENING, opening.there);
    put_name(words, places::OPENING_NAME, opening.name);
    put_count(words, places::OPENING_LENGTH, opening.length);
}

fn put_source(words: &mut RecordWords, source: Source)
    ensures { (words.new ≡ sets words.old 26 (source_words source)) × (source.stored ≤ 65535) }
{
    put_count(words, places::SOURCE_LINES, source.line as usize);
    put_count(words, places::GATHERED_LENGTH, source.length);
    put_flag(words, places::IS_ENDED, source.ended);
    put_count(words, places::STORED_LINES, usize::from(source.stored));
}

fn put_waiting(words: &mut RecordWords, waiting: Waiting)
    ensures { words.new ≡ sets words.old 30 (waiting_words waiting) }
{
    put_count(words, places::WAITING_FROM, waiting.at);
    put_count(words, places::WAITING_END, waiting.end);
}

// The tag, the number and the line of a closing answer.
fn put_answer(words: &mut RecordWords, tag: usize, number: usize, line: usize)
    ensures { words.new ≡ sets words.old 32 (word_of tag ∷ word_of number ∷ word_of line ∷ []) }
{
    put_count(words, places::CLOSING_TAG, tag);
    put_count(words, places::REFUSAL_NUMBER, number);
    put_count(words, places::REFUSAL_LINE, line);
}

fn put_closing(words: &mut RecordWords, closing: Closing)
    ensures { (words.new ≡ sets words.old 32 (closing_words closing)) × (refusal_number closing ≤ 255) }
{
    match closing {
        Closing::Open => put_answer(words, 0, 0, 0),
        Closing::Done => put_answer(words, 1, 0, 0),
        Closing::Refused(number, line) => put_answer(words, 2, usize::from(number), line as usize),
    }
}

// A trap by its number, from 0.
fn put_trap(words: &mut RecordWords, i: usize, trap: Trap)
    requires { i < 16 }
    ensures { (words.new ≡ set (set words.old (36 + 2 * i) trap.place.0) (36 + 2 * i + 1) (name_to_word trap.name)) × TwoByteName trap.name }
{
    let at = places::TRAPS + 2 * i;
    words[at] = trap.place.0;
    put_name(words, at + 1, trap.name);
}

fn put_planted(words: &mut RecordWords, planted: Planted)
    ensures { (words.new ≡ sets words.old 35 (planted_words planted)) × (length planted.traps ≡ 16) × AllNamed planted.traps }
{
    put_count(words, places::TRAP_COUNT, planted.count);
    for i in 0..16 {
        put_trap(words, i, planted.traps[i]);
    }
}

// The words of all parts.
pub fn write(
    words: &mut RecordWords,
    layout: Layout,
    page: Page,
    collected: Collected,
    counts: Counts,
    opening: Opening,
    source: Source,
    waiting: Waiting,
    closing: Closing,
    planted: Planted,
)
    ensures { WordsWritten layout page collected counts opening source waiting closing planted words.new }
{
    *words = [0i32; RECORD_WORDS];
    put_layout(words, layout);
    put_page(words, page);
    put_collected(words, collected);
    put_counts(words, counts);
    put_opening(words, opening);
    put_source(words, source);
    put_waiting(words, waiting);
    put_closing(words, closing);
    put_planted(words, planted);
}

// The place of words.
pub fn place(words: &RecordWords) -> RecordCore
    ensures { (result ≡ core_from_words words.now) × Short result.status.opening.length }
{
    let counts = super::decoding::counts_in(words);
    RecordCore {
        status: Status {
            layout: super::decoding::layout(words),
            page: super::decoding::page(words),
            collected: super::decoding::collected(words),
            planted: super::decoding::planted(words),
            stack: Stack {
                depth: counts.depth,
            },
            texts: counts.texts,
            opening: super::decoding::opening(words),
            registers: counts.registers,
        },
        source: super::decoding::source(words),
        waiting: super::decoding::waiting(words),
        closing: super::decoding::closing(words),
    }
}

// A place as words.
pub fn write_place(words: &mut RecordWords, place: RecordCore)
    ensures { PlaceWritten place words.new }
{
    let status = place.status;
    let counts = Counts {
        depth: status.stack.depth,
        texts: status.texts,
        registers: status.registers,
    };
    write(
        words,
        status.layout,
        status.page,
        status.collected,
        counts,
        status.opening,
        place.source,
        place.waiting,
        place.closing,
        status.planted,
    );
}

// The one word of how many bytes the source line being taken has.
pub fn write_length(words: &mut RecordWords, length: usize)
    ensures { words.new ≡ set words.old 27 (word_of length) }
{
    put_count(words, places::GATHERED_LENGTH, length);
}
