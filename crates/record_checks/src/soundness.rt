// Whether the parts of a record are what the functions that use them require.
ghost use Rattle.std.specs.Prelude.{◌≡◌, ◌+◌, ◌*◌, ◌≤◌, ◌<◌, length, take, drop};
ghost use Rattle.texts.specs.Table.Table.{Names, names_of, total_length};
ghost use Rattle.texts.specs.Table.Places.{text_place};
ghost use Rattle.page.specs.Springs.Held.{is_text};
ghost use Rattle.record_checks.specs.Soundness.Checks.{Lent, is_setting, is_length, is_total, is_layout, is_page, is_gap, is_collected, is_page_state, are_arguments, is_at, is_item, is_frame, is_depth, is_stack, is_opening, are_texts, is_sound};

use composition::page_rows::Collected;
use input_stack::frames::What;
use input_stack::stack::{Entry, Stack};
use measure::{Cells, Rows};
use page::position::Page;
use rules::Name;
use rules::arrays::{
    ByteColumn, ITEM_HEAD, ITEM_WORDS, LINE_SIZE, LengthColumn, STACK_ITEMS, STORE_SIZE, StackEnds,
    TABLE_SIZE,
};
use settings::layout::Layout;
use settings::lengths::Setting;
use state::{Opening, Status};

// The cells of a line, as a width is counted.
const LINE_CELLS: u32 = LINE_SIZE as u32;

// The bytes of a line, as a frame counts its own.
const FRAME_SIZE: u16 = LINE_SIZE as u16;

// A setting and the value before it: at most so many cells.
fn is_setting(setting: Setting, most: u32) -> bool
    ensures { result ≡ is_setting most setting }
{
    measure::across(setting.now) <= most && measure::across(setting.former) <= most
}

// "pl 1 to 500 rows"
fn is_length(rows: Rows) -> bool
    ensures { result ≡ is_length rows }
{
    (1..=500).contains(&measure::down(rows))
}

// "the ti total 0 to 239"
fn is_total(total: Option<Cells>) -> bool
    ensures { result ≡ is_total total }
{
    match total {
        Some(cells) => measure::across(cells) <= 239,
        None => true,
    }
}

// "ll 1 to 240 cells, in and the ti total 0 to 239, po 0 to 120, pl 1 to 500 rows"
#[tactic(auto, unfolding(crate::specs::Soundness::Checks::is_layout))]
fn is_layout(layout: Layout) -> bool
    ensures { result ≡ is_layout layout }
{
    is_setting(layout.line, 240)
        && is_setting(layout.indent, 239)
        && is_setting(layout.offset, 120)
        && is_length(layout.page)
        && is_total(layout.total)
}

// A row of the page that is not behind its last, and one of 1,000,000 pages.
#[tactic(auto, unfolding(crate::specs::Soundness::Checks::is_page))]
fn is_page(page: Page, length: Rows) -> bool
    ensures { result ≡ is_page page length }
{
    measure::down(page.used) < measure::down(length) && page.number <= 1_000_000
}

// A gap of 0 to 2 cells.
fn is_gap(gap: Cells) -> bool
    ensures { result ≡ is_gap gap.0 }
{
    (0..=2).contains(&gap.0)
}

// A line within its cells, its room and indent within the settings' ranges, and a gap of at most 2.
#[tactic(auto, unfolding(crate::specs::Soundness::Checks::is_collected))]
fn is_collected(collected: Collected) -> bool
    ensures { result ≡ is_collected collected }
{
    collected.length <= LINE_SIZE
        && measure::across(collected.room) <= LINE_CELLS
        && measure::across(collected.indent) <= 239
        && is_gap(collected.next)
}

// The settings, the page, the collected line and the traps.
#[tactic(auto, unfolding(crate::specs::Soundness::Checks::is_page_state))]
fn is_page_state(status: Status) -> bool
    ensures { result ≡ is_page_state status }
{
    is_layout(status.layout)
        && is_page(status.page, status.layout.page)
        && is_collected(status.collected)
        && status.planted.count <= 16
}

// Whether there are at most nine arguments in a frame, each within so many bytes and not before it begins.
fn are_arguments(ends: &StackEnds, frame: usize, count: u8, size: u16) -> bool
    requires { (length ends.now ≡ 221) × (frame < 17) }
    ensures { result ≡ are_arguments (take 9 (drop (frame * 13 + 4) ends.now)) count size }
{
    if 9 < count {
        return false;
    }
    let at = frame * ITEM_WORDS + ITEM_HEAD;
    let given = &ends[at..at + usize::from(count)];
    let mut from: u16 = 0;
    for &end in given {
        if end < from || size < end {
            return false;
        }
        from = end;
    }
    true
}

// Whether there is a text of a name.
pub fn is_there(firsts: &ByteColumn, seconds: &ByteColumn, count: usize, name: Name) -> bool
    requires { Names firsts.now seconds.now count }
    ensures { result ≡ is_at (text_place name (names_of firsts.now seconds.now count)) }
{
    texts::table::find(firsts, seconds, count, name).is_some()
}

// A text that is read is there, with its arguments; a gap is at most 2.
#[tactic(auto, unfolding(crate::specs::Soundness::Checks::is_item))]
fn is_item(
    what: What,
    size: u16,
    frame: usize,
    ends: &StackEnds,
    firsts: &ByteColumn,
    seconds: &ByteColumn,
    count: usize,
) -> bool
    requires { Names firsts.now seconds.now count × (length ends.now ≡ 221) × (frame < 17) }
    ensures { result ≡ is_item (names_of firsts.now seconds.now count) what size (take 9 (drop (frame * 13 + 4) ends.now)) }
{
    match what {
        What::Reading(name, _, given) => {
            are_arguments(ends, frame, given, size) && is_there(firsts, seconds, count, name)
        }
        What::Others(gap) => gap <= 2,
        _ => true,
    }
}

// A frame within its bytes, of an item that keeps to its limits.
fn is_frame(
    entry: Entry,
    frame: usize,
    ends: &StackEnds,
    firsts: &ByteColumn,
    seconds: &ByteColumn,
    count: usize,
) -> bool
    requires { Names firsts.now seconds.now count × (length ends.now ≡ 221) × (frame < 17) }
    ensures { result ≡ is_frame (names_of firsts.now seconds.now count) entry (take 9 (drop (frame * 13 + 4) ends.now)) }
{
    entry.size <= FRAME_SIZE && is_item(entry.what, entry.size, frame, ends, firsts, seconds, count)
}

pub fn is_text(what: What) -> bool
    ensures { result ≡ is_text what }
{
    matches!(what, What::Reading(..))
}

// "input stack past 16 items": 16, and one that is no text for a moment over them.
fn is_depth(stack: Stack, ends: &StackEnds) -> bool
    ensures { result ≡ is_depth stack ends.now }
{
    if stack.depth <= 16 {
        return true;
    }
    if STACK_ITEMS < stack.depth {
        return false;
    }
    !is_text(input_stack::stack::top(stack, ends).what)
}

// The input stack, over texts of these names.
fn is_stack(
    stack: Stack,
    ends: &StackEnds,
    firsts: &ByteColumn,
    seconds: &ByteColumn,
    count: usize,
) -> bool
    requires { Names firsts.now seconds.now count × (length ends.now ≡ 221) }
    ensures { result ≡ is_stack (names_of firsts.now seconds.now count) stack ends.now }
{
    if !is_depth(stack, ends) {
        return false;
    }
    for i in 0..stack.depth {
        let entry = input_stack::stack::entry_at(ends, i);
        if !is_frame(entry, i, ends, firsts, seconds, count) {
            return false;
        }
    }
    true
}

// An open definition: its body lies behind the texts, within the store, and a row is left for it.
fn is_opening(opening: Opening, lengths: &LengthColumn, count: usize, store: usize) -> bool
    requires { total_length (take count lengths.now) ≤ 8192 }
    ensures { result ≡ is_opening opening lengths.now count store }
{
    if !opening.there {
        return true;
    }
    count < TABLE_SIZE
        && opening.length <= STORE_SIZE
        && texts::table::start_of(lengths, count) + opening.length <= store
}

// The texts lie within a store of 8,192 bytes, and an open definition behind them.
#[tactic(auto, unfolding(crate::specs::Soundness::Checks::are_texts))]
fn are_texts(status: Status, store: usize, lengths: &LengthColumn) -> bool
    ensures { result ≡ are_texts status store lengths.now }
{
    store == STORE_SIZE
        && texts::table::is_table(store, lengths, status.texts)
        && is_opening(status.opening, lengths, status.texts, store)
}

// Whether the parts of a record that work begins with keep to their limits, with a store of so many bytes.
#[tactic(auto, unfolding(crate::specs::Soundness::Checks::is_sound))]
pub fn is_sound(
    status: Status,
    store: usize,
    ends: &StackEnds,
    text_firsts: &ByteColumn,
    text_seconds: &ByteColumn,
    lengths: &LengthColumn,
    firsts: &ByteColumn,
    seconds: &ByteColumn,
) -> bool
    requires { Lent ends.now text_firsts.now text_seconds.now lengths.now firsts.now seconds.now }
    ensures { result ≡ is_sound status store ends.now text_firsts.now text_seconds.now lengths.now firsts.now seconds.now }
{
    is_page_state(status)
        && are_texts(status, store, lengths)
        && registers::checks::is_table(firsts, seconds, status.registers)
        && is_stack(status.stack, ends, text_firsts, text_seconds, status.texts)
}
