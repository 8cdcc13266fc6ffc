// Whether a lent record keeps to its limits: "1: store not 8,192 long, or the record breaks a limit below". docs/RECORD.md lists the tests.
ghost use Rattle.std.specs.Prelude.{◌≡◌, not, ◌||◌, ◌+◌, ◌≤◌, ◌<◌, length};
ghost use Rattle.rules.specs.Rows.{the_end};
ghost use Rattle.registers.specs.Checks.Checks as registers;
ghost use Rattle.texts.specs.Table.Table.{Names, names_of};
ghost use Rattle.traps.specs.Table.Table.{planted_of};
ghost use Rattle.record_checks.specs.StateLimits.LimitChecks.{LentTables, are_places, is_gone, are_tables, is_ranged, are_settings, odd_byte, is_gathered, is_layered, is_deep, is_next, is_open_over, is_pile, is_within};

use input_stack::stack::Stack;
use measure::Rows;
use rules::arrays::{ByteColumn, LINE_SIZE, LineBytes, NumberColumn, STACK_ITEMS, StackEnds};
use settings::layout::Layout;
use settings::lengths::Setting;
use state::{Opening, Status};
use traps::table::Planted;

// The row of a trap: "result outside ±1,000,000,000"
fn is_place(place: Rows) -> bool
    ensures { result ≡ registers.in_bounds place.0 }
{
    place.0.unsigned_abs() <= 1_000_000_000
}

// Whether the row of each trap is the result of an expression.
fn are_places(planted: Planted) -> bool
    requires { planted.count ≤ 16 }
    ensures { result ≡ are_places (planted_of planted) }
{
    planted.traps[..planted.count]
        .iter()
        .all(|trap| is_place(trap.place))
}

// Whether no text has the name of an open definition.
fn is_gone(opening: Opening, firsts: &ByteColumn, seconds: &ByteColumn, count: usize) -> bool
    requires { Names firsts.now seconds.now count }
    ensures { result ≡ is_gone opening.there opening.name (names_of firsts.now seconds.now count) }
{
    !opening.there || !super::soundness::is_there(firsts, seconds, count, opening.name)
}

// The numbers of registers and traps, and the names of texts.
#[tactic(auto, unfolding(crate::specs::StateLimits::LimitChecks::are_tables))]
fn are_tables(
    status: Status,
    text_firsts: &ByteColumn,
    text_seconds: &ByteColumn,
    values: &NumberColumn,
    steps: &NumberColumn,
) -> bool
    requires { LentTables text_firsts.now text_seconds.now values.now steps.now }
    ensures { result ≡ are_tables status text_firsts.now text_seconds.now values.now steps.now }
{
    registers::checks::is_bounded(values, steps, status.registers)
        && traps::table::is_table(status.planted)
        && are_places(status.planted)
        && texts::table::no_name_twice(text_firsts, text_seconds, status.texts)
        && is_gone(status.opening, text_firsts, text_seconds, status.texts)
}

// "ll 1 to 240 cells", and the value before.
fn is_ranged(line: Setting) -> bool
    ensures { result ≡ is_ranged line }
{
    let range = 1..=240;
    range.contains(&measure::across(line.now)) && range.contains(&measure::across(line.former))
}

// The settings whose range has an end that no work asks for.
#[tactic(auto, unfolding(crate::specs::StateLimits::LimitChecks::are_settings))]
fn are_settings(layout: Layout) -> bool
    ensures { result ≡ are_settings layout }
{
    is_ranged(layout.line) && layout.centred <= 1_000_000_000
}

// A byte that no source line has.
fn odd_byte(byte: u8) -> bool
    ensures { result ≡ odd_byte byte }
{
    !(32..=126).contains(&byte)
}

// Whether at most 512 bytes are gathered, each of which may stand in a source line. All are looked at, so that many are at once.
fn is_gathered(gathered: &LineBytes, count: usize) -> bool
    requires { length gathered.now ≡ 512 }
    ensures { result ≡ is_gathered gathered.now count }
{
    if LINE_SIZE < count {
        return false;
    }
    !gathered[..count]
        .iter()
        .fold(false, |odd, &byte| odd | odd_byte(byte))
}

// Whether each item that is no text lies on a text, or at the bottom.
fn is_layered(stack: Stack, ends: &StackEnds) -> bool
    ensures { result ≡ is_layered stack ends.now }
{
    if STACK_ITEMS < stack.depth {
        return false;
    }
    let mut below = true;
    for i in 0..stack.depth {
        let text = super::soundness::is_text(input_stack::stack::entry_at(ends, i).what);
        if !text && !below {
            return false;
        }
        below = text;
    }
    true
}

// The end is an item too, once it has begun.
fn the_end(last: bool) -> usize
    ensures { result ≡ the_end last }
{
    usize::from(last)
}

// "input stack past 16 items", with the end among them.
fn is_deep(last: bool, stack: Stack, ends: &StackEnds) -> bool
    ensures { result ≡ is_deep last stack ends.now }
{
    if STACK_ITEMS < stack.depth {
        return false;
    }
    let items = stack.depth + the_end(last);
    if items <= 16 {
        return true;
    }
    if STACK_ITEMS < items {
        return false;
    }
    !super::soundness::is_text(input_stack::stack::top(stack, ends).what)
}

// Whether a line of the source or of a text comes next.
fn is_next(stack: Stack, ends: &StackEnds) -> bool
    requires { stack.depth ≤ 17 }
    ensures { result ≡ is_next stack ends.now }
{
    stack.depth == 0 || super::soundness::is_text(input_stack::stack::top(stack, ends).what)
}

// While a definition is open, in a session that is not closed, lines come next.
fn is_open_over(running: bool, there: bool, stack: Stack, ends: &StackEnds) -> bool
    requires { stack.depth ≤ 17 }
    ensures { result ≡ is_open_over running there stack ends.now }
{
    !running || !there || is_next(stack, ends)
}

// The items on the input stack, over one another and below the end.
#[tactic(auto, unfolding(crate::specs::StateLimits::LimitChecks::is_pile))]
fn is_pile(status: Status, running: bool, ends: &StackEnds) -> bool
    ensures { result ≡ is_pile status running ends.now }
{
    is_layered(status.stack, ends)
        && is_deep(status.page.last, status.stack, ends)
        && is_open_over(running, status.opening.there, status.stack, ends)
}

// Whether a record keeps to the limits that every state of the rules keeps to, with so many bytes gathered, in a session that is open or closed.
#[tactic(auto, unfolding(crate::specs::StateLimits::LimitChecks::is_within))]
pub fn is_within(
    status: Status,
    running: bool,
    ends: &StackEnds,
    gathered: &LineBytes,
    count: usize,
    text_firsts: &ByteColumn,
    text_seconds: &ByteColumn,
    values: &NumberColumn,
    steps: &NumberColumn,
) -> bool
    requires { (length gathered.now ≡ 512) × LentTables text_firsts.now text_seconds.now values.now steps.now }
    ensures { result ≡ is_within status running ends.now gathered.now count text_firsts.now text_seconds.now values.now steps.now }
{
    are_tables(status, text_firsts, text_seconds, values, steps)
        && are_settings(status.layout)
        && is_gathered(gathered, count)
        && is_pile(status, running, ends)
}
