// The input stack as a page goes on: texts that are called, the trap that a row reaches, and what is held over it.
ghost use Rattle.std.specs.Prelude.{◌≡◌, ◌≤◌, length};
ghost use Rattle.measure.specs.Counts.{down_of};
ghost use Rattle.rules.specs.Rows as rule;
ghost use Rattle.scan.specs.Arguments.Around.{Arguments};
ghost use Rattle.texts.specs.Table.Table.{Names};
ghost use Rattle.page.specs.Position.Landing.{PositionInvariant, landing_is};
ghost use Rattle.page.specs.Springs.Held.{Plain, StackReady, HeldTo};
ghost use Rattle.page.specs.Springs.Calls.{TextCallRefines, TrapRefines, LandingRefines, landed_from, MoveRefines};

use super::position::{Page, Reached};
use input_stack::frames::What;
use input_stack::stack::Stack;
use measure::Rows;
use rules::arrays::{ARGUMENT_COUNT, ArgumentEnds, ByteColumn, StackBytes, StackEnds};
use rules::{Name, Refusal};
use traps::table::Planted;

// Whether the session goes on, or how it is closed. No Result: the contracts say what the state is after a refusal too.
#[derive(Clone, Copy)]
pub enum Way {
    On,
    Done,
    // the refusal's number, any that a caller has
    Refused(u8),
}

// Where a move down the page leads.
#[derive(Clone, Copy)]
pub struct Landed {
    pub way: Way,
    pub page: Page,
    pub stack: Stack,
}

// What is held goes onto the stack.
pub fn hold(
    held: Option<What>,
    bytes: &[u8],
    stack: Stack,
    arena: &mut StackBytes,
    ends: &mut StackEnds,
) -> Stack
    requires { StackReady stack arena.old ends.old bytes.now }
    ensures { HeldTo held bytes.now stack arena.old ends.old result arena.new ends.new }
{
    let Some(what) = held else {
        return stack;
    };
    input_stack::stack::push(stack, arena, ends, what, bytes, &[0; ARGUMENT_COUNT])
}

// A text goes onto the stack with the arguments of its call, over what is held: "10: input stack past 16 items".
pub fn call(
    name: Name,
    count: u8,
    arguments: &[u8],
    given: &ArgumentEnds,
    held: Option<What>,
    bytes: &[u8],
    last: bool,
    stack: Stack,
    arena: &mut StackBytes,
    ends: &mut StackEnds,
) -> Result<Stack, Refusal>
    requires { StackReady stack arena.old ends.old bytes.now × Plain held × (length arguments.now ≤ 512) × Arguments arguments.now given.now count }
    ensures { TextCallRefines name count arguments.now given.now held bytes.now last stack arena.old ends.old result arena.new ends.new }
{
    // the end is an item too, once it has begun
    let items = stack.depth + usize::from(held.is_some()) + 1 + usize::from(last);
    if items > 16 {
        return Err(Refusal::DeepStack);
    }
    let under = hold(held, bytes, stack, &mut *arena, &mut *ends);
    Ok(input_stack::stack::push(
        under,
        &mut *arena,
        &mut *ends,
        What::Reading(name, 0, count),
        arguments,
        given,
    ))
}

// The trap that is seen at a row springs: "a name with no user text springs nothing".
pub fn spring(
    found: Option<Name>,
    last: bool,
    held: Option<What>,
    bytes: &[u8],
    stack: Stack,
    arena: &mut StackBytes,
    ends: &mut StackEnds,
    firsts: &ByteColumn,
    seconds: &ByteColumn,
    texts: usize,
) -> Result<Stack, Refusal>
    requires { StackReady stack arena.old ends.old bytes.now × Plain held × Names firsts.now seconds.now texts }
    ensures { TrapRefines found last held bytes.now stack arena.old ends.old firsts.now seconds.now texts result arena.new ends.new }
{
    match found {
        Some(name) if texts::table::find(firsts, seconds, texts, name).is_some() => {
            let none = [0; ARGUMENT_COUNT];
            call(name, 0, &[], &none, held, bytes, last, stack, arena, ends)
        }
        _ => Ok(hold(held, bytes, stack, arena, ends)),
    }
}

// The answer of a call on a page: where it is refused, the stack is as before.
fn land_called(called: Result<Stack, Refusal>, page: Page, stack: Stack) -> Landed
    ensures { result ≡ landed_from called page stack }
{
    match called {
        Ok(over) => Landed {
            way: Way::On,
            page,
            stack: over,
        },
        Err(refusal) => Landed {
            way: Way::Refused(refusal.number()),
            page,
            stack,
        },
    }
}

// What a move down leads to on the stack.
fn land(
    moved: Result<Option<Reached>, Refusal>,
    page: Page,
    held: Option<What>,
    bytes: &[u8],
    stack: Stack,
    arena: &mut StackBytes,
    ends: &mut StackEnds,
    firsts: &ByteColumn,
    seconds: &ByteColumn,
    texts: usize,
) -> Landed
    requires { StackReady stack arena.old ends.old bytes.now × Plain held × Names firsts.now seconds.now texts }
    ensures { LandingRefines (landing_is moved) page held bytes.now stack arena.old ends.old firsts.now seconds.now texts result arena.new ends.new }
{
    match moved {
        Ok(Some(reached)) => {
            let called = spring(
                reached.trap,
                reached.page.last,
                held,
                bytes,
                stack,
                arena,
                ends,
                firsts,
                seconds,
                texts,
            );
            land_called(called, reached.page, stack)
        }
        Ok(None) => Landed {
            way: Way::Done,
            page,
            stack,
        },
        Err(refusal) => Landed {
            way: Way::Refused(refusal.number()),
            page,
            stack,
        },
    }
}

// "A written row moves down by one and springs the trap it reaches."
pub fn down(
    rows: Rows,
    page: Page,
    length: Rows,
    planted: Planted,
    held: Option<What>,
    bytes: &[u8],
    stack: Stack,
    arena: &mut StackBytes,
    ends: &mut StackEnds,
    firsts: &ByteColumn,
    seconds: &ByteColumn,
    texts: usize,
) -> Landed
    requires { PositionInvariant page length planted × StackReady stack arena.old ends.old bytes.now × Plain held × Names firsts.now seconds.now texts }
    ensures { MoveRefines (rule.down (down_of rows)) page length planted held bytes.now stack arena.old ends.old firsts.now seconds.now texts result arena.new ends.new }
{
    let moved = super::position::move_down(page, rows, length, planted);
    land(
        moved, page, held, bytes, stack, arena, ends, firsts, seconds, texts,
    )
}

// The next page starts and springs row 0.
pub fn start_page(
    page: Page,
    length: Rows,
    planted: Planted,
    held: Option<What>,
    bytes: &[u8],
    stack: Stack,
    arena: &mut StackBytes,
    ends: &mut StackEnds,
    firsts: &ByteColumn,
    seconds: &ByteColumn,
    texts: usize,
) -> Landed
    requires { PositionInvariant page length planted × StackReady stack arena.old ends.old bytes.now × Plain held × Names firsts.now seconds.now texts }
    ensures { MoveRefines rule.start_page page length planted held bytes.now stack arena.old ends.old firsts.now seconds.now texts result arena.new ends.new }
{
    let moved = super::position::start_page(page, length, planted);
    land(
        moved, page, held, bytes, stack, arena, ends, firsts, seconds, texts,
    )
}
