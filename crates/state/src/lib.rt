#![tactic(auto)]

// The whole state that a line is dealt with in, but for its lent arrays.
ghost use Rattle.std.specs.Prelude.{◌≡◌};
ghost use Rattle.state.specs.Steps.{stayed, moved_to, with_register_count, with_planted, with_text_count, with_status_stack};

use composition::page_rows::{Collected, PageOutcome};
use input_stack::stack::Stack;
use page::position::Page;
use page::springs::Way;
use rules::Name;
use settings::layout::Layout;
use traps::table::Planted;

// An open definition: its name, and how many bytes of its body lie behind the texts.
// No Option: the record for C holds all three, and gives them back where none is open too.
#[derive(Clone, Copy, Debug, PartialEq, Eq)]
pub struct Opening {
    pub there: bool,
    pub name: Name,
    pub length: usize,
}

// All of the state that is no array, but for the source.
#[derive(Clone, Copy)]
pub struct Status {
    pub layout: Layout,
    pub page: Page,
    pub collected: Collected,
    pub planted: Planted,
    pub stack: Stack,
    pub texts: usize,
    pub opening: Opening,
    pub registers: usize,
}

// How a piece of work leads on, how many bytes of the row it wrote, and the state after it.
#[derive(Clone, Copy)]
pub struct WorkOutcome {
    pub way: Way,
    pub written: usize,
    pub status: Status,
}

// What de leads to: how many texts there are then, and the definition that is open.
#[derive(Clone, Copy, Debug, PartialEq, Eq)]
pub struct Opened {
    pub texts: usize,
    pub opening: Opening,
}

// Nothing is written, and all is as it is.
pub fn stay(way: Way, status: Status) -> WorkOutcome
    ensures { result ≡ stayed way status }
{
    WorkOutcome {
        way,
        written: 0,
        status,
    }
}

// The page state after a piece of work on it.
pub fn moved(outcome: PageOutcome, status: Status) -> WorkOutcome
    ensures { result ≡ moved_to outcome status }
{
    WorkOutcome {
        way: outcome.way,
        written: outcome.written,
        status: Status {
            layout: outcome.layout,
            page: outcome.page,
            collected: outcome.collected,
            stack: outcome.stack,
            ..status
        },
    }
}

// So many registers.
pub fn with_registers(status: Status, registers: usize) -> Status
    ensures { result ≡ with_register_count registers status }
{
    Status {
        registers,
        ..status
    }
}

// These traps.
pub fn with_planted(status: Status, planted: Planted) -> Status
    ensures { result ≡ with_planted planted status }
{
    Status { planted, ..status }
}

// So many texts, and this open definition.
pub fn with_texts(status: Status, texts: usize, opening: Opening) -> Status
    ensures { result ≡ with_text_count texts opening status }
{
    Status {
        texts,
        opening,
        ..status
    }
}

// Another input stack.
pub fn with_stack(status: Status, stack: Stack) -> Status
    ensures { result ≡ with_status_stack stack status }
{
    Status { stack, ..status }
}
