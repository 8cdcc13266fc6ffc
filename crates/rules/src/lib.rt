#![tactic(auto)]

// The types that the rules of document 01 and the code share. What the rules say is in specs/, in document 01's order.
ghost use Rattle.std.specs.Prelude.{◌≡◌};
ghost use Rattle.rules.specs.Results.{refusal_number};

pub mod arrays;

use measure::Rows;

// "\& a mark of no width", as a byte of an expanded line: a code that no source line holds.
pub const MARK: u8 = 2;

// "backslash-space a fixed blank", as a byte of an expanded line: a code that no source line holds.
pub const FIXED_BLANK: u8 = 3;

// The first cell of a gap in a collected line: a code that no source line holds.
pub const GAP_START: u8 = 4;

// "Refusal numbers": why a record or a document is refused, each by what its row of the table begins with.
#[derive(Clone, Copy, Debug, PartialEq, Eq)]
pub enum Refusal {
    BadRecord,
    BadByte,
    LongLine,
    DeepString,
    BadEscape,
    BadNumber,
    OutOfRange,
    OpenMacro,
    TextInUse,
    DeepStack,
    FullTable,
    LongDocument,
}

impl Refusal {
    // "No."
    pub fn number(self) -> u8
        ensures { result ≡ refusal_number self }
    {
        match self {
            Refusal::BadRecord => 1,
            Refusal::BadByte => 2,
            Refusal::LongLine => 3,
            Refusal::DeepString => 4,
            Refusal::BadEscape => 5,
            Refusal::BadNumber => 6,
            Refusal::OutOfRange => 7,
            Refusal::OpenMacro => 8,
            Refusal::TextInUse => 9,
            Refusal::DeepStack => 10,
            Refusal::FullTable => 11,
            Refusal::LongDocument => 12,
        }
    }
}

// A name of one or two bytes; the second byte of a one-byte name is 0.
#[derive(Clone, Copy, Debug, PartialEq, Eq, PartialOrd, Ord)]
pub struct Name {
    pub first: u8,
    pub second: u8,
}

// A number register: its name, its value, and what a step adds or takes away.
#[derive(Clone, Copy, Debug, PartialEq, Eq)]
pub struct Register {
    pub name: Name,
    pub value: i32,
    pub step: i32,
}

// A planted trap: its row, a negative one counted up from the page end, and the name of its text.
#[derive(Clone, Copy, Debug, PartialEq, Eq)]
pub struct Trap {
    pub place: Rows,
    pub name: Name,
}

// The operators of an expression.
#[derive(Clone, Copy, Debug, PartialEq, Eq)]
pub enum Operator {
    Add,
    Subtract,
    Multiply,
    Divide,
    Remainder,
    Less,
    Greater,
    AtMost,
    AtLeast,
    Equal,
    And,
    Or,
}

// How a reference steps its register first.
#[derive(Clone, Copy, Debug, PartialEq, Eq)]
pub enum Turn {
    Still,
    Up,
    Down,
}

// What a text is.
#[derive(Clone, Copy, Debug, PartialEq, Eq)]
pub enum Kind {
    Macro,
    String,
}

// How a line is expanded.
#[derive(Clone, Copy, Debug, PartialEq, Eq)]
pub enum Mode {
    Plain,
    Copy,
}

// The requests that break and then set the layout.
#[derive(Clone, Copy, Debug, PartialEq, Eq)]
pub enum LineSetting {
    Fi,
    Nf,
    Ce,
    In,
    Ti,
}

// The requests that break.
#[derive(Clone, Copy, Debug, PartialEq, Eq)]
pub enum Breaking {
    Br,
    Sp,
    Bp,
    Sets(LineSetting),
}

// The requests that set the layout and do not break.
#[derive(Clone, Copy, Debug, PartialEq, Eq)]
pub enum PageSetting {
    Pl,
    Po,
    Ll,
    Ad,
    Na,
}

// The requests that change a table, by their arguments.
#[derive(Clone, Copy, Debug, PartialEq, Eq)]
pub enum TableChange {
    Nr,
    De,
    Rm,
    Wh,
}

// Any request, by its kind. ds and if stand alone: what follows their names is not parted into arguments.
#[derive(Clone, Copy, Debug, PartialEq, Eq)]
pub enum Request {
    Breaks(Breaking),
    Lays(PageSetting),
    Changes(TableChange),
    Ds,
    If,
}
