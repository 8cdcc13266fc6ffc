// Where each part of a record stands among its words. docs/RECORD.md has the table.

// A setting has two words: its value, and the one before it.
pub const LINE_LENGTH: usize = 0;

pub const INDENT: usize = 2;

pub const OFFSET: usize = 4;

pub const PAGE_LENGTH: usize = 6;

pub const HAS_TOTAL: usize = 7;

pub const TOTAL: usize = 8;

pub const FILLING: usize = 9;

pub const ADJUSTING: usize = 10;

pub const CENTRED: usize = 11;

// The page.
pub const PAGE_NUMBER: usize = 12;

pub const ROWS_USED: usize = 13;

pub const IS_LAST_PAGE: usize = 14;

// The collected line.
pub const HAS_LINE: usize = 15;

pub const LINE_INDENT: usize = 16;

pub const LINE_ROOM: usize = 17;

pub const LINE_CELLS: usize = 18;

pub const NEXT_GAP: usize = 19;

// The counts of what lies in arrays.
pub const STACK_DEPTH: usize = 20;

pub const TEXT_COUNT: usize = 21;

pub const REGISTER_COUNT: usize = 22;

// The open definition.
pub const HAS_OPENING: usize = 23;

pub const OPENING_NAME: usize = 24;

pub const OPENING_LENGTH: usize = 25;

// The source.
pub const SOURCE_LINES: usize = 26;

pub const GATHERED_LENGTH: usize = 27;

pub const IS_ENDED: usize = 28;

pub const STORED_LINES: usize = 29;

// The bytes that wait.
pub const WAITING_FROM: usize = 30;

pub const WAITING_END: usize = 31;

// The closing answer.
pub const CLOSING_TAG: usize = 32;

pub const REFUSAL_NUMBER: usize = 33;

pub const REFUSAL_LINE: usize = 34;

// The traps: how many there are, and two words for each that there may be.
pub const TRAP_COUNT: usize = 35;

pub const TRAPS: usize = 36;
