// The arrays that callers lend, and their sizes. Each is said here and nowhere else.

// "a source line or expanded line passes 512 bytes".
pub const LINE_SIZE: usize = 512;

// The bytes of a line: of the source, expanded, or collected.
pub type LineBytes = [u8; LINE_SIZE];

// A row: "po 0 to 120", an indent of "0 to 239", the cells of a line, and a newline.
pub const ROW_SIZE: usize = 120 + 239 + LINE_SIZE + 1;

// The bytes of a row as printed.
pub type RowBytes = [u8; ROW_SIZE];

// "input stack past 16 items", and one more that is held for a moment.
pub const STACK_ITEMS: usize = 17;

// A line for each item.
pub const STACK_SIZE: usize = STACK_ITEMS * LINE_SIZE;

// The bytes of the items on the input stack.
pub type StackBytes = [u8; STACK_SIZE];

// "past nine are dropped".
pub const ARGUMENT_COUNT: usize = 9;

// Where the arguments of a call end.
pub type ArgumentEnds = [u16; ARGUMENT_COUNT];

// What an item is comes first, in so many words, and then where its arguments end.
pub const ITEM_HEAD: usize = 4;

// The words of an item.
pub const ITEM_WORDS: usize = ITEM_HEAD + ARGUMENT_COUNT;

// The words of all items.
pub const STACK_WORDS: usize = STACK_ITEMS * ITEM_WORDS;

// What the items on the input stack are, and where their arguments end.
pub type StackEnds = [u16; STACK_WORDS];

// "a 65th register, 65th name".
pub const TABLE_SIZE: usize = 64;

// A column of a table: a byte for each entry.
pub type ByteColumn = [u8; TABLE_SIZE];

// A column of a table: a length for each entry.
pub type LengthColumn = [u16; TABLE_SIZE];

// A column of a table: a number for each entry.
pub type NumberColumn = [i32; TABLE_SIZE];

// "the store (8,192 bytes for macro and string text)".
pub const STORE_SIZE: usize = 8192;

// The words of a record for C: all of it that is no array.
pub const RECORD_WORDS: usize = 68;

// A record for C, but for its arrays.
pub type RecordWords = [i32; RECORD_WORDS];
