// Macros and strings where they lie: their bytes one after the other in a store, their names, kinds and lengths in columns. They
// are lent to be changed or to be read.
ghost use Rattle.texts.specs.Table.Table.{TextsInvariant};

use rules::arrays::{ByteColumn, LengthColumn};

// At most 64 texts, in the order of their definitions.
#[derive(Drop)]
pub struct Texts<'a> {
    pub store: &'a mut [u8],
    pub firsts: &'a mut ByteColumn,
    pub seconds: &'a mut ByteColumn,
    pub kinds: &'a mut ByteColumn,
    pub lengths: &'a mut LengthColumn,
    pub count: usize,
    ghost sound: { TextsInvariant store.now firsts.now seconds.now kinds.now lengths.now count },
}

// The same, lent to be read. A part of the store may outlive the loan of the columns.
#[derive(Clone, Copy)]
pub struct TextsRef<'s, 'c> {
    pub store: &'s [u8],
    pub firsts: &'c ByteColumn,
    pub seconds: &'c ByteColumn,
    pub kinds: &'c ByteColumn,
    pub lengths: &'c LengthColumn,
    pub count: usize,
    ghost sound: { TextsInvariant store.now firsts.now seconds.now kinds.now lengths.now count },
}
