// Macros and strings: their bytes one after the other in a lent store, their names, kinds and lengths in lent columns.
ghost use Rattle.std.specs.Prelude.{◌≡◌, ◌+◌, ◌<◌, ◌-◌, length, get_or, take, drop};
ghost use Rattle.rules.specs.Names.{two_bytes, same_name};
ghost use Rattle.rules.specs.Texts.{text_of};
ghost use Rattle.texts.specs.Table.Table.{kind_of, names_of, total_length, Names, TextStarts};
ghost use Rattle.texts.specs.Table.Places.{text_place, bytes_or};
ghost use Rattle.texts.specs.Table.Changes.{room_of};
ghost use Rattle.texts.specs.Table.Lent.{texts_at, FoundIn};
ghost use Rattle.texts.specs.Table.Checks.{NameColumns, is_text_table, lacks_name, no_name_twice};

use super::columns::TextsRef;
use rules::arrays::{ByteColumn, LengthColumn, STORE_SIZE, TABLE_SIZE};
use rules::{Kind, Name};

// Where the bytes of a text lie in the store.
#[derive(Clone, Copy, Debug, PartialEq, Eq)]
pub struct Spot {
    pub kind: Kind,
    pub at: usize,
    pub length: usize,
}

// Whether a row has a name. The second byte is looked at only where the first is the same.
fn same_at(firsts: &ByteColumn, seconds: &ByteColumn, i: usize, name: Name) -> bool
    requires { i < 64 }
    ensures { result ≡ same_name name (two_bytes (get_or firsts.now i 0) (get_or seconds.now i 0)) }
{
    name.first == firsts[i] && name.second == seconds[i]
}

// The place of a name in the table, if it is there.
pub fn find(firsts: &ByteColumn, seconds: &ByteColumn, count: usize, name: Name) -> Option<usize>
    requires { Names firsts.now seconds.now count }
    ensures { result ≡ text_place name (names_of firsts.now seconds.now count) }
{
    (0..count).position(|i| same_at(firsts, seconds, i, name))
}

// The sum of the first `k` lengths: the place of text `k`.
pub fn start_of(lengths: &LengthColumn, k: usize) -> usize
    requires { TextStarts lengths.now k }
    ensures { result ≡ total_length (take k lengths.now) }
{
    lengths[..k].iter().map(|size| usize::from(*size)).sum()
}

// The kind by its code in the column that callers lend.
fn kind_of(code: u8) -> Kind
    ensures { result ≡ kind_of code }
{
    match code {
        0 => Kind::Macro,
        _ => Kind::String,
    }
}

// The text of a name.
pub fn look_up(texts: &TextsRef, name: Name) -> Option<Spot>
    ensures { FoundIn texts.now name result }
{
    let kinds = texts.kinds;
    let lengths = texts.lengths;
    let i = find(texts.firsts, texts.seconds, texts.count, name)?;
    Some(Spot {
        kind: kind_of(kinds[i]),
        at: start_of(lengths, i),
        length: usize::from(lengths[i]),
    })
}

// "The lookup hands back the string's own bytes in the store, not a copy"; an undefined name has none.
pub fn text_bytes<'s>(texts: &TextsRef<'s, '_>, name: Name) -> &'s [u8]
    ensures { result.now ≡ bytes_or (text_of name (texts_at texts.now)) }
{
    match look_up(texts, name) {
        Some(spot) => &texts.store[spot.at..spot.at + spot.length],
        None => &[],
    }
}

// "live text past 8,192 bytes", or past the end of a shorter store
pub fn room_of(store: usize) -> usize
    ensures { result ≡ room_of store }
{
    store.min(STORE_SIZE)
}

// Whether the first texts are at most 8,192 bytes and lie within a store of so many.
pub fn is_table(store: usize, lengths: &LengthColumn, count: usize) -> bool
    ensures { result ≡ is_text_table store lengths.now count }
{
    count <= TABLE_SIZE && start_of(lengths, count) <= room_of(store)
}

// Whether no row from a place on has a name.
fn lacks_name(
    firsts: &ByteColumn,
    seconds: &ByteColumn,
    place: usize,
    count: usize,
    name: Name,
) -> bool
    requires { Names firsts.now seconds.now count }
    ensures { result ≡ lacks_name name (drop place (names_of firsts.now seconds.now count)) }
{
    (place..count).all(|i| !same_at(firsts, seconds, i, name))
}

// Whether no two of the first rows have one name.
pub fn no_name_twice(firsts: &ByteColumn, seconds: &ByteColumn, count: usize) -> bool
    requires { NameColumns firsts.now seconds.now }
    ensures { result ≡ no_name_twice firsts.now seconds.now count }
{
    count <= TABLE_SIZE
        && (0..count).all(|i| lacks_name(
            firsts,
            seconds,
            i + 1,
            count,
            Name {
                first: firsts[i],
                second: seconds[i],
            },
        ))
}
