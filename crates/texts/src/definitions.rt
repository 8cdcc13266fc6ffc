// Strings and macros are defined, in the place of what had their name.
ghost use Rattle.std.specs.Prelude.{◌≡◌, ◌+◌, ◌<◌, ◌≤◌, ◌-◌, ltb, length, take};
ghost use Rattle.std.proofs.Math.Seq.{paste};
ghost use Rattle.texts.specs.Table.Table.{code_of, total_length, TextsInvariant};
ghost use Rattle.texts.specs.Table.Changes.{Entered, Opens, KeptTo, ClosedTo};
ghost use Rattle.texts.specs.Table.Lent.{AppendedIn, DefinedIn, OpenedIn};

use super::columns::Texts;
use rules::arrays::{ByteColumn, LengthColumn, TABLE_SIZE};
use rules::{Kind, Name, Refusal};

// `text` is written at a place. A loop: `copy_from_slice` would call memmove, which the C archive is not to ask for.
pub fn copy_in<T: Copy>(store: &mut [T], at: usize, text: &[T])
    requires { at + length text.now ≤ length store.old }
    ensures { store.new ≡ paste store.old at text.now (length text.now) }
{
    for (j, item) in text.iter().enumerate() {
        store[at + j] = *item;
    }
}

// Whether so many bytes more do not fit behind those that are used.
fn too_long(room: usize, used: usize, more: usize) -> bool
    ensures { result ≡ ltb room (used + more) }
{
    room < used || room - used < more
}

// The code of a kind in the column that callers lend.
fn code_of(kind: Kind) -> u8
    ensures { result ≡ code_of kind }
{
    match kind {
        Kind::Macro => 0,
        Kind::String => 1,
    }
}

// Writes a row of the table.
fn enter(
    firsts: &mut ByteColumn,
    seconds: &mut ByteColumn,
    kinds: &mut ByteColumn,
    lengths: &mut LengthColumn,
    count: usize,
    name: Name,
    kind: Kind,
    size: u16,
)
    requires { count < 64 }
    ensures { Entered firsts.old seconds.old kinds.old lengths.old count name kind size firsts.new seconds.new kinds.new lengths.new }
{
    firsts[count] = name.first;
    seconds[count] = name.second;
    kinds[count] = code_of(kind);
    lengths[count] = size;
}

// Puts a text behind the last.
fn append(texts: &mut Texts, name: Name, kind: Kind, text: &[u8])
    requires { (texts.old.count < 64) × (total_length (take texts.old.count texts.old.lengths.now) + length text.now ≤ length texts.old.store.now) × (length text.now ≤ 8192) }
    ensures { AppendedIn texts.old name kind text.now texts.new }
{
    let at = super::table::start_of(&*texts.lengths, texts.count);
    copy_in(&mut *texts.store, at, text);
    let size = text.len() as u16;
    enter(
        &mut *texts.firsts,
        &mut *texts.seconds,
        &mut *texts.kinds,
        &mut *texts.lengths,
        texts.count,
        name,
        kind,
        size,
    );
    texts.count += 1;
}

// Defines a string in the place of what had its name; one that is refused changes nothing.
pub fn define_string(texts: &mut Texts, name: Name, text: &[u8]) -> Result<(), Refusal>
    ensures { DefinedIn texts.old name text.now result texts.new }
{
    let live = super::table::start_of(&*texts.lengths, texts.count);
    let room = super::table::room_of(texts.store.len());
    match super::table::find(&*texts.firsts, &*texts.seconds, texts.count, name) {
        Some(i) => {
            let lengths = &*texts.lengths;
            let old = usize::from(lengths[i]);
            if too_long(room, live - old, text.len()) {
                return Err(Refusal::FullTable);
            }
            super::removal::take_out(texts, i);
            append(texts, name, Kind::String, text);
            Ok(())
        }
        None => {
            if TABLE_SIZE <= texts.count {
                return Err(Refusal::FullTable);
            }
            if too_long(room, live, text.len()) {
                return Err(Refusal::FullTable);
            }
            append(texts, name, Kind::String, text);
            Ok(())
        }
    }
}

// Opens a macro: "the old text counts as gone when the new definition starts"; one that is refused changes nothing.
pub fn open_macro(texts: &mut Texts, name: Name) -> Result<(), Refusal>
    ensures { OpenedIn texts.old name result texts.new }
{
    match super::table::find(&*texts.firsts, &*texts.seconds, texts.count, name) {
        Some(i) => {
            super::removal::take_out(texts, i);
            Ok(())
        }
        None => {
            if texts.count < TABLE_SIZE {
                return Ok(());
            }
            Err(Refusal::FullTable)
        }
    }
}

// Puts a line and its newline behind the body of an open macro; one that is refused changes nothing. No Texts: of the columns it
// is lent the lengths alone, to be read.
pub fn keep_line(
    store: &mut [u8],
    lengths: &LengthColumn,
    count: usize,
    opened: usize,
    line: &[u8],
) -> Result<usize, Refusal>
    requires { Opens store.old lengths.now count opened }
    ensures { KeptTo store.old lengths.now count opened line.now result store.new }
{
    let at = super::table::start_of(lengths, count) + opened;
    let room = super::table::room_of(store.len());
    let more = line.len() + 1;
    if too_long(room, at, more) {
        return Err(Refusal::FullTable);
    }
    copy_in(store, at, line);
    store[at + line.len()] = b'\n';
    Ok(opened + more)
}

// "A macro exists once closed": so many texts there are then. No Texts: it is lent the store to be read.
pub fn close_macro(
    store: &[u8],
    firsts: &mut ByteColumn,
    seconds: &mut ByteColumn,
    kinds: &mut ByteColumn,
    lengths: &mut LengthColumn,
    count: usize,
    opened: usize,
    name: Name,
) -> usize
    requires { (TextsInvariant store.now firsts.old seconds.old kinds.old lengths.old count) × Opens store.now lengths.old count opened }
    ensures { ClosedTo store.now firsts.old seconds.old kinds.old lengths.old count opened name result firsts.new seconds.new kinds.new lengths.new }
{
    let size = opened as u16;
    enter(
        &mut *firsts,
        &mut *seconds,
        &mut *kinds,
        &mut *lengths,
        count,
        name,
        Kind::Macro,
        size,
    );
    count + 1
}
