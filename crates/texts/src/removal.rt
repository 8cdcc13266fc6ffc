// A text is taken out of the store and the table: what lies behind it moves down.
ghost use Rattle.std.specs.Prelude.{◌≡◌, ◌+◌, ◌<◌, ◌≤◌, ◌-◌, length, drop};
ghost use Rattle.std.proofs.Math.Seq.{paste};
ghost use Rattle.texts.specs.Table.Changes.{closed_up};
ghost use Rattle.texts.specs.Table.Lent.{TakenFrom, RemovedIn};

use super::columns::Texts;
use rules::Name;
use rules::arrays::TABLE_SIZE;

// The bytes from `from` up to `end` move down to `to`.
fn move_down(store: &mut [u8], to: usize, from: usize, end: usize)
    requires { (to ≤ from) × (from ≤ end) × (end ≤ length store.old) }
    ensures { store.new ≡ paste store.old to (drop from store.old) (end - from) }
{
    store.copy_within(from..end, to);
}

// The rows behind a place, up to `count`, move up by one.
fn close_up<T: Copy>(column: &mut [T; TABLE_SIZE], place: usize, count: usize)
    requires { (place < count) × (count ≤ 64) × (length column.old ≡ 64) }
    ensures { column.new ≡ closed_up column.old place (count - 1 - place) }
{
    column.copy_within(place + 1..count, place);
}

// Takes the text in row `i` out; the later ones move down.
pub fn take_out(texts: &mut Texts, i: usize)
    requires { i < texts.old.count }
    ensures { TakenFrom texts.old i texts.new }
{
    let count = texts.count;
    let to = super::table::start_of(&*texts.lengths, i);
    let from = super::table::start_of(&*texts.lengths, i + 1);
    let end = super::table::start_of(&*texts.lengths, count);
    // one text less already: the columns stand for a table after each move
    texts.count = count - 1;
    move_down(&mut *texts.store, to, from, end);
    close_up(&mut *texts.firsts, i, count);
    close_up(&mut *texts.seconds, i, count);
    close_up(&mut *texts.kinds, i, count);
    close_up(&mut *texts.lengths, i, count);
}

// Removes the text of a name; "The room of redefined or removed text is used again".
pub fn remove(texts: &mut Texts, name: Name)
    ensures { RemovedIn texts.old name texts.new }
{
    match super::table::find(&*texts.firsts, &*texts.seconds, texts.count, name) {
        Some(i) => take_out(texts, i),
        None => {}
    }
}
