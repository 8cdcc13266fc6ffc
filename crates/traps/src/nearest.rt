// The trap that a row of the page meets, and the nearest below it.
ghost use Rattle.std.specs.Prelude.{◌≡◌, ◌≤◌};
ghost use Rattle.measure.specs.Counts.{down_of, rows_down};
ghost use Rattle.rules.specs.Traps.{row_of, is_row, nearer, seen_at, nearest_trap};
ghost use Rattle.traps.specs.Table.Table.{TrapsInvariant, planted_of};

use super::table::Planted;
use measure::Rows;
use rules::{Name, Trap};

// The row of a trap on a page of that many rows: one below 0 is counted up from the page end, and one past the page sleeps.
fn row_of(place: Rows, page: usize) -> Option<usize>
    ensures { result ≡ row_of page place.0 }
{
    let n = place.0;
    if n < 0 {
        return page.checked_sub(n.unsigned_abs() as usize);
    }
    let row = n as usize;
    (row < page).then_some(row)
}

// Does the trap stand at this row?
fn stands_at(trap: Trap, page: usize, row: usize) -> bool
    ensures { result ≡ is_row row (row_of page trap.place.0) }
{
    row_of(trap.place, page) == Some(row)
}

// The name of the first planted trap at a row.
pub fn seen_at(p: Planted, page: Rows, row: Rows) -> Option<Name>
    requires { TrapsInvariant p }
    ensures { result ≡ seen_at (down_of page) (down_of row) (planted_of p) }
{
    let rows = measure::down(page) as usize;
    let at = measure::down(row) as usize;
    let mut traps = p.traps[..p.count].iter();
    let seen = traps.find(|trap| stands_at(**trap, rows, at))?;
    Some(seen.name)
}

// The trap's row, if it is below this row and above the best so far, or else the best so far.
fn closer(trap: Trap, page: usize, row: usize, best: usize) -> usize
    ensures { result ≡ nearer row (row_of page trap.place.0) best }
{
    match row_of(trap.place, page) {
        Some(n) if row < n => n.min(best),
        _ => best,
    }
}

// The first row below this one that has a trap, or else `best`, over lent traps.
fn nearest_of(traps: &[Trap], page: usize, row: usize, best: usize) -> usize
    ensures { result ≡ nearest_trap page row best traps.now }
{
    traps
        .iter()
        .fold(best, |best, trap| closer(*trap, page, row, best))
}

// The first row below this one that has a trap, or else `best`.
pub fn nearest(p: Planted, page: Rows, row: Rows, best: Rows) -> Rows
    requires { TrapsInvariant p }
    ensures { result ≡ rows_down (nearest_trap (down_of page) (down_of row) (down_of best) (planted_of p)) }
{
    let found = nearest_of(
        &p.traps[..p.count],
        measure::down(page) as usize,
        measure::down(row) as usize,
        measure::down(best) as usize,
    );
    Rows(found as i32)
}
