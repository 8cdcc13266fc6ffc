// The move down a page: rows, page ends, and the trap that a row reaches.
ghost use Rattle.std.specs.Prelude.{◌≡◌, ◌≤◌};
ghost use Rattle.measure.specs.Counts.{down_of};
ghost use Rattle.traps.specs.Table.Table.{planted_of};
ghost use Rattle.page.specs.Position.Landing.{PositionInvariant, page_of, landing_is, landing_down, landing_next, rows_to_trap, blanks_of};

use measure::Rows;
use rules::{Name, Refusal};
use traps::table::Planted;

// The page being written: its number, 0 before the first; the rows used on it; and whether the end has begun.
#[derive(Clone, Copy)]
pub struct Page {
    pub number: u32,
    pub used: Rows,
    pub last: bool,
}

// A row of a page that a move down reaches, and the name of the trap that is seen there.
#[derive(Clone, Copy)]
pub struct Reached {
    pub page: Page,
    pub trap: Option<Name>,
}

// The start of the next page. "12: past 1,000,000 .. pages".
pub fn start_page(page: Page, length: Rows, planted: Planted) -> Result<Option<Reached>, Refusal>
    requires { PositionInvariant page length planted }
    ensures { landing_is result ≡ landing_next (page_of page) (down_of length) (planted_of planted) }
{
    if page.number >= 1000000 {
        return Err(Refusal::LongDocument);
    }
    let next = Page {
        number: page.number + 1,
        used: Rows(0),
        ..page
    };
    let trap = traps::nearest::seen_at(planted, length, next.used);
    Ok(Some(Reached { page: next, trap }))
}

// So many rows down from where the page stands; no row, where the end is done.
pub fn move_down(
    page: Page,
    rows: Rows,
    length: Rows,
    planted: Planted,
) -> Result<Option<Reached>, Refusal>
    requires { PositionInvariant page length planted }
    ensures { landing_is result ≡ landing_down (page_of page) (down_of length) (down_of rows) (planted_of planted) }
{
    let to = measure::down(page.used) as usize + measure::down(rows) as usize;
    if to < measure::down(length) as usize {
        let used = measure::rows_down(to as u16);
        let trap = traps::nearest::seen_at(planted, length, used);
        let moved = Page { used, ..page };
        return Ok(Some(Reached { page: moved, trap }));
    }
    if page.last {
        return Ok(None);
    }
    start_page(page, length, planted)
}

// The rows from here to the nearest trap or the page end.
pub fn rows_below(page: Page, length: Rows, planted: Planted) -> Rows
    requires { PositionInvariant page length planted }
    ensures { down_of result ≡ rows_to_trap (page_of page) (down_of length) (planted_of planted) }
{
    let row = traps::nearest::nearest(planted, length, page.used, length);
    measure::rows_down((measure::down(row) - measure::down(page.used)) as u16)
}

// The blank rows that an sp writes: "sp stops at the nearest trap or page end and drops the rest; 0 or less moves nothing."
pub fn blanks(count: Rows, page: Page, length: Rows, planted: Planted) -> Rows
    requires { PositionInvariant page length planted }
    ensures { down_of result ≡ blanks_of count.0 (rows_to_trap (page_of page) (down_of length) (planted_of planted)) }
{
    let below = measure::down(rows_below(page, length, planted));
    Rows(measure::down(count).min(below) as i32)
}
